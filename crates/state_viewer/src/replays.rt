// The replay of a process's group.
ghost use Rattle.std.specs.Prelude.{◌≡◌, ◌≤◌, ◌+◌, true, IfErr, IfOk, OnOk};
ghost use Rattle.guest_bodies.specs.Follows.{Shows};
ghost use Rattle.history_index.specs.Indexes.{AreCountable, Indexes};
ghost use Rattle.history_model.specs.Alone.{Makes};
ghost use Rattle.past_lives.specs.Members.{is_member};
ghost use Rattle.state_viewer.specs.Views.{Explains, made_of, ran_of};
ghost use Rattle.state_viewer.specs.Shown.{ShowsGroup};

use crate::silent::Silent;
use arn_base::{Record, Steps};
use history_index::Index;
use past_lives::lives_have_groups;
use replayer::{GroupState, QueryError, replay, runs_before};
use std::alloc::Global;
use std::sync::ledger::Ledger;

/// The processes of a member's group, as they are at a moment.
pub fn group_at<L: Ledger>(
    alloc: Global,
    entries: &[Record],
    index: &Index,
    moment: u64,
    pid: u32,
    steps: &mut Steps<L>,
) -> Result<GroupState, QueryError>
    requires countable { AreCountable entries.now }
    requires indexed { Indexes index.now entries.now }
    requires member { is_member entries.now moment pid ≡ true }
    ensures ok { IfOk result (ShowsGroup (made_of entries.now moment pid)) }
    ensures err { IfErr result (Explains true (made_of entries.now moment pid)) }
    ensures counted { OnOk result (steps.new ≡ steps.old + ran_of entries.now moment pid) }
    ensures bounded { steps.new ≤ steps.old + ran_of entries.now moment pid }
{
    lives_have_groups();
    runs_before();
    let Some(group) = index.group_of(pid) else {
        return Err(QueryError::NoPoint);
    };
    Ok(replay(alloc, entries, index, group, moment, &mut Silent, steps)?)
}
