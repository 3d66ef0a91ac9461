// A group, followed up to a moment.
ghost use Rattle.std.specs.Prelude.{◌≡◌, ◌≤◌, ◌+◌, IfErr, IfOk, OnOk};
ghost use Rattle.history_index.specs.Indexes.{AreCountable, Indexes};
ghost use Rattle.history_model.specs.Alone.{alone};
ghost use Rattle.followed_groups.specs.Follows.{Explains, Follows};
ghost use Rattle.query_model.specs.Answers.{disagreement_in};
ghost use Rattle.replayer.specs.Bounds.{ran_before};

use crate::given::after;
use arn_base::{Record, Steps};
use history_index::Index;
use replayer::{QueryError, replay, runs_before};
use rv64_model::Linkage;
use std::alloc::Global;
use std::sync::ledger::Ledger;
use taint_laws::{follows_holders, told_hears, told_holds, told_keeps};
use taint_tracker::Tracker;
use window_laws::blocks_are_whole;

/// Replays a group up to a moment, and follows where its bytes come from.
pub fn follow<L: Ledger>(
    alloc: Global,
    entries: &[Record],
    index: &Index,
    linkage: Linkage,
    group: u32,
    until: u64,
    steps: &mut Steps<L>,
) -> Result<Tracker, QueryError>
    requires countable { AreCountable entries.now }
    requires indexed { Indexes index.now entries.now }
    ensures ok { IfOk result (Follows linkage entries.now until group) }
    ensures err { IfErr result (Explains (disagreement_in (alone entries.now group until))) }
    ensures counted { OnOk result (steps.new ≡ steps.old + ran_before entries.now group until) }
    ensures bounded { steps.new ≤ steps.old + ran_before entries.now group until }
{
    runs_before();
    blocks_are_whole(entries);
    follows_holders();
    told_keeps();
    told_hears();
    told_holds();
    let mut tracker = Tracker::new(alloc, linkage)?;
    let replayed = replay(alloc, entries, index, group, until, &mut tracker, steps);
    Ok(after(tracker, replayed)?)
}
