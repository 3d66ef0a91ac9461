// A group's replay: how it begins, and then its slices, one after the other.
ghost use Rattle.std.specs.Prelude.{◌≡◌, ◌+◌, ◌≤◌, ◌<◌, ℕ, IfErr, IfOk, Some};
ghost use Rattle.history_index.specs.Indexes.{AreCountable, Indexes};
ghost use Rattle.history_model.specs.Alone as alone;
ghost use Rattle.replay_steps.specs.Notices.{Listener};
ghost use Rattle.replay_steps.specs.Standing.{Explains};
ghost use Rattle.replayer.specs.Bounds.{ran_before};
ghost use Rattle.replayer.specs.Parts.{LivesIn};
ghost use Rattle.replayer.specs.Replays.{Replays};

use crate::ReplayError;
use crate::founding::begin_group;
use crate::parts::run_slice;
use acts_model::Observer;
use arn_base::{Record, Steps};
use guest_bodies::Bodies;
use history_index::Index;
use std::alloc::Global;
use std::sync::ledger::Ledger;

/// Replays a group's own records, up to its first slice that begins above the moment.
pub fn replay_slices<O: Observer, L: Ledger>(
    alloc: Global,
    entries: &[Record],
    index: &Index,
    group: u32,
    until: u64,
    observer: &mut O,
    steps: &mut Steps<L>,
) -> Result<Bodies, ReplayError>
    requires countable { AreCountable entries.now }
    requires indexed { Indexes index.now entries.now }
    ensures ok { IfOk result (λ bodies. Replays
        (record { begins = O.begins; runs = O.runs; hears = O.hears }) observer.old steps.old
        (alone.alone entries.now group until) bodies observer.new steps.new) }
    ensures lives { IfOk result (λ bodies. (most : ℕ) × LivesIn entries.now (Some group) most bodies) }
    ensures err { IfErr result (Explains (alone.alone entries.now group until)) }
    ensures bounded { steps.new ≤ steps.old + ran_before entries.now group until }
{
    let mut bodies = Bodies::new(alloc);
    begin_group(&mut bodies, entries, index, group, until, observer)?;
    for at in index.slices(group) {
        if at.moment > until {
            return Ok(bodies);
        }
        run_slice(&mut bodies, entries, until, at, observer, steps)?;
    }
    Ok(bodies)
}
