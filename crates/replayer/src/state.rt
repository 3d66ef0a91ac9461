// What a replay makes of a group.
ghost use Rattle.std.specs.Prelude.{◌≡◌, ◌+◌, ◌≤◌, IfErr, IfOk, None, OnErr, OnOk, Some, filter, is_some, length, option_and_then, option_map};
ghost use Rattle.parts_model.specs.Numbered.{nth};
ghost use Rattle.acts_model.specs.Views.{bytes_in};
ghost use Rattle.guest_bodies.specs.Shown.{seen_in};
ghost use Rattle.guest_states.specs.State.{state_of};
ghost use Rattle.history_index.specs.Indexes.{AreCountable, Indexes};
ghost use Rattle.history_model.specs.Alone as alone;
ghost use Rattle.replay_steps.specs.Notices.{Listener};
ghost use Rattle.replay_steps.specs.Standing.{Explains};
ghost use Rattle.replayer.specs.Bounds.{ran_before};
ghost use Rattle.replayer.specs.Lives.{live_in};
ghost use Rattle.replayer.specs.Replays.{Replays};

use crate::ReplayError;
use crate::walk::replay_slices;
use acts_model::Observer;
use arn_base::{BadAddress, Cpu, NoMemory, Record, State, Steps};
use guest_bodies::Bodies;
use guest_states::state_of;
use history_index::Index;
use std::alloc::Global;
use std::marker::Model;
use std::sync::ledger::Ledger;

/// The processes of a group, as a replay left them.
#[derive(Drop)]
pub struct GroupState {
    bodies: Bodies,
    live: Vec<u32>,
}

impl Model for GroupState {
    ghost use Rattle.guest_bodies.specs.Shown.{Guests};

    ghost Value = { Guests };

    ghost use Rattle.std.specs.Prelude.{◌≡◌};
    ghost use Rattle.replayer.specs.Lives.{live_in};

    ghost view = { λ s. s.bodies };

    ghost invariant = { λ s. s.live.items ≡ live_in s.bodies };
}

impl GroupState {
    /// The numbers of the members that live, rising.
    pub fn live(&self) -> &[u32]
        ensures { result.now ≡ live_in self.now }
    {
        self.live.as_slice()
    }

    /// The registers of a member, if it lives.
    pub fn cpu(&self, pid: u32) -> Option<&Cpu>
        ensures { option_map (λ cpu. cpu.now) result ≡
            option_map (λ v. v.body.cpu) (seen_in self.now pid) }
    {
        if !self.bodies.is_live(pid) {
            return None;
        }
        Some(self.bodies.cpu(pid))
    }

    /// The whole state of the members that live, in order of number.
    pub fn state(&self) -> Result<State, NoMemory>
        ensures { IfOk result (λ state. state ≡ state_of (seen_in self.now) (live_in self.now)) }
    {
        state_of(*self.live.allocator(), &self.bodies, self.live.as_slice())
    }

    /// Copies the bytes at an address of a member, where they lie whole in one of its windows.
    pub fn read_into(&self, pid: u32, at: u64, buf: &mut [u8]) -> Result<(), BadAddress>
        ensures ok { OnOk result (option_and_then (λ v. bytes_in v at (length buf.old))
            (seen_in self.now pid) ≡ Some buf.new) }
        ensures err { OnErr result (option_and_then (λ v. bytes_in v at (length buf.old))
            (seen_in self.now pid) ≡ None) }
        ensures same { OnErr result (buf.new ≡ buf.old) }
    {
        if !self.bodies.is_live(pid) {
            return Err(BadAddress);
        }
        self.bodies.read_into(pid, at, buf)
    }
}

// Those members that live.
fn living(alloc: Global, bodies: &Bodies, members: &[u32]) -> Result<Vec<u32>, NoMemory>
    ensures { IfOk result (λ live. live.items ≡
        filter (λ pid. is_some (nth bodies.now pid)) members.now) }
{
    let mut live = Vec::new(alloc);
    for pid in members {
        if bodies.is_live(*pid) {
            live.push(*pid)?;
        }
    }
    Ok(live)
}

/// Replays a group up to a moment from records of which this is the index, and tells an observer
/// what happens. It reads the record by which the group begins, and those behind its own slices that
/// begin up to the moment.
pub fn replay<O: Observer, L: Ledger>(
    alloc: Global,
    entries: &[Record],
    index: &Index,
    group: u32,
    until: u64,
    observer: &mut O,
    steps: &mut Steps<L>,
) -> Result<GroupState, ReplayError>
    requires countable { AreCountable entries.now }
    requires indexed { Indexes index.now entries.now }
    ensures ok { IfOk result (λ state. Replays
        (record { begins = O.begins; runs = O.runs; hears = O.hears }) observer.old steps.old
        (alone.alone entries.now group until) state observer.new steps.new) }
    ensures err { IfErr result (Explains (alone.alone entries.now group until)) }
    ensures bounded { steps.new ≤ steps.old + ran_before entries.now group until }
{
    let bodies = replay_slices(alloc, entries, index, group, until, observer, steps)?;
    let live = living(alloc, &bodies, index.members(group))?;
    Ok(GroupState { bodies, live })
}
