// The end of a slice.
ghost use Rattle.std.specs.Prelude.{◌≡◌, ◌+◌, ◌≤◌, ℕ, IfErr, IfSome, IsTrue, OnOk, option_and_then};
ghost use Rattle.arn_base.specs.declared.machine.Cpu.{Cpu};
ghost use Rattle.acts_model.specs.Moved.{is_call_or_end};
ghost use Rattle.acts_model.specs.Told.{act_of};
ghost use Rattle.history_model.specs.Alone as alone;
ghost use Rattle.history_model.specs.Alone.{Own};
ghost use Rattle.replay_steps.specs.Calls.{ChildIsFree, child_joined};
ghost use Rattle.replay_steps.specs.Notices.{Listener};
ghost use Rattle.replay_steps.specs.Plain.{slice_of};
ghost use Rattle.replay_steps.specs.Standing.{Explains, GainsOnly, IsStanding, Reaches, Stands};

use crate::ReplayError;
use crate::happening::happen;
use crate::plain::{Turn, run};
use crate::wrong::{Finding, NO_BYTE, NO_CALL};
use acts_model::Observer;
use arn_base::{Record, Steps};
use guest_bodies::Bodies;
use std::sync::ledger::Ledger;

// A slice of no instruction has no last one.
fn no_instruction(entry: &Record) -> Finding
    requires { IsTrue (is_call_or_end entry.now) }
    ensures { (event : ℕ) → (own : Own) → alone.no_instruction event entry.now (alone.Makes own) ≡
        alone.Fails (record { event = event; said = result.said; found = result.found }) }
{
    match entry {
        Record::Call { number, .. } => Finding {
            said: *number,
            found: NO_CALL,
        },
        Record::End { status, .. } => Finding {
            said: u64::from(*status),
            found: NO_BYTE,
        },
        _ => unreachable!(),
    }
}

/// Runs all but the last of the instructions of a slice that are owed, and does what the record of
/// the last one tells.
pub fn end_slice<O: Observer, L: Ledger>(
    bodies: &mut Bodies,
    slice: &Turn,
    owed: u32,
    entry: &Record,
    observer: &mut O,
    steps: &mut Steps<L>,
) -> Result<(), ReplayError>
    requires last { IsTrue (is_call_or_end entry.now) }
    requires standing { IsStanding bodies.old slice.now.event }
    requires child { (cpu : Cpu) → IfSome (act_of cpu entry.now) (ChildIsFree bodies.old) }
    ensures ok { (own : Own) → Stands bodies.old slice.now.event own →
        OnOk result (Reaches (record { begins = O.begins; runs = O.runs; hears = O.hears })
        observer.old steps.old own (alone.ends_slice (slice_of slice.now) owed entry.now own)
        bodies.new (slice.now.event + 1) observer.new steps.new) }
    ensures err { (own : Own) → Stands bodies.old slice.now.event own →
        IfErr result (Explains (alone.ends_slice (slice_of slice.now) owed entry.now own)) }
    ensures lives { (cpu : Cpu) → OnOk result (GainsOnly
        (option_and_then child_joined (act_of cpu entry.now)) bodies.old bodies.new) }
    ensures bounded { steps.new ≤ steps.old + owed }
{
    if owed == 0 {
        return Err(ReplayError::Disagrees(no_instruction(entry).at(slice.event)));
    }
    run(bodies, slice, owed - 1, observer, steps)?;
    happen(bodies, slice.pid, slice.event, entry, observer, steps)
}
