// The machine of a history, there when a command needs it.
ghost use Rattle.std.specs.Prelude.{◌≡◌, ◌+◌, ◌≤◌, All, is_some, length, take, IfErr, None, OnOk};
ghost use Rattle.log_model.specs.Records.{IsRun};
ghost use Rattle.result_log.specs.Spelling.{HasSpelling};
ghost use Rattle.session_commands.specs.Answering.{BlamesRecords};
ghost use Rattle.session_runs.specs.Ready.{IsNotMade};
ghost use Rattle.session_commands.specs.Cost.{machine_cost};
ghost use Rattle.session_commands.specs.Halts.{rebuild_halt_of};
ghost use Rattle.session_commands.specs.Kept.{IsSound, IsThere};

use crate::kept::Kept;
use arn_base::{NoMemory, Steps};
use guest_machine::{Machine, RebuildError};
use log_store::store_is_short;
use session_effects::Halt;
use session_model::Questions;
use std::sync::ledger::Ledger;

/// What ends a session whose machine can't be made again.
pub fn rebuild_halt(error: RebuildError) -> Halt
    ensures { result ≡ rebuild_halt_of error }
{
    match error {
        RebuildError::Differs(differs) => Halt::Differs(differs),
        RebuildError::NoMemory => Halt::NoMemory,
    }
}

/// Sees to it that the machine is there: where it isn't yet, it is made by running what the records
/// name.
pub fn make_machine<Q: Questions, L: Ledger>(
    kept: &mut Kept<Q>,
    steps: &mut Steps<L>,
) -> Result<(), Halt>
    requires sound { IsSound Q.knows kept.old.machine kept.old.questions kept.old.store.entries }
    requires spelled { All HasSpelling kept.old.store.entries }
    ensures there { OnOk result (IsThere kept.new.machine kept.old.store.entries) }
    ensures store { kept.new.store ≡ kept.old.store }
    ensures questions { kept.new.questions ≡ kept.old.questions }
    ensures not_made { IfErr result IsNotMade }
    ensures absent { IfErr result (λ halt. kept.old.machine ≡ None) }
    ensures blames { IfErr result (λ halt. BlamesRecords halt kept.old.store.entries) }
    ensures steps { steps.new ≤ steps.old +
        machine_cost (is_some kept.old.machine) kept.old.store.entries }
{
    if kept.machine.is_some() {
        return Ok(());
    }
    match Machine::rebuild(kept.alloc, kept.store.entries(), steps) {
        Ok(machine) => {
            let _ = kept.machine.insert(machine);
            Ok(())
        }
        Err(error) => Err(rebuild_halt(error)),
    }
}

/// Hands the records from `known` on to who answers questions.
pub fn tell_questions<Q: Questions>(kept: &mut Kept<Q>, known: usize) -> Result<(), NoMemory>
    requires inside { known ≤ length kept.old.store.entries }
    requires run { IsRun kept.old.store.entries }
    requires known { Q.knows kept.old.questions (take known kept.old.store.entries) }
    ensures questions { OnOk result (Q.knows kept.new.questions kept.old.store.entries) }
    ensures machine { kept.new.machine ≡ kept.old.machine }
    ensures store { kept.new.store ≡ kept.old.store }
{
    store_is_short(&kept.store);
    kept.questions.extend(kept.store.entries(), known)
}
