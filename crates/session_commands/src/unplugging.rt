// The line that unplugs a device.
ghost use Rattle.std.specs.Prelude.{◌≡◌, ◌++◌, [], ◌∷◌, None, All, IfErr, IfOk, OnErr, OnOk};
ghost use Rattle.arn_base.specs.declared.records.Record.TheVariants as entry;
ghost use Rattle.result_log.specs.Spelling.{HasSpelling};
ghost use Rattle.session_effects.specs.Outside.{GoesOnOutside, IsCauseOutside};
ghost use Rattle.session_effects.specs.Standing.{IsOpen};
ghost use Rattle.session_commands.specs.Events.{unplugging};
ghost use Rattle.session_commands.specs.Refusals.{unplug_refusal};
ghost use Rattle.session_runs.specs.Ready.{IsReady, machine_of};
ghost use Rattle.session_runs.specs.Standing.{HaltsBehind, Proceeds, standing};
ghost use Rattle.session_runs.specs.Touches.{answering};
ghost use Rattle.session_runs.specs.Turns.{finished};

use crate::events::{Event, finish, no_memory};
use arn_base::{Chooser, Disk, NoMemory, Sink};
use arn_model::runs_sound;
use guest_devices::Plugs;
use guest_machine::Machine;
use log_store::Store;
use replay_laws::records_tell_runs;
use session_effects::{Halt, Outside, effects_follow, halts_follow};
use session_runs::{MachineRuns, count_records, history_laws};
use std::alloc::Global;
use std::sync::ledger::Ledger;

// Unplugs a device of the machine, and drops it once there is the memory for its record.
fn unplug_event<A: Plugs>(
    alloc: Global,
    store: &Store,
    machine: &mut Machine,
    device: u64,
    answers: &mut A,
) -> Result<Event, NoMemory>
    requires ready { IsReady machine.old store.now.entries }
    requires accepted { unplug_refusal (A.filled answers.old) store.now.entries device ≡ None }
    ensures ready { IfOk result
        (λ event. IsReady machine.new (store.now.entries ++ event.entries.items)) }
    ensures number { IfOk result (λ event.
        event.number ≡ (machine_of store.now.entries).events) }
    ensures recorded { IfOk result (λ event. event.entries.items ≡ entry.Unplug device ∷ []) }
    ensures spelled { IfOk result (λ event. All HasSpelling event.entries.items) }
    ensures unplugged { OnOk result (A.unplugs device answers.old answers.new) }
    ensures kept { OnErr result (answers.new ≡ answers.old) }
{
    count_records(store);
    history_laws();
    records_tell_runs();
    runs_sound();
    let mut entries = Vec::new(alloc);
    match machine.unplug_from(device as u32, answers, &mut entries) {
        Ok(number) => Ok(Event { number, entries }),
        Err(error) => Err(no_memory(error)),
    }
}

/// Unplugs a device, commits the record that says so, and then prints the number of the event. The
/// device is dropped before the commit.
pub fn unplug_device<C: Chooser, A: Plugs, D: Disk, K: Sink, L: Ledger>(
    alloc: Global,
    store: &mut Store,
    machine: &mut Machine,
    device: u64,
    outside: &mut Outside<C, A, D, K, L>,
) -> Result<(), Halt>
    requires open { IsOpen D.Disk store.old outside.old.disk.now }
    requires ready { IsReady machine.old store.old.entries }
    requires accepted { unplug_refusal (A.filled outside.old.answers.now)
        store.old.entries device ≡ None }
    ensures ready { OnOk result (IsReady machine.new store.new.entries) }
    ensures advances { OnOk result (
        Proceeds D.Disk (answering A.answers A.unplugs A.filled)
        (unplugging (machine_of store.old.entries) device) finished 0
        (standing C.choices K.holds store.old outside.old)
        (standing C.choices K.holds store.new outside.new)) }
    ensures stops { IfErr result (λ halt.
        HaltsBehind D.Disk (answering A.answers A.unplugs A.filled) halt
        (unplugging (machine_of store.old.entries) device) 0
        (standing C.choices K.holds store.old outside.old)
        (standing C.choices K.holds store.new outside.new)) }
    ensures cause { IfErr result (λ halt.
        IsCauseOutside D.Disk K.faults halt outside.old outside.new) }
    ensures goes_on { GoesOnOutside D.Disk K.faults outside.old outside.new }
{
    effects_follow::<MachineRuns, D>();
    halts_follow::<MachineRuns, D>();
    let event = unplug_event(alloc, store, machine, device, outside.answers)?;
    finish(store, event, outside.disk, outside.text, outside.sink)
}
