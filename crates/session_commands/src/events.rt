// What becomes an event.
ghost use Rattle.std.specs.Prelude.{◌≡◌, ◌<◌, ◌≤◌, ◌^◌, ◌++◌, [], ◌∷◌, None, All, length, IfOk, IfErr, IsTrue, OnOk};
ghost use Rattle.arn_base.specs.Faults.{NeverFalls};
ghost use Rattle.parts_model.specs.declared.limits.TheConstants.{MOST_FILE_BYTES};
ghost use Rattle.parts_model.specs.Files.{is_name};
ghost use Rattle.arn_model.specs.Run as input;
ghost use Rattle.log_model.specs.Records.{IsRun};
ghost use Rattle.log_store.specs.Stops.{GoesOn};
ghost use Rattle.result_log.specs.Spelling.{HasSpelling};
ghost use Rattle.arn_lines.specs.Texts.{event_text};
ghost use Rattle.guest_machine.specs.declared.errors.MachineError.TheVariants as fails;
ghost use Rattle.session_effects.specs.Carrying.{StopsBetween};
ghost use Rattle.session_effects.specs.Effects.{Commits, Prints};
ghost use Rattle.session_effects.specs.Outside.{GoesOnOutside, IsCauseOutside};
ghost use Rattle.session_effects.specs.Standing.{Carries, IsCause, IsOpen};
ghost use Rattle.session_commands.specs.Answering.{HaltsIn};
ghost use Rattle.session_commands.specs.Events.{IncomingFits, IsEvent, event_effects, incoming_refusal, input_of};
ghost use Rattle.session_commands.specs.Refusals.{boot_refusal, bring_refusal, early_refusal};
ghost use Rattle.session_runs.specs.Ready.{IsReady, machine_of};
ghost use Rattle.session_runs.specs.Standing.{HaltsBehind, Proceeds, standing};
ghost use Rattle.session_runs.specs.Touches.{answering};
ghost use Rattle.session_runs.specs.Turns.{does, finished};

use crate::printing::print_event;
use arn_base::{Chooser, Disk, NoMemory, Record, Sink};
use arn_model::runs_sound;
use guest_devices::Plugs;
use guest_machine::{Machine, MachineError};
use log_store::Store;
use replay_laws::records_tell_runs;
use session_effects::{Halt, Outside, commit, effects_follow, halts_follow};
use session_runs::{MachineRuns, count_records, history_laws};
use std::alloc::Global;
use std::sync::ledger::Ledger;

/// What is given to the machine from outside.
#[derive(Clone, Copy)]
pub enum Incoming<'a> {
    /// A boot file.
    File { name: &'a [u8], bytes: &'a [u8] },
    /// The start of the machine from the image in a file.
    Boot { name: &'a [u8] },
    /// Bytes for the console's queue.
    Typed { bytes: &'a [u8] },
}

/// An event that isn't committed yet: its number, and its records.
#[derive(Drop)]
pub struct Event {
    pub number: u64,
    pub entries: Vec<Record>,
}

/// Memory ran out: nothing else keeps from becoming an event what isn't refused.
pub fn no_memory(error: MachineError) -> NoMemory
    requires { error ≡ fails.NoMemory }
{
    match error {
        MachineError::NoMemory => NoMemory,
        _ => unreachable!(),
    }
}

// Adds a boot file.
fn file_event(
    alloc: Global,
    store: &Store,
    machine: &mut Machine,
    name: &[u8],
    bytes: &[u8],
) -> Result<Event, NoMemory>
    requires ready { IsReady machine.old store.now.entries }
    requires name { IsTrue (is_name name.now) }
    requires bytes { length bytes.now ≤ MOST_FILE_BYTES }
    requires accepted { bring_refusal store.now.entries name.now ≡ None }
    ensures ready { IfOk result
        (λ event. IsReady machine.new (store.now.entries ++ event.entries.items)) }
    ensures made { IfOk result
        (IsEvent (machine_of store.now.entries) (input.File name.now bytes.now)) }
    ensures spelled { IfOk result (λ event. All HasSpelling event.entries.items) }
{
    count_records(store);
    history_laws();
    records_tell_runs();
    runs_sound();
    let mut entries = Vec::new(alloc);
    match machine.add_file(name, bytes, &mut entries) {
        Ok(number) => Ok(Event { number, entries }),
        Err(error) => Err(no_memory(error)),
    }
}

// Boots the machine.
fn boot_event(
    alloc: Global,
    store: &Store,
    machine: &mut Machine,
    name: &[u8],
) -> Result<Event, NoMemory>
    requires ready { IsReady machine.old store.now.entries }
    requires name { IsTrue (is_name name.now) }
    requires accepted { boot_refusal store.now.entries name.now ≡ None }
    ensures ready { IfOk result
        (λ event. IsReady machine.new (store.now.entries ++ event.entries.items)) }
    ensures made { IfOk result (IsEvent (machine_of store.now.entries) (input.Boot name.now)) }
    ensures spelled { IfOk result (λ event. All HasSpelling event.entries.items) }
{
    count_records(store);
    history_laws();
    records_tell_runs();
    runs_sound();
    let mut entries = Vec::new(alloc);
    match machine.boot(name, &mut entries) {
        Ok(number) => Ok(Event { number, entries }),
        Err(error) => Err(no_memory(error)),
    }
}

// Types a piece.
fn typed_event(
    alloc: Global,
    store: &Store,
    machine: &mut Machine,
    bytes: &[u8],
) -> Result<Event, NoMemory>
    requires ready { IsReady machine.old store.now.entries }
    requires bytes { length bytes.now < 2 ^ 32 }
    requires accepted { early_refusal store.now.entries ≡ None }
    ensures ready { IfOk result
        (λ event. IsReady machine.new (store.now.entries ++ event.entries.items)) }
    ensures made { IfOk result (IsEvent (machine_of store.now.entries) (input.Typed bytes.now)) }
    ensures spelled { IfOk result (λ event. All HasSpelling event.entries.items) }
{
    count_records(store);
    history_laws();
    records_tell_runs();
    runs_sound();
    let mut entries = Vec::new(alloc);
    match machine.type_in(bytes, &mut entries) {
        Ok(number) => Ok(Event { number, entries }),
        Err(error) => Err(no_memory(error)),
    }
}

/// Makes an event of what is given, and commits nothing of it.
pub fn make_event(
    alloc: Global,
    store: &Store,
    machine: &mut Machine,
    incoming: &Incoming<'_>,
) -> Result<Event, NoMemory>
    requires ready { IsReady machine.old store.now.entries }
    requires fits { IncomingFits incoming.now }
    requires accepted { incoming_refusal store.now.entries incoming.now ≡ None }
    ensures ready { IfOk result
        (λ event. IsReady machine.new (store.now.entries ++ event.entries.items)) }
    ensures made { IfOk result (IsEvent (machine_of store.now.entries) (input_of incoming.now)) }
    ensures spelled { IfOk result (λ event. All HasSpelling event.entries.items) }
{
    match *incoming {
        Incoming::File { name, bytes } => file_event(alloc, store, machine, name, bytes),
        Incoming::Boot { name } => boot_event(alloc, store, machine, name),
        Incoming::Typed { bytes } => typed_event(alloc, store, machine, bytes),
    }
}

/// Commits the records of an event, and then prints its number.
pub fn finish<D: Disk, K: Sink>(
    store: &mut Store,
    event: Event,
    disk: &mut D,
    text: &mut String,
    sink: &mut K,
) -> Result<(), Halt>
    requires open { IsOpen D.Disk store.old disk.old }
    requires spelled { All HasSpelling event.entries.items }
    requires run { IsRun store.old.entries → IsRun (store.old.entries ++ event.entries.items) }
    ensures carries { OnOk result (
        Carries IsRun D.Disk disk.old disk.new
        store.old store.new (K.holds sink.old) (K.holds sink.new)
        (Commits event.entries.items ∷ Prints (event_text event.number) ∷ [])) }
    ensures stops { IfErr result (λ halt. HaltsIn
        (StopsBetween IsRun D.Disk disk.old disk.new
        store.old.entries (K.holds sink.old) (K.holds sink.new) halt)
        (Commits event.entries.items ∷ Prints (event_text event.number) ∷ [])) }
    ensures cause { IfErr result (λ halt. IsCause halt
        (D.faults disk.old) (D.faults disk.new) (K.faults sink.old) (K.faults sink.new)) }
    ensures later { GoesOn D.image D.faults disk.old disk.new }
    ensures faults { NeverFalls (K.faults sink.old) (K.faults sink.new) }
{
    effects_follow::<MachineRuns, D>();
    halts_follow::<MachineRuns, D>();
    commit::<MachineRuns, D>(store, disk, event.entries)?;
    print_event(text, event.number, sink)
}

/// Makes an event of what is given, commits its records, and then prints its number.
pub fn add_event<C: Chooser, A: Plugs, D: Disk, K: Sink, L: Ledger>(
    alloc: Global,
    store: &mut Store,
    machine: &mut Machine,
    incoming: &Incoming<'_>,
    outside: &mut Outside<C, A, D, K, L>,
) -> Result<(), Halt>
    requires open { IsOpen D.Disk store.old outside.old.disk.now }
    requires ready { IsReady machine.old store.old.entries }
    requires fits { IncomingFits incoming.now }
    requires accepted { incoming_refusal store.old.entries incoming.now ≡ None }
    ensures ready { OnOk result (IsReady machine.new store.new.entries) }
    ensures advances { OnOk result (
        Proceeds D.Disk (answering A.answers A.unplugs A.filled)
        (does (event_effects (machine_of store.old.entries) (input_of incoming.now)) []) finished 0
        (standing C.choices K.holds store.old outside.old)
        (standing C.choices K.holds store.new outside.new)) }
    ensures stops { IfErr result (λ halt.
        HaltsBehind D.Disk (answering A.answers A.unplugs A.filled) halt
        (does (event_effects (machine_of store.old.entries) (input_of incoming.now)) []) 0
        (standing C.choices K.holds store.old outside.old)
        (standing C.choices K.holds store.new outside.new)) }
    ensures cause { IfErr result (λ halt.
        IsCauseOutside D.Disk K.faults halt outside.old outside.new) }
    ensures goes_on { GoesOnOutside D.Disk K.faults outside.old outside.new }
{
    effects_follow::<MachineRuns, D>();
    halts_follow::<MachineRuns, D>();
    let event = make_event(alloc, store, machine, incoming)?;
    finish(store, event, outside.disk, outside.text, outside.sink)
}
