// The inputs that records name, run again.
ghost use Rattle.std.specs.Prelude.{◌≡◌, ◌≢◌, ◌+◌, ◌≤◌, ◌<◌, ◌^◌, ◌∷◌, [], All, IfSome, OnOk, count_by, length};
ghost use Rattle.arn_model.specs.Run as input;
ghost use Rattle.guest_devices.specs.Told.{reply_of};
ghost use Rattle.log_model.specs.Records.{reply_behind};
ghost use Rattle.parts_model.specs.declared.limits.TheConstants.{MOST_SLICE};
ghost use Rattle.result_log.specs.Spelling.{HasSpelling, IsCounted, IsName};
ghost use Rattle.guest_machine.specs.Again.{named_first};
ghost use Rattle.guest_machine.specs.Again.{is_slice};
ghost use Rattle.guest_machine.specs.Recorded.{HasRoom, OfEach, Runs};

use crate::errors::MachineError;
use crate::machine::Machine;
use arn_base::{NoMemory, Record, Steps};
use arn_model::{requests_bounded, turns_have_parts};
use guest_devices::{Told, told_counts_as_named};
use parts_model::limits::MOST_FILE_BYTES;
use std::sync::ledger::Ledger;

// Runs the input that a record names, if it names one. An input that is impossible does nothing.
// The input's records go behind `out`.
pub fn run_named<L: Ledger>(
    machine: &mut Machine,
    entry: &Record,
    behind: &[Record],
    out: &mut Vec<Record>,
    steps: &mut Steps<L>,
) -> Result<(), NoMemory>
    requires entry { HasSpelling entry.now }
    requires room { HasRoom machine.old 2 MOST_SLICE }
    ensures runs { OnOk result (OfEach machine.old.kernel (λ m. Runs m
        (named_first entry.now behind.now) machine.old machine.new out.old.items out.new.items)) }
    ensures spelled { OnOk result
        (All HasSpelling out.old.items → All HasSpelling out.new.items) }
    ensures steps { OfEach machine.old.kernel (λ m. steps.new ≤ steps.old
        + input.instructions_in (input.steps_from m (named_first entry.now behind.now))
        + count_by is_slice (entry.now ∷ [])) }
{
    match entry {
        Record::File { name, bytes } => add_file(machine, name.as_slice(), bytes.as_slice(), out),
        Record::Boot { name, .. } => boot(machine, name.as_slice(), out),
        Record::Typed { bytes } => type_in(machine, bytes.as_slice(), out),
        Record::Unplug { device } => unplug(machine, *device, out),
        Record::Slice { pid, ran } => run_slice(machine, *pid, *ran, behind, out, steps),
        Record::Signal { .. } | Record::Call { .. } | Record::End { .. } => Ok(()),
    }
}

// Adds a file, if it can be added.
fn add_file(
    machine: &mut Machine,
    name: &[u8],
    bytes: &[u8],
    out: &mut Vec<Record>,
) -> Result<(), NoMemory>
    requires name { IsName name.now }
    requires room { HasRoom machine.old 2 MOST_SLICE }
    ensures runs { OnOk result (OfEach machine.old.kernel (λ m. Runs m
        (input.File name.now bytes.now ∷ []) machine.old machine.new out.old.items out.new.items)) }
    ensures spelled { OnOk result
        (All HasSpelling out.old.items → All HasSpelling out.new.items) }
{
    if bytes.len() as u64 > MOST_FILE_BYTES {
        return Ok(());
    }
    match machine.add_file(name, bytes, out) {
        Ok(_) => Ok(()),
        Err(error) => unless_no_memory(error),
    }
}

// Boots the machine, if it can be booted.
fn boot(machine: &mut Machine, name: &[u8], out: &mut Vec<Record>) -> Result<(), NoMemory>
    requires name { IsName name.now }
    requires room { HasRoom machine.old 2 MOST_SLICE }
    ensures runs { OnOk result (OfEach machine.old.kernel (λ m. Runs m
        (input.Boot name.now ∷ []) machine.old machine.new out.old.items out.new.items)) }
    ensures spelled { OnOk result
        (All HasSpelling out.old.items → All HasSpelling out.new.items) }
{
    match machine.boot(name, out) {
        Ok(_) => Ok(()),
        Err(error) => unless_no_memory(error),
    }
}

// Types a piece, if the machine takes it.
fn type_in(machine: &mut Machine, bytes: &[u8], out: &mut Vec<Record>) -> Result<(), NoMemory>
    requires bytes { IsCounted bytes.now }
    requires room { HasRoom machine.old 2 MOST_SLICE }
    ensures runs { OnOk result (OfEach machine.old.kernel (λ m. Runs m
        (input.Typed bytes.now ∷ []) machine.old machine.new out.old.items out.new.items)) }
    ensures spelled { OnOk result
        (All HasSpelling out.old.items → All HasSpelling out.new.items) }
{
    match machine.type_in(bytes, out) {
        Ok(_) => Ok(()),
        Err(error) => unless_no_memory(error),
    }
}

// Unplugs a device, if it can be unplugged.
fn unplug(machine: &mut Machine, device: u32, out: &mut Vec<Record>) -> Result<(), NoMemory>
    requires room { HasRoom machine.old 2 MOST_SLICE }
    ensures runs { OnOk result (OfEach machine.old.kernel (λ m. Runs m
        (input.Unplug device ∷ []) machine.old machine.new out.old.items out.new.items)) }
    ensures spelled { OnOk result
        (All HasSpelling out.old.items → All HasSpelling out.new.items) }
{
    match machine.unplug_number(device, out) {
        Ok(_) => Ok(()),
        Err(error) => unless_no_memory(error),
    }
}

// Runs a slice, if it is possible. Devices answer as the call behind it says.
fn run_slice<L: Ledger>(
    machine: &mut Machine,
    pid: u32,
    count: u32,
    behind: &[Record],
    out: &mut Vec<Record>,
    steps: &mut Steps<L>,
) -> Result<(), NoMemory>
    requires room { HasRoom machine.old 2 MOST_SLICE }
    ensures runs { OnOk result (OfEach machine.old.kernel (λ m. Runs m
        (input.Slice pid count (reply_behind behind.now) ∷ [])
        machine.old machine.new out.old.items out.new.items)) }
    ensures spelled { OnOk result
        (All HasSpelling out.old.items → All HasSpelling out.new.items) }
    ensures steps { OfEach machine.old.kernel (λ m. steps.new ≤ steps.old
        + input.instructions_in (input.input_steps m
        (input.Slice pid count (reply_behind behind.now))) + 1) }
{
    requests_bounded();
    turns_have_parts();
    told_counts_as_named();
    if !machine.can_take(pid, count) {
        return Ok(());
    }
    let mut told = Told {
        entry: call_in(behind),
    };
    match machine.take_slice(pid, count, &mut told, out, steps) {
        Ok(_) => Ok(()),
        Err(NoMemory) => Err(NoMemory),
    }
}

// The record of the call with which a slice ended that stands in front of these, if it ended with one.
fn call_in(behind: &[Record]) -> Option<&Record>
    ensures { reply_of result ≡ reply_behind behind.now }
{
    for entry in behind {
        match entry {
            Record::Signal { .. } => {}
            Record::Call { .. } => return Some(entry),
            _ => return None,
        }
    }
    None
}

// What was refused did nothing.
fn unless_no_memory(error: MachineError) -> Result<(), NoMemory>
    ensures { OnOk result (error ≢ MachineError.NoMemory) }
{
    match error {
        MachineError::NoMemory => Err(NoMemory),
        MachineError::Booted
        | MachineError::NotBooted
        | MachineError::NoName
        | MachineError::NotImage
        | MachineError::NoDevice => Ok(()),
    }
}
