ghost use Rattle.std.specs.Prelude.{◌≡◌, ◌<◌, IsTrue};
ghost use Rattle.parts_model.specs.Files.{is_name};
ghost use Rattle.guest_machine.specs.Recorded.{HasRoom};

mod devices;
mod legs;
mod parts;
mod rebuild;

use crate::same::assert_same;
use arn_base::{NoMemory, Record, Steps};
use devices::{Asked, ask, unplug_none};
use guest_devices::Told;
use guest_machine::{Leg, Machine, MachineError, RunState};
use legs::{chosen_leg, round_leg};
use parts::{Part, records};
use std::alloc::Global;
use std::marker::Brand;
use std::process::Abort;
use std::sync::ledger::{Blank, Ledger};
use std::test::Fail;

// Reads three bytes of the console, writes them to the console and exits.
pub(crate) static ECHO: [u8; 68] = [
    // ARNIMG01, entry and load address
    0x41, 0x52, 0x4e, 0x49, 0x4d, 0x47, 0x30, 0x31, 0x00, 0x00, 0x01, 0x00, 0x00, 0x00, 0x00, 0x00,
    0x00, 0x00, 0x01, 0x00, 0x00, 0x00, 0x00, 0x00,
    // five instructions, of which the last is the call read
    0x93, 0x08, 0xb0, 0x00, 0x13, 0x05, 0x00, 0x00, 0x93, 0x05, 0x01, 0xff, 0x13, 0x06, 0x30, 0x00,
    0x73, 0x00, 0x00, 0x00,
    // three, of which the last is the call write
    0x93, 0x08, 0xc0, 0x00, 0x13, 0x05, 0x10, 0x00, 0x73, 0x00, 0x00, 0x00,
    // three, of which the last is the call exit
    0x93, 0x08, 0x10, 0x00, 0x13, 0x05, 0x00, 0x00, 0x73, 0x00, 0x00, 0x00,
];

// Opens device 0, and reads two bytes of it again and again.
pub(crate) static ASKS: [u8; 68] = [
    // ARNIMG01, entry and load address
    0x41, 0x52, 0x4e, 0x49, 0x4d, 0x47, 0x30, 0x31, 0x00, 0x00, 0x01, 0x00, 0x00, 0x00, 0x00, 0x00,
    0x00, 0x00, 0x01, 0x00, 0x00, 0x00, 0x00, 0x00,
    // three instructions, of which the last is the call device
    0x93, 0x08, 0x50, 0x01, 0x13, 0x05, 0x00, 0x00, 0x73, 0x00, 0x00, 0x00,
    // five, of which the last is the call read
    0x93, 0x08, 0xb0, 0x00, 0x13, 0x05, 0x30, 0x00, 0x93, 0x05, 0x01, 0xff, 0x13, 0x06, 0x20, 0x00,
    0x73, 0x00, 0x00, 0x00,
    // a jump back to these, and two words that aren't reached
    0x6f, 0xf0, 0xdf, 0xfe, 0x00, 0x00, 0x00, 0x00, 0x00, 0x00, 0x00, 0x00,
];

fn slice_counted<L: Ledger>(
    machine: &mut Machine,
    out: &mut Vec<Record>,
    blank: Blank,
) -> Result<Option<u32>, NoMemory>
    requires name { blank.name ≡ L.name }
    requires parts { blank.parts ≡ L.parts }
    requires some { 0 < blank.parts }
    requires room { HasRoom machine.old 2 1000 }
{
    let mut steps = Steps::<L>::new(blank);
    if machine.can_go_on(1) {
        let mut devices = Told { entry: None };
        let ran = machine.run_slice(1, 1_000, &mut devices, out, &mut steps)?;
        Ok(Some(ran))
    } else {
        Ok(None)
    }
}

fn slice_with_room(machine: &mut Machine, out: &mut Vec<Record>) -> Result<Option<u32>, NoMemory>
    requires { HasRoom machine.old 2 1000 }
{
    slice_counted::<Brand>(machine, out, Blank::new(1))
}

fn assert_room(rt: &impl Abort, machine: &Machine)
    ensures { HasRoom machine.now 2 1000 }
{
    assert!(rt; machine.events() < 100);
    assert!(rt; machine.instructions() < 100);
}

// How many instructions a slice of process 1 ran, where it can go on.
fn slice(
    rt: &impl Abort,
    machine: &mut Machine,
    out: &mut Vec<Record>,
) -> Result<Option<u32>, NoMemory> {
    assert_room(rt, machine);
    slice_with_room(machine, out)
}

fn add_file(
    rt: &impl Abort,
    machine: &mut Machine,
    bytes: &[u8; 68],
    out: &mut Vec<Record>,
) -> Result<u64, MachineError> {
    assert_room(rt, machine);
    machine.add_file(b"p", bytes, out)
}

fn boot(
    rt: &impl Abort,
    machine: &mut Machine,
    name: &[u8],
    out: &mut Vec<Record>,
) -> Result<u64, MachineError>
    requires { IsTrue (is_name name.now) }
{
    assert_room(rt, machine);
    machine.boot(name, out)
}

fn type_abc(
    rt: &impl Abort,
    machine: &mut Machine,
    out: &mut Vec<Record>,
) -> Result<u64, MachineError> {
    assert_room(rt, machine);
    machine.type_in(b"abc", out)
}

// What is done with a machine, and what is to come of it.
#[derive(Clone, Copy)]
enum Step {
    // The file "p" is added.
    Adds(Result<u64, MachineError>),
    // The file "p" is added, with zeros.
    AddsZeros(Result<u64, MachineError>),
    // The file "p" is added, which asks a device.
    AddsAsking(Result<u64, MachineError>),
    // The file "p" is booted.
    Boots(Result<u64, MachineError>),
    // "abc" is typed.
    Types(Result<u64, MachineError>),
    // A slice of process 1 runs so many instructions, where it can go on.
    Runs(Option<u32>),
    // A leg runs with such a budget, whose slices process 1 gets by turns.
    Rounds(u64, Leg),
    // A leg runs whose slices a script chooses.
    Chosen(Leg),
    // Legs run with such budgets, with a device in slot 0, which is unplugged between them.
    Asks([u64; 2], Asked),
    // No slot holds a device, and one is to be unplugged.
    Unplugs(Result<u64, MachineError>),
    // The machine stands so.
    Stands(RunState),
    // It had so many events, and ran so many instructions.
    Counted(u64, u128),
    // It recorded so many events.
    Recorded(usize),
}

fn take(
    rt: &impl Abort,
    alloc: Global,
    machine: &mut Machine,
    out: &mut Vec<Record>,
    step: Step,
) -> Result<(), NoMemory> {
    match step {
        Step::Adds(wanted) => assert_same(rt, add_file(rt, machine, &ECHO, out), wanted),
        Step::AddsZeros(wanted) => assert_same(rt, add_file(rt, machine, &[0; 68], out), wanted),
        Step::AddsAsking(wanted) => assert_same(rt, add_file(rt, machine, &ASKS, out), wanted),
        Step::Boots(wanted) => assert_same(rt, boot(rt, machine, b"p", out), wanted),
        Step::Types(wanted) => assert_same(rt, type_abc(rt, machine, out), wanted),
        Step::Runs(wanted) => assert_same(rt, slice(rt, machine, out)?, wanted),
        Step::Rounds(budget, wanted) => {
            assert_same(rt, round_leg(rt, machine, budget, out)?, wanted)
        }
        Step::Chosen(wanted) => assert_same(rt, chosen_leg(rt, alloc, machine, out)?, wanted),
        Step::Asks(budgets, wanted) => {
            assert_same(rt, ask(rt, alloc, machine, budgets, out)?, wanted)
        }
        Step::Unplugs(wanted) => assert_same(rt, unplug_none(rt, alloc, machine, out), wanted),
        Step::Stands(wanted) => assert_same(rt, machine.run_state(), wanted),
        Step::Counted(events, instructions) => {
            assert_same(
                rt,
                (machine.events(), machine.instructions()),
                (events, instructions),
            )
        }
        Step::Recorded(wanted) => assert_same(rt, out.len(), wanted),
    }
    Ok(())
}

fn take_all(
    rt: &impl Abort,
    alloc: Global,
    machine: &mut Machine,
    out: &mut Vec<Record>,
    steps: &[Step],
) -> Result<(), NoMemory> {
    for step in steps {
        take(rt, alloc, machine, out, *step)?;
    }
    Ok(())
}

// A function that holds a machine makes one call: each path out of such a one lets the machine go,
// which makes its proof long.
fn run(
    rt: &impl Abort,
    alloc: Global,
    out: &mut Vec<Record>,
    steps: &[Step],
) -> Result<(), NoMemory> {
    let mut machine = Machine::new(alloc);
    take_all(rt, alloc, &mut machine, out, steps)
}

// What a fresh machine records at these steps.
fn recorded(rt: &impl Abort, alloc: Global, steps: &[Step]) -> Result<Vec<Record>, NoMemory> {
    let mut out = Vec::new(alloc);
    run(rt, alloc, &mut out, steps)?;
    Ok(out)
}

// It records just that.
fn check(rt: &impl Abort, alloc: Global, steps: &[Step], parts: &[Part]) -> Result<(), NoMemory> {
    assert!(rt; recorded(rt, alloc, steps)? == records(alloc, parts)?);
    Ok(())
}

#[test]
fn records_what_it_does(rt: HostRuntime) -> Result<(), Fail> {
    let steps = &[
        Step::Adds(Ok(0)),
        Step::Boots(Ok(1)),
        Step::Types(Ok(2)),
        Step::Runs(Some(5)),
        Step::Runs(Some(3)),
        Step::Runs(Some(3)),
        Step::Runs(None),
        Step::Stands(RunState::Done),
        Step::Counted(6, 11),
    ];
    check(&rt, rt.alloc(), steps, parts::WHOLE)?;
    Ok(())
}

#[test]
fn a_read_waits_for_what_is_typed(rt: HostRuntime) -> Result<(), Fail> {
    let steps = &[
        Step::Adds(Ok(0)),
        Step::Boots(Ok(1)),
        Step::Runs(Some(4)),
        Step::Stands(RunState::Stalled),
        Step::Types(Ok(2)),
        Step::Stands(RunState::CanGoOn),
        Step::Runs(Some(1)),
    ];
    let parts = &[
        Part::File,
        Part::Boot,
        Part::Slice(4),
        Part::Typed,
        Part::Slice(1),
        Part::Read,
    ];
    check(&rt, rt.alloc(), steps, parts)?;
    Ok(())
}

#[test]
fn refuses_what_comes_too_early_or_too_late(rt: HostRuntime) -> Result<(), Fail> {
    let steps = &[
        Step::Types(Err(MachineError::NotBooted)),
        Step::Boots(Err(MachineError::NoName)),
        Step::Stands(RunState::Done),
        Step::Recorded(0),
        Step::AddsZeros(Ok(0)),
        Step::Boots(Err(MachineError::NotImage)),
        Step::Adds(Err(MachineError::NoName)),
        Step::Recorded(1),
    ];
    recorded(&rt, rt.alloc(), steps)?;
    Ok(())
}
