// The program that asks a device, which a machine is lent in a slot.
ghost use Rattle.std.specs.Prelude.{◌≡◌, ◌<◌};

use super::{ASKS, Part, Step, add_file, boot, check};
use crate::same::assert_same;
use arn_base::{Bytes, Chooser, Device, Extra, NoMemory, Record, Reply, Steps};
use guest_devices::{RoundChooser, ScriptDevice, ScriptReply};
use guest_machine::{Leg, LegEnd, Machine, MachineError};
use std::alloc::Global;
use std::marker::Brand;
use std::process::Abort;
use std::sync::ledger::{Blank, Ledger};
use std::test::Fail;

// A device that fails once, gives three bytes once, and takes none.
fn script(alloc: Global) -> Result<ScriptDevice, NoMemory> {
    let mut replies = Vec::new(alloc);
    replies.push(ScriptReply::Fault)?;
    replies.push(ScriptReply::Bytes(Bytes::from_slice(alloc, &[1, 2, 3])?))?;
    ScriptDevice::new(alloc, replies, 0)
}

// What came of a leg with the device in slot 0, of unplugging it, and of a leg behind that.
#[derive(Clone, Copy, Debug, Drop, PartialEq, Eq)]
pub(crate) struct Asked {
    pub(crate) first: Leg,
    pub(crate) unplugged: Result<u64, MachineError>,
    pub(crate) second: Leg,
}

fn assert_few(rt: &impl Abort, machine: &Machine)
    ensures events { machine.now.kernel.events < 100 }
    ensures instructions { machine.now.instructions < 100 }
{
    assert!(rt; machine.events() < 100);
    assert!(rt; machine.instructions() < 100);
}

// Boxes are handed to the machine only where they are made.
fn ask_counted<L: Ledger>(
    rt: &impl Abort,
    alloc: Global,
    machine: &mut Machine,
    budgets: [u64; 2],
    out: &mut Vec<Record>,
    blank: Blank,
) -> Result<Asked, NoMemory>
    requires name { blank.name ≡ L.name }
    requires parts { blank.parts ≡ L.parts }
    requires some { 0 < blank.parts }
{
    let mut steps = Steps::<L>::new(blank);
    let mut chooser: Box<dyn Chooser> = Box::new(alloc, RoundChooser::new(1_000))?;
    let device: Box<dyn Device> = Box::new(alloc, script(alloc)?)?;
    let mut devices = vec![in alloc; Some(device)]?;
    assert_few(rt, machine);
    let first = machine.run_leg(budgets[0], &mut chooser, &mut devices, out, &mut steps)?;
    assert_few(rt, machine);
    let unplugged = machine.unplug(0, &mut devices, out);
    assert_few(rt, machine);
    let second = machine.run_leg(budgets[1], &mut chooser, &mut devices, out, &mut steps)?;
    Ok(Asked {
        first,
        unplugged,
        second,
    })
}

pub(crate) fn ask(
    rt: &impl Abort,
    alloc: Global,
    machine: &mut Machine,
    budgets: [u64; 2],
    out: &mut Vec<Record>,
) -> Result<Asked, NoMemory> {
    ask_counted::<Brand>(rt, alloc, machine, budgets, out, Blank::new(1))
}

// What the device in slot 0 gives next to a read of two bytes.
fn next_reply(devices: &mut [Option<Box<dyn Device>>]) -> Option<Reply> {
    match devices.first_mut() {
        Some(Some(device)) => Some(device.ask(&mut [0; 2])),
        _ => None,
    }
}

// What came of a leg that may lack memory, and what its device gives next.
#[derive(Drop)]
struct Left {
    leg: Result<Leg, NoMemory>,
    next: Option<Reply>,
}

// A leg that has instructions for both replies of the script.
fn leave_counted<L: Ledger>(
    rt: &impl Abort,
    alloc: Global,
    machine: &mut Machine,
    out: &mut Vec<Record>,
    blank: Blank,
) -> Result<Left, NoMemory>
    requires name { blank.name ≡ L.name }
    requires parts { blank.parts ≡ L.parts }
    requires some { 0 < blank.parts }
{
    let mut steps = Steps::<L>::new(blank);
    let mut chooser: Box<dyn Chooser> = Box::new(alloc, RoundChooser::new(1_000))?;
    let device: Box<dyn Device> = Box::new(alloc, script(alloc)?)?;
    let mut devices = vec![in alloc; Some(device)]?;
    assert_few(rt, machine);
    let leg = machine.run_leg(14, &mut chooser, &mut devices, out, &mut steps);
    let next = next_reply(&mut devices);
    Ok(Left { leg, next })
}

fn leave(
    rt: &impl Abort,
    alloc: Global,
    machine: &mut Machine,
    out: &mut Vec<Record>,
) -> Result<Left, NoMemory> {
    leave_counted::<Brand>(rt, alloc, machine, out, Blank::new(1))
}

fn boot_and_leave(
    rt: &impl Abort,
    alloc: Global,
    machine: &mut Machine,
    out: &mut Vec<Record>,
) -> Result<Left, MachineError> {
    add_file(rt, machine, &ASKS, out)?;
    boot(rt, machine, b"p", out)?;
    Ok(leave(rt, alloc, machine, out)?)
}

fn leave_fresh(
    rt: &impl Abort,
    alloc: Global,
    out: &mut Vec<Record>,
) -> Result<Left, MachineError> {
    let mut machine = Machine::new(alloc);
    boot_and_leave(rt, alloc, &mut machine, out)
}

// A read of the device that failed, or that was given bytes.
fn is_read(record: &Record) -> bool {
    match record {
        Record::Call {
            number: 11,
            result,
            extra: Extra::Fault,
            ..
        } => *result == u64::MAX - 4,
        Record::Call {
            number: 11,
            extra: Extra::Reply { device: 0, .. },
            ..
        } => true,
        _ => false,
    }
}

fn reads(out: &[Record]) -> usize {
    out.iter().filter(|record| is_read(record)).count()
}

// What the script gives behind so many replies.
const fn reply_behind(gone: usize) -> Option<Reply> {
    match gone {
        0 => Some(Reply::Fault),
        1 => Some(Reply::Gave(2)),
        2 => Some(Reply::Gave(0)),
        _ => None,
    }
}

// Device 0 is unplugged where no slot holds one.
pub(crate) fn unplug_none(
    rt: &impl Abort,
    alloc: Global,
    machine: &mut Machine,
    out: &mut Vec<Record>,
) -> Result<u64, MachineError> {
    let mut devices: Vec<Option<Box<dyn Device>>> = Vec::new(alloc);
    assert_few(rt, machine);
    machine.unplug(0, &mut devices, out)
}

// A leg that ends with its budget.
const fn spent(ran: u64) -> Leg {
    Leg {
        ran,
        end: LegEnd::Budget,
    }
}

// The program opens the device and reads it twice, and once more behind the unplugging.
pub(crate) const ASKED: &[Part] = &[
    Part::AskingFile,
    Part::AskingBoot,
    Part::Slice(3),
    Part::Opened,
    Part::Slice(5),
    Part::Failed,
    Part::Slice(6),
    Part::Replied([1, 2]),
    Part::Unplug,
    Part::Slice(6),
    Part::Absent,
];

#[test]
fn a_device_is_asked_until_it_is_unplugged(rt: HostRuntime) -> Result<(), Fail> {
    let asked = Asked {
        first: spent(14),
        unplugged: Ok(5),
        second: spent(6),
    };
    let steps = &[
        Step::AddsAsking(Ok(0)),
        Step::Unplugs(Err(MachineError::NotBooted)),
        Step::Boots(Ok(1)),
        Step::Unplugs(Err(MachineError::NoDevice)),
        Step::Asks([14, 6], asked),
        Step::Unplugs(Err(MachineError::NoDevice)),
        Step::Counted(7, 20),
    ];
    check(&rt, rt.alloc(), steps, ASKED)?;
    Ok(())
}

// Where memory runs out, too: `checks/growth` refuses each growth of this test in turn.
#[test]
fn a_reply_that_is_gone_is_recorded(rt: HostRuntime) -> Result<(), Fail> {
    let mut out = Vec::new(rt.alloc());
    let left = leave_fresh(&rt, rt.alloc(), &mut out)?;
    let reads = reads(&out);
    assert_same(&rt, left.next, reply_behind(reads));
    assert_same(&rt, (left.leg?, reads), (spent(14), 2));
    Ok(())
}
