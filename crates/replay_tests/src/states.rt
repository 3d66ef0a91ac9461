// The state of a process as the machine has it, and as a replay of its records gives it.
ghost use Rattle.std.specs.Prelude.{◌≡◌, ◌<◌};
ghost use Rattle.guest_bodies.specs.Shown.{IsLive};

use crate::fixtures::{call, give, group_at, image, slice, started, typed, with};
use crate::same::assert_same;
use arn_base::{
    Block, Blocks, Cpu, Extra, Member, Members, NoMemory, Record, State, Steps, Windows,
};
use guest_calls::Kernel;
use parts_model::calls::{FORK, READ, SHM};
use std::alloc::Global;
use std::marker::Brand;
use std::process::Abort;
use std::sync::ledger::{Blank, Ledger};
use std::test::Fail;

// Reads three bytes of the console, writes them to it and exits.
const ECHO: [u8; 44] = [
    0x93, 0x08, 0xb0, 0x00, 0x13, 0x05, 0x00, 0x00, 0x93, 0x05, 0x01, 0xff, 0x13, 0x06, 0x30, 0x00,
    0x73, 0x00, 0x00, 0x00, 0x93, 0x08, 0xc0, 0x00, 0x13, 0x05, 0x10, 0x00, 0x73, 0x00, 0x00, 0x00,
    0x93, 0x08, 0x10, 0x00, 0x13, 0x05, 0x00, 0x00, 0x73, 0x00, 0x00, 0x00,
];

// addi x17, x0, 17 and ecall, which asks for a segment; addi x17, x0, 2 and ecall, which forks; and addi x5, x0, 1,
// slli x5, x5, 31 and sb x17, 0(x5), which writes to the segment.
const SHARES: [u8; 28] = [
    0x93, 0x08, 0x10, 0x01, 0x73, 0x00, 0x00, 0x00, 0x93, 0x08, 0x20, 0x00, 0x73, 0x00, 0x00, 0x00,
    0x93, 0x02, 0x10, 0x00, 0x93, 0x92, 0xf2, 0x01, 0x23, 0x80, 0x12, 0x01,
];

// Three bytes are typed, and the program runs up to the call that reads them.
fn echo_reads(alloc: Global) -> Result<Vec<Record>, NoMemory> {
    let entries = started(alloc, &ECHO)?;
    let entries = with(entries, typed(alloc, b"abc")?)?;
    let entries = with(entries, slice(1, 5))?;
    let given = give(alloc, b"abc", 2)?;
    with(entries, call(1, READ, 3, Extra::Give(given)))
}

// Process 1 gets a segment, which its child shares, and writes to it.
fn segment_is_shared(alloc: Global) -> Result<Vec<Record>, NoMemory> {
    let entries = started(alloc, &SHARES)?;
    let entries = with(entries, slice(1, 2))?;
    let entries = with(entries, call(1, SHM, 0, Extra::Nothing))?;
    let entries = with(entries, slice(1, 2))?;
    let entries = with(entries, call(1, FORK, 2, Extra::Nothing))?;
    with(entries, slice(1, 3))
}

fn step_counted<L: Ledger>(kernel: &mut Kernel, blank: Blank)
    requires live { IsLive kernel.old.guests 1 }
    requires name { blank.name ≡ L.name }
    requires parts { blank.parts ≡ L.parts }
    requires some { 0 < blank.parts }
{
    let mut steps = Steps::<L>::new(blank);
    kernel.step(1, &mut steps);
}

fn step(kernel: &mut Kernel)
    requires { IsLive kernel.old.guests 1 }
{
    step_counted::<Brand>(kernel, Blank::new(1));
}

fn state_of_one(kernel: &Kernel) -> Result<State, NoMemory>
    requires { IsLive kernel.now.guests 1 }
{
    kernel.state_of(&[1])
}

fn add_file(rt: &impl Abort, kernel: &mut Kernel, bytes: &[u8]) {
    assert!(rt; !kernel.is_booted());
    let event = kernel.events();
    assert!(rt; event < 100);
    assert!(rt; kernel.add_file(b"p", bytes, event).is_ok());
}

fn boot(rt: &impl Abort, kernel: &mut Kernel) {
    assert!(rt; !kernel.is_booted());
    assert!(rt; kernel.events() < 100);
    assert!(rt; kernel.boot(b"p").is_ok());
}

// The machine starts the program. Nothing fails here that would drop the machine: each place that does so makes the
// proof a good deal longer.
fn booted(rt: &impl Abort, alloc: Global) -> Result<Kernel, NoMemory> {
    let image = image(alloc, &ECHO)?;
    let mut kernel = Kernel::new(alloc);
    add_file(rt, &mut kernel, image.as_slice());
    boot(rt, &mut kernel);
    Ok(kernel)
}

fn live_step(rt: &impl Abort, mut kernel: Kernel) -> Kernel {
    assert!(rt; kernel.is_live(1));
    step(&mut kernel);
    kernel
}

fn live_state(rt: &impl Abort, kernel: &Kernel) -> Result<State, NoMemory> {
    assert!(rt; kernel.is_live(1));
    state_of_one(kernel)
}

// The machine starts the program, and runs four instructions.
fn run(rt: &impl Abort, alloc: Global) -> Result<State, NoMemory> {
    let mut kernel = booted(rt, alloc)?;
    for _ in 0..4 {
        kernel = live_step(rt, kernel);
    }
    live_state(rt, &kernel)
}

// A memory with these bytes alone, at its begin.
fn beginning_with(alloc: Global, begin: &[u8]) -> Result<Blocks, NoMemory> {
    let mut bytes = [0; 256];
    let len = begin.len().min(256);
    bytes[..len].copy_from_slice(&begin[..len]);
    let mut blocks = Blocks::new(alloc);
    blocks.push(Block { number: 0, bytes })?;
    Ok(blocks)
}

// Behind four instructions, worked out by hand.
fn echo_at_its_call(alloc: Global) -> Result<State, NoMemory> {
    let mut x = [0; 31];
    x[1] = 0x5_0000;
    x[10] = 0x4_fff0;
    x[11] = 3;
    x[16] = 11;
    let mut members = Members::new(alloc);
    members.push(Member {
        pid: 1,
        cpu: Cpu { x, pc: 0x1_0010 },
        slot: None,
        window: 0,
        segment: None,
    })?;
    let mut windows = Windows::new(alloc);
    windows.push(beginning_with(alloc, &ECHO)?)?;
    Ok(State {
        members,
        windows,
        segments: Windows::new(alloc),
    })
}

// The state of group 1 at a moment.
fn state_at(rt: &impl Abort, entries: Vec<Record>, until: u64) -> Result<State, Fail> {
    Ok(group_at(rt, &entries, 1, until)?.state()?)
}

fn assert_echo_at_its_call(rt: &impl Abort, alloc: Global, found: State) -> Result<(), NoMemory> {
    assert_same(rt, found, echo_at_its_call(alloc)?);
    Ok(())
}

#[test]
fn a_replay_gives_the_state_of_the_machine(rt: HostRuntime) -> Result<(), Fail> {
    let replayed = state_at(&rt, echo_reads(rt.alloc())?, 4)?;
    assert_echo_at_its_call(&rt, rt.alloc(), replayed)?;
    assert_echo_at_its_call(&rt, rt.alloc(), run(&rt, rt.alloc())?)?;
    Ok(())
}

// Parent and child, worked out by hand.
fn two_members(alloc: Global) -> Result<Members, NoMemory> {
    let mut x = [0; 31];
    x[1] = 0x5_0000;
    x[16] = 2;
    let child = Member {
        pid: 2,
        cpu: Cpu { x, pc: 0x1_0010 },
        slot: None,
        window: 1,
        segment: Some(0),
    };
    x[4] = 0x8000_0000;
    x[9] = 2;
    let parent = Member {
        pid: 1,
        cpu: Cpu { x, pc: 0x1_001c },
        slot: None,
        window: 0,
        segment: Some(0),
    };
    let mut members = Members::new(alloc);
    members.push(parent)?;
    members.push(child)?;
    Ok(members)
}

// They and their segment.
fn parent_and_child(alloc: Global) -> Result<State, NoMemory> {
    let members = two_members(alloc)?;
    let mut windows = Windows::new(alloc);
    windows.push(beginning_with(alloc, &SHARES)?)?;
    windows.push(beginning_with(alloc, &SHARES)?)?;
    let mut segments = Windows::new(alloc);
    segments.push(beginning_with(alloc, &[2])?)?;
    Ok(State {
        members,
        windows,
        segments,
    })
}

#[test]
fn a_shared_segment_is_told_once(rt: HostRuntime) -> Result<(), Fail> {
    let replayed = state_at(&rt, segment_is_shared(rt.alloc())?, 7)?;
    assert_same(&rt, replayed, parent_and_child(rt.alloc())?);
    Ok(())
}
