ghost use Rattle.std.specs.Prelude.{◌≡◌, ◌<◌, IfOk, IsNone, IsTrue};
ghost use Rattle.parts_model.specs.Image.{is_image};
ghost use Rattle.parts_model.specs.Numbered.{nth};
ghost use Rattle.guest_bodies.specs.Shown.{IsFresh, IsLive};

use crate::same::assert_same;
use acts_model::Observer;
use arn_base::{Block, Blocks, Cpu, NoMemory, Record, Start, Steps};
use guest_bodies::{Bodies, Stood};
use rv64_core::{Outcome, Prospect};
use rv64_isa::Instr;
use std::alloc::Global;
use std::marker::Brand;
use std::process::Abort;
use std::sync::ledger::{Blank, Ledger};
use std::test::Fail;

// addi x5, x0, 7, and ecall
const PROGRAM: [u8; 8] = [0x93, 0x02, 0x70, 0x00, 0x73, 0x00, 0x00, 0x00];

// addi x5, x0, 7, then auipc x6, 0, then sb x5, 0x1fc(x6), and ecall
const STORE: [u8; 16] = [
    0x93, 0x02, 0x70, 0x00, 0x17, 0x03, 0x00, 0x00, 0x23, 0x0e, 0x53, 0x1e, 0x73, 0x00, 0x00, 0x00,
];

// Entry 0x2_0004, load address 0x2_0000, and five bytes.
const IMAGE: &[u8; 29] = b"ARNIMG01\x04\0\x02\0\0\0\0\0\0\0\x02\0\0\0\0\0ABCDE";

fn image() -> &'static [u8]
    ensures { IsTrue (is_image result.now) }
{
    IMAGE
}

// Process 1, which stands at the program in the first block of its window.
fn begun(alloc: Global) -> Result<Bodies, NoMemory>
    ensures live { IfOk result (λ b. IsLive b 1) }
    ensures fresh { IfOk result (λ b. IsFresh b 1) }
    ensures alone { IfOk result (λ b. IsNone (nth b 2)) }
{
    let mut bytes = [0; 256];
    bytes[..8].copy_from_slice(&PROGRAM);
    begun_at(alloc, bytes)
}

// Process 1, which stands at the first of these bytes.
fn begun_at(alloc: Global, bytes: [u8; 256]) -> Result<Bodies, NoMemory>
    ensures live { IfOk result (λ b. IsLive b 1) }
    ensures fresh { IfOk result (λ b. IsFresh b 1) }
    ensures alone { IfOk result (λ b. IsNone (nth b 2)) }
{
    let mut blocks = Blocks::new(alloc);
    blocks.push(Block { number: 0, bytes })?;
    let cpu = Cpu {
        x: [0; 31],
        pc: 0x1_0000,
    };
    let start = Start {
        cpu,
        slot: None,
        blocks,
    };
    let mut bodies = Bodies::new(alloc);
    bodies.begin(1, 0, &start)?;
    Ok(bodies)
}

// The same process, of which nothing is known.
fn one(alloc: Global) -> Result<Bodies, NoMemory> {
    begun(alloc)
}

// It holds a fresh segment.
fn with_segment(alloc: Global) -> Result<Bodies, NoMemory> {
    let mut bodies = begun(alloc)?;
    bodies.shares(1, 1)?;
    Ok(bodies)
}

// It starts anew from the image, with its first five bytes as its argument block.
fn started(alloc: Global) -> Result<Bodies, NoMemory> {
    let mut bodies = begun(alloc)?;
    bodies.starts(1, 1, image(), 0x1_0000, 5)?;
    Ok(bodies)
}

// It has a child in its own group.
fn forked(alloc: Global) -> Result<Bodies, NoMemory> {
    let mut bodies = begun(alloc)?;
    bodies.forks(1, 2, 1)?;
    Ok(bodies)
}

// It stands before a store, and has a child.
fn storing(alloc: Global) -> Result<Bodies, NoMemory> {
    let mut bytes = [0; 256];
    bytes[..16].copy_from_slice(&STORE);
    let mut bodies = begun_at(alloc, bytes)?;
    bodies.forks(1, 2, 1)?;
    Ok(bodies)
}

// It has a child that starts a group.
fn founded(alloc: Global) -> Result<Bodies, NoMemory> {
    let mut bodies = begun(alloc)?;
    bodies.founds(1, 2, 1)?;
    Ok(bodies)
}

// Process 1 from the image.
fn booted(alloc: Global) -> Result<Bodies, NoMemory> {
    let mut bodies = Bodies::new(alloc);
    bodies.boots(0, image())?;
    Ok(bodies)
}

fn step_counted<L: Ledger>(bodies: &mut Bodies, blank: Blank) -> Outcome
    requires live { IsLive bodies.old 1 }
    requires name { blank.name ≡ L.name }
    requires parts { blank.parts ≡ L.parts }
    requires some { 0 < blank.parts }
{
    let mut steps = Steps::<L>::new(blank);
    bodies.step(1, &mut steps)
}

fn step_once(rt: &impl Abort, bodies: &mut Bodies) -> Outcome {
    assert!(rt; bodies.is_live(1));
    step_counted::<Brand>(bodies, Blank::new(1))
}

fn stood_counted<L: Ledger>(bodies: &mut Bodies, count: u32, blank: Blank) -> Stood
    requires live { IsLive bodies.old 1 }
    requires name { blank.name ≡ L.name }
    requires parts { blank.parts ≡ L.parts }
    requires some { 0 < blank.parts }
{
    let mut steps = Steps::<L>::new(blank);
    bodies.run(1, count, &mut steps)
}

// How many instructions of process 1 ran, up to so many, and what comes behind them.
fn run_some(rt: &impl Abort, bodies: &mut Bodies, count: u32) -> (u32, Outcome) {
    assert!(rt; bodies.is_live(1));
    let stood = stood_counted::<Brand>(bodies, count, Blank::new(1));
    (stood.ran, stood.outcome)
}

// Is told all, and keeps nothing.
#[derive(Drop)]
struct Silent;

impl Observer for Silent {
    ghost use Rattle.std.specs.Prelude.{⊤};

    ghost begins = { λ _ _ _ _ _. ⊤ };

    ghost runs = { λ _ _ _ _ _. ⊤ };

    ghost hears = { λ _ _ _ _ _. ⊤ };

    fn begin(&mut self, _: u32, _: u64, _: Option<u32>) -> Result<(), NoMemory> {
        Ok(())
    }

    fn instruction(&mut self, _: u32, _: &Instr, _: &Cpu) -> Result<(), NoMemory> {
        Ok(())
    }

    fn happened(&mut self, _: u64, _: &Record, _: &Cpu) -> Result<(), NoMemory> {
        Ok(())
    }
}

fn run_counted<L: Ledger>(bodies: &mut Bodies, count: u32, blank: Blank) -> Result<u32, NoMemory>
    requires live { IsLive bodies.old 1 }
    requires name { blank.name ≡ L.name }
    requires parts { blank.parts ≡ L.parts }
    requires some { 0 < blank.parts }
{
    let mut steps = Steps::<L>::new(blank);
    bodies.run_told(1, count, &mut Silent, &mut steps)
}

// Runs so many instructions of process 1, if the next one follows each.
fn go_on(rt: &impl Abort, bodies: &mut Bodies, count: u32) -> Result<u32, NoMemory> {
    assert!(rt; bodies.is_live(1));
    run_counted::<Brand>(bodies, count, Blank::new(1))
}

fn look_counted<L: Ledger>(bodies: &mut Bodies, blank: Blank) -> Prospect
    requires live { IsLive bodies.old 1 }
    requires name { blank.name ≡ L.name }
    requires parts { blank.parts ≡ L.parts }
    requires some { 0 < blank.parts }
{
    let mut steps = Steps::<L>::new(blank);
    bodies.next_instr(1, &mut steps)
}

fn outcome(prospect: Prospect) -> Outcome {
    match prospect {
        Prospect::Next(_) => Outcome::Next,
        Prospect::Call => Outcome::Call,
        Prospect::End(status) => Outcome::End(status),
    }
}

// What the instruction at which process 1 stands would come to.
fn look_ahead(rt: &impl Abort, bodies: &mut Bodies) -> Outcome {
    assert!(rt; bodies.is_live(1));
    outcome(look_counted::<Brand>(bodies, Blank::new(1)))
}

// The registers of a process, which lives.
fn cpu(rt: &impl Abort, bodies: &Bodies, pid: u32) -> Cpu {
    assert!(rt; bodies.is_live(pid));
    *bodies.cpu(pid)
}

// The bytes at an address of a process, which lives, are these.
fn assert_bytes(
    rt: &impl Abort,
    bodies: &Bodies,
    pid: u32,
    at: u64,
    wanted: &[u8],
) -> Result<(), NoMemory> {
    assert!(rt; bodies.is_live(pid));
    let Some(bytes) = bodies.copy(pid, at, wanted.len() as u64)? else {
        panic!(rt; "no bytes");
    };
    assert_same(rt, bytes.as_slice(), wanted);
    Ok(())
}

// The bytes at an address of a process, which lives, don't lie whole in one window.
fn assert_no_bytes(rt: &impl Abort, bodies: &Bodies, pid: u32, at: u64, len: u64) {
    assert!(rt; bodies.is_live(pid));
    assert!(rt; !bodies.can_reach(pid, at, len));
}

// A call of a process ends, and bytes arrive.
fn receive(
    rt: &impl Abort,
    bodies: &mut Bodies,
    pid: u32,
    at: u64,
    bytes: &[u8],
    answer: u64,
) -> Result<(), NoMemory> {
    assert!(rt; bodies.is_live(pid));
    let spare = bodies.spare(bytes.len() as u64)?;
    bodies.receives(pid, at, bytes, answer, spare);
    Ok(())
}

// Signal 5 comes to process 1.
fn deliver(rt: &impl Abort, bodies: &mut Bodies, handler: u64, cut: bool) {
    assert!(rt; bodies.is_live(1));
    bodies.delivers(1, 5, handler, cut);
}

// Whether a handler of process 1 ends.
fn leave(rt: &impl Abort, bodies: &mut Bodies) -> bool {
    assert!(rt; bodies.is_live(1));
    bodies.leaves(1)
}

fn is_in_handler(rt: &impl Abort, bodies: &Bodies) -> bool {
    assert!(rt; bodies.is_live(1));
    bodies.is_in_handler(1)
}

// How process 1 would begin as a child.
fn start(rt: &impl Abort, bodies: &Bodies) -> Result<Start, NoMemory> {
    assert!(rt; bodies.is_live(1));
    bodies.start_of(1)
}

#[test]
fn a_process_runs_to_its_call_and_receives(rt: HostRuntime) -> Result<(), Fail> {
    let mut bodies = one(rt.alloc())?;
    assert_same(&rt, step_once(&rt, &mut bodies), Outcome::Next);
    assert_same(&rt, cpu(&rt, &bodies, 1).x[4], 7);
    assert_same(&rt, step_once(&rt, &mut bodies), Outcome::Call);
    receive(&rt, &mut bodies, 1, 0x1_0100, b"hi", 2)?;
    let cpu = cpu(&rt, &bodies, 1);
    assert_same(&rt, (cpu.pc, cpu.x[9]), (0x1_0008, 2));
    assert_bytes(&rt, &bodies, 1, 0x1_0100, b"hi")?;
    let start = start(&rt, &bodies)?;
    assert_same(&rt, (start.cpu.pc, start.blocks.len()), (0x1_000c, 2));
    Ok(())
}

#[test]
fn a_process_runs_until_its_call(rt: HostRuntime) -> Result<(), Fail> {
    let mut bodies = one(rt.alloc())?;
    assert_same(&rt, run_some(&rt, &mut bodies, 1), (1, Outcome::Next));
    assert_same(&rt, cpu(&rt, &bodies, 1).x[4], 7);
    assert_same(&rt, run_some(&rt, &mut bodies, 5), (0, Outcome::Call));
    assert_same(&rt, cpu(&rt, &bodies, 1).pc, 0x1_0004);
    Ok(())
}

#[test]
fn a_store_to_a_shared_page_runs(rt: HostRuntime) -> Result<(), Fail> {
    let mut bodies = storing(rt.alloc())?;
    deliver(&rt, &mut bodies, 0x1_0000, false);
    assert_same(&rt, run_some(&rt, &mut bodies, 2), (2, Outcome::Next));
    assert_same(&rt, step_once(&rt, &mut bodies), Outcome::Next);
    assert_same(&rt, run_some(&rt, &mut bodies, 5), (0, Outcome::Call));
    assert_bytes(&rt, &bodies, 1, 0x1_01ff, &[0, 7, 0])?;
    assert_bytes(&rt, &bodies, 2, 0x1_01ff, &[0, 0, 0])?;
    deliver(&rt, &mut bodies, 0x1_0000, false);
    assert_same(&rt, run_some(&rt, &mut bodies, 5), (3, Outcome::Call));
    Ok(())
}

#[test]
fn a_process_with_a_segment_runs_until_its_call(rt: HostRuntime) -> Result<(), Fail> {
    let mut bodies = with_segment(rt.alloc())?;
    deliver(&rt, &mut bodies, 0x1_0000, false);
    assert_same(&rt, run_some(&rt, &mut bodies, 5), (1, Outcome::Call));
    assert_same(&rt, cpu(&rt, &bodies, 1).x[4], 7);
    assert_bytes(&rt, &bodies, 1, 0x8000_0000, &[0, 0])?;
    Ok(())
}

#[test]
fn a_process_runs_until_it_stops(rt: HostRuntime) -> Result<(), Fail> {
    let mut bodies = one(rt.alloc())?;
    assert_same(&rt, look_ahead(&rt, &mut bodies), Outcome::Next);
    assert_same(&rt, go_on(&rt, &mut bodies, 3)?, 1);
    assert_same(&rt, cpu(&rt, &bodies, 1).x[4], 7);
    assert_same(&rt, go_on(&rt, &mut bodies, 3)?, 0);
    assert_same(&rt, cpu(&rt, &bodies, 1).pc, 0x1_0004);
    assert_same(&rt, look_ahead(&rt, &mut bodies), Outcome::Call);
    assert!(rt; !is_in_handler(&rt, &bodies));
    Ok(())
}

#[test]
fn a_process_starts_anew(rt: HostRuntime) -> Result<(), Fail> {
    let bodies = started(rt.alloc())?;
    let cpu = cpu(&rt, &bodies, 1);
    assert_same(
        &rt,
        [cpu.pc, cpu.x[9], cpu.x[10], cpu.x[1]],
        [0x2_0004, 0x4_fffb, 5, 0x4_fff0],
    );
    assert_bytes(&rt, &bodies, 1, 0x1_0000, &[0; 8])?;
    assert_bytes(&rt, &bodies, 1, 0x2_0000, b"ABCDE\0")?;
    assert_bytes(
        &rt,
        &bodies,
        1,
        0x4_fffa,
        &[0, 0x93, 0x02, 0x70, 0x00, 0x73],
    )?;
    Ok(())
}

#[test]
fn process_1_begins_from_an_image(rt: HostRuntime) -> Result<(), Fail> {
    let bodies = booted(rt.alloc())?;
    let cpu = cpu(&rt, &bodies, 1);
    assert_same(
        &rt,
        [cpu.pc, cpu.x[9], cpu.x[10], cpu.x[1]],
        [0x2_0004, 0x5_0000, 0, 0x5_0000],
    );
    assert_bytes(&rt, &bodies, 1, 0x1_fffc, b"\0\0\0\0ABCDE\0")?;
    assert_no_bytes(&rt, &bodies, 1, 0x8000_0000, 1);
    Ok(())
}

#[test]
fn a_handler_begins_and_leaves(rt: HostRuntime) -> Result<(), Fail> {
    let mut bodies = one(rt.alloc())?;
    deliver(&rt, &mut bodies, 0x1_0040, true);
    let inside = cpu(&rt, &bodies, 1);
    assert_same(&rt, (inside.pc, inside.x[9]), (0x1_0040, 5));
    assert!(rt; leave(&rt, &mut bodies));
    let behind = cpu(&rt, &bodies, 1);
    assert_same(
        &rt,
        (behind.pc, behind.x[9]),
        (0x1_0004, 0xffff_ffff_ffff_fffc),
    );
    assert!(rt; !leave(&rt, &mut bodies));
    Ok(())
}

#[test]
fn a_child_writes_what_it_never_touched(rt: HostRuntime) -> Result<(), Fail> {
    let mut bodies = forked(rt.alloc())?;
    receive(&rt, &mut bodies, 2, 0x1_0000, b"new", 3)?;
    assert_same(&rt, cpu(&rt, &bodies, 1).x[9], 2);
    assert_bytes(&rt, &bodies, 1, 0x1_0000, &PROGRAM)?;
    assert_bytes(&rt, &bodies, 2, 0x1_0000, b"new")?;
    Ok(())
}

#[test]
fn a_founded_child_holds_no_segment(rt: HostRuntime) -> Result<(), Fail> {
    let bodies = founded(rt.alloc())?;
    assert_same(&rt, cpu(&rt, &bodies, 2).x[9], 0);
    assert_no_bytes(&rt, &bodies, 2, 0x8000_0000, 1);
    Ok(())
}

#[test]
fn a_fresh_segment_takes_bytes(rt: HostRuntime) -> Result<(), Fail> {
    let mut bodies = with_segment(rt.alloc())?;
    receive(&rt, &mut bodies, 1, 0x8000_fffe, &[1, 2], 2)?;
    assert_bytes(&rt, &bodies, 1, 0x8000_fffc, &[0, 0, 1, 2])?;
    assert_no_bytes(&rt, &bodies, 1, 0x8000_ffff, 2);
    Ok(())
}
