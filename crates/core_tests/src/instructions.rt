ghost use Rattle.std.specs.Prelude.{◌≡◌, ◌<◌};
ghost use Rattle.rv64_model.specs.Instruction.{instruction};
ghost use Rattle.rv64_core.specs.Prospect.{Foretells};

mod flat;
mod rows;

use crate::same::{assert_same, assert_same_at};
use arn_base::{Cpu, Memory, NoMemory, Steps};
use flat::Flat;
use rows::{
    AHEAD, After, BAD_STORES, BEHIND, BRANCHES, FIRST, HERE, LOADS, OPERATIONS, OTHERS, SECOND,
    STORED, STORES,
};
use rv64_core::{Decoder, Outcome, Prospect, execute, is_at_call, next_instr, step, step_with};
use rv64_isa::{Instr, decode};
use std::alloc::{AllocError, Global};
use std::marker::Brand;
use std::process::Abort;
use std::sync::ledger::{Blank, Ledger};
use std::test::Fail;

fn step_counted<L: Ledger>(cpu: &mut Cpu, memory: &mut Flat, blank: Blank) -> Outcome
    requires name { blank.name ≡ L.name }
    requires parts { blank.parts ≡ L.parts }
    requires some { 0 < blank.parts }
{
    let mut steps = Steps::<L>::new(blank);
    step(cpu, memory, &mut steps)
}

fn step_once(cpu: &mut Cpu, memory: &mut Flat) -> Outcome {
    step_counted::<Brand>(cpu, memory, Blank::new(1))
}

fn remember_counted<L: Ledger>(
    cpu: &mut Cpu,
    memory: &mut Flat,
    decoder: &mut Decoder,
    blank: Blank,
) -> Outcome
    requires name { blank.name ≡ L.name }
    requires parts { blank.parts ≡ L.parts }
    requires some { 0 < blank.parts }
{
    let mut steps = Steps::<L>::new(blank);
    step_with(cpu, memory, decoder, &mut steps)
}

// One step with a decoder, which remembers the word.
fn step_remembered(cpu: &mut Cpu, memory: &mut Flat, decoder: &mut Decoder) -> Outcome {
    remember_counted::<Brand>(cpu, memory, decoder, Blank::new(1))
}

// A decoder with memory for words.
fn ready_decoder(alloc: Global) -> Result<Decoder, AllocError> {
    let mut decoder = Decoder::new(alloc);
    match decoder.make_room() {
        Ok(()) => Ok(decoder),
        Err(NoMemory) => Err(AllocError),
    }
}

fn look_counted<M: Memory, L: Ledger>(cpu: &Cpu, memory: &M, blank: Blank) -> Prospect
    requires name { blank.name ≡ L.name }
    requires parts { blank.parts ≡ L.parts }
    requires some { 0 < blank.parts }
    ensures { Foretells result cpu.now (instruction cpu.now (M.windows memory.now)) }
{
    let mut steps = Steps::<L>::new(blank);
    next_instr(cpu, memory, &mut steps)
}

fn look<M: Memory>(cpu: &Cpu, memory: &M) -> Prospect
    ensures { Foretells result cpu.now (instruction cpu.now (M.windows memory.now)) }
{
    look_counted::<M, Brand>(cpu, memory, Blank::new(1))
}

// Looks ahead, and executes what takes effect.
fn look_and_execute<M: Memory>(cpu: &mut Cpu, memory: &mut M) -> Outcome {
    match look(cpu, memory) {
        Prospect::Next(planned) => match execute(&planned, cpu, memory) {
            Ok(()) => Outcome::Next,
            Err(NoMemory) => Outcome::NoMemory,
        },
        Prospect::Call => Outcome::Call,
        Prospect::End(status) => Outcome::End(status),
    }
}

// The registers at 0x1_0000, of which these have values other than 0.
fn holding(x1: u64, x6: u64, x7: u64) -> Cpu {
    let mut cpu = Cpu {
        x: [0; 31],
        pc: 0x1_0000,
    };
    set(&mut cpu, 1, x1);
    set(&mut cpu, 6, x6);
    set(&mut cpu, 7, x7);
    cpu
}

fn set(cpu: &mut Cpu, number: usize, value: u64) {
    if let Some(register) = cpu.x.get_mut(number.wrapping_sub(1)) {
        *register = value;
    }
}

// Runs the instruction at 0x1_0000, which does this and nothing else to the registers: in one step,
// and on a copy by a look ahead. The memories are equal then.
fn check(
    rt: &impl Abort,
    name: &str,
    memory: &mut Flat,
    cpu: Cpu,
    after: After,
) -> Result<(), AllocError> {
    let (outcome, number, value, pc) = after;
    let mut registers = cpu;
    set(&mut registers, number, value);
    registers.pc = pc;
    let mut copy = memory.copy()?;
    let mut stepped = cpu;
    let mut ahead = cpu;
    let came = step_once(&mut stepped, memory);
    let would_come = look_and_execute(&mut ahead, &mut copy);
    assert_same_at(rt, name, (came, would_come), (outcome, outcome));
    assert_same_at(rt, name, (stepped, ahead), (registers, registers));
    assert_same_at(rt, name, copy.bytes(), memory.bytes());
    Ok(())
}

// The instruction of a word, alone in the memory, does this and nothing else.
fn check_word(
    rt: &impl Abort,
    alloc: Global,
    name: &str,
    word: u32,
    cpu: Cpu,
    after: After,
) -> Result<(), AllocError> {
    let mut memory = Flat::of_words(alloc, 0x1_0000, &[word])?;
    check(rt, name, &mut memory, cpu, after)
}

#[test]
fn instructions_do_what_the_manual_says(rt: HostRuntime) -> Result<(), Fail> {
    for (name, word, x6, x7, x5) in &OPERATIONS {
        let cpu = holding(0x1234, *x6, *x7);
        check_word(
            &rt,
            rt.alloc(),
            name,
            *word,
            cpu,
            (Outcome::Next, 5, *x5, BEHIND),
        )?;
    }
    for (name, word, x6, x7, pc) in &BRANCHES {
        let cpu = holding(0x1234, *x6, *x7);
        check_word(
            &rt,
            rt.alloc(),
            name,
            *word,
            cpu,
            (Outcome::Next, 0, 0, *pc),
        )?;
    }
    for (name, word, x6, after) in &OTHERS {
        let cpu = holding(0x1234, *x6, 0);
        check_word(&rt, rt.alloc(), name, *word, cpu, *after)?;
    }
    Ok(())
}

// The memory of a load or a store.
fn with_numbers(alloc: Global, word: u32) -> Result<Flat, AllocError> {
    let words = [word, 0x8382_8180, 0x8786_8584, 0x7372_7170, 0x7776_7574];
    Flat::of_words(alloc, 0x1_0000, &words)
}

fn check_numbers(rt: &impl Abort, name: &str, memory: &Flat, first: u64, second: u64) {
    let numbers = (memory.load(0x1_0004, 8), memory.load(0x1_000c, 8));
    assert_same_at(rt, name, numbers, (Ok(first), Ok(second)));
}

#[test]
fn loads_and_stores_do_what_the_manual_says(rt: HostRuntime) -> Result<(), Fail> {
    for (name, word, x6, after) in &LOADS {
        let mut memory = with_numbers(rt.alloc(), *word)?;
        check(&rt, name, &mut memory, holding(0x1234, *x6, 0), *after)?;
    }
    for (name, word, x6, first, second) in &STORES {
        let mut memory = with_numbers(rt.alloc(), *word)?;
        let cpu = holding(0x1234, *x6, STORED);
        check(&rt, name, &mut memory, cpu, (Outcome::Next, 0, 0, BEHIND))?;
        check_numbers(&rt, name, &memory, *first, *second);
    }
    for (name, word, x6) in &BAD_STORES {
        let mut memory = with_numbers(rt.alloc(), *word)?;
        let cpu = holding(0x1234, *x6, STORED);
        check(&rt, name, &mut memory, cpu, (Outcome::End(139), 0, 0, HERE))?;
        check_numbers(&rt, name, &memory, FIRST, SECOND);
    }
    Ok(())
}

#[test]
fn a_store_without_memory_may_be_tried_again(rt: HostRuntime) -> Result<(), Fail> {
    // sd x7, 0(x6)
    let mut memory = with_numbers(rt.alloc(), 0x0073_3023)?;
    let mut cpu = holding(0x1234, 0x1_0004, STORED);
    let before = cpu;
    memory.is_full = true;
    assert_same(&rt, step_once(&mut cpu, &mut memory), Outcome::NoMemory);
    assert_same(&rt, cpu, before);
    assert_same(
        &rt,
        look_and_execute(&mut cpu, &mut memory),
        Outcome::NoMemory,
    );
    assert_same(&rt, cpu, before);
    check_numbers(&rt, "full", &memory, FIRST, SECOND);
    memory.is_full = false;
    check(
        &rt,
        "again",
        &mut memory,
        cpu,
        (Outcome::Next, 0, 0, BEHIND),
    )?;
    check_numbers(&rt, "again", &memory, STORED, SECOND);
    Ok(())
}

#[test]
fn a_store_may_write_the_next_instruction(rt: HostRuntime) -> Result<(), Fail> {
    // sw x7, 4(x6), and then addi x5, x0, 11 in the place of an ecall, which was decoded before.
    let mut memory = Flat::of_words(rt.alloc(), 0x1_0000, &[0x0073_2223, 0x0000_0073])?;
    let mut decoder = ready_decoder(rt.alloc())?;
    let mut cpu = holding(0, 0x1_0000, 0x00b0_0293);
    let mut after = cpu;
    set(&mut after, 5, 11);
    after.pc = 0x1_0008;
    let mut at_call = cpu;
    at_call.pc = 0x1_0004;
    let came = step_remembered(&mut at_call, &mut memory, &mut decoder);
    assert_same(&rt, came, Outcome::Call);
    for _ in 0..2 {
        let came = step_remembered(&mut cpu, &mut memory, &mut decoder);
        assert_same(&rt, came, Outcome::Next);
    }
    assert_same(&rt, cpu, after);
    Ok(())
}

#[test]
fn pc_wraps_to_zero(rt: HostRuntime) -> Result<(), Fail> {
    // nop
    let mut memory = Flat::of_words(rt.alloc(), 0xffff_ffff_ffff_fffc, &[0x0000_0013])?;
    let mut cpu = holding(5, 6, 7);
    cpu.pc = 0xffff_ffff_ffff_fffc;
    let mut after = cpu;
    after.pc = 0;
    assert_same(&rt, step_once(&mut cpu, &mut memory), Outcome::Next);
    assert_same(&rt, cpu, after);
    Ok(())
}

#[test]
fn fetches_outside_end_the_process(rt: HostRuntime) -> Result<(), Fail> {
    // nop
    let mut memory = Flat::of_words(rt.alloc(), 0x1_0000, &[0x0000_0013])?;
    for pc in [0, 0xfffe, 0x1_0001, 0x1_0004, u64::MAX] {
        let mut cpu = holding(5, 6, 7);
        cpu.pc = pc;
        let after = cpu;
        let came = step_once(&mut cpu, &mut memory);
        let would_come = told(look(&cpu, &memory)).0;
        let is_call = is_at_call(&cpu, &memory);
        let found = (came, cpu, would_come, is_call);
        let end = Outcome::End(139);
        assert_eq!(rt; found, (end, after, end, false), "at {pc:x}");
    }
    Ok(())
}

// What a look ahead tells, but for the registers.
fn told(prospect: Prospect) -> (Outcome, Option<Instr>) {
    match prospect {
        Prospect::Next(planned) => (Outcome::Next, Some(planned.instr)),
        Prospect::Call => (Outcome::Call, None),
        Prospect::End(status) => (Outcome::End(status), None),
    }
}

#[test]
fn a_look_ahead_tells_what_would_come(rt: HostRuntime) -> Result<(), Fail> {
    for (name, word, x6, outcome) in &AHEAD {
        let memory = with_numbers(rt.alloc(), *word)?;
        let cpu = holding(0x1234, *x6, 0);
        let instr = match outcome {
            Outcome::Next => decode(*word),
            _ => None,
        };
        assert_same_at(&rt, name, told(look(&cpu, &memory)), (*outcome, instr));
        let is_call = *outcome == Outcome::Call;
        assert_same_at(&rt, name, is_at_call(&cpu, &memory), is_call);
    }
    let memory = Flat::of_words(rt.alloc(), 0x1_0000, &[0x0ff0_000f])?;
    let fence = Instr::Fence { word: 0x0ff0_000f };
    let prospect = look(&holding(0, 0, 0), &memory);
    assert_same(&rt, told(prospect), (Outcome::Next, Some(fence)));
    Ok(())
}
