ghost use Rattle.std.specs.Prelude.{◌≡◌, ◌+◌, ◌↔◌, IsTrue, IfOk, IfErr};
ghost use Rattle.std.specs.Result.{result_ok};
ghost use Rattle.arn_base.specs.Window.{number_at};
ghost use Rattle.rv64_model.specs.Instruction.{instruction, executed, Call, End};
ghost use Rattle.rv64_core.specs.Fetched.{instr_at};
ghost use Rattle.rv64_core.specs.Outcome.{Tells, OnStop};
ghost use Rattle.rv64_core.specs.Prospect.{Foretells};

use crate::decoder::Decoder;
use crate::execution::{look_ahead, take_effect};
use crate::outcome::{Outcome, Prospect};
use arn_base::{BadAddress, Cpu, Memory, Steps};
use rv64_isa::{Instr, decode};
use rv64_model::statuses::{BAD_ACCESS, ILLEGAL_INSTRUCTION};
use std::sync::ledger::Ledger;

/// Runs the instruction at pc. It is counted whatever it comes to.
///
/// The status of an End is 132 at a word that is no instruction, 133 at an EBREAK, 135 at a jump or
/// a taken branch to a target that is no multiple of 4, and 139 at a fetch, a load or a store
/// outside the windows.
#[inline(always)]
pub fn step<M: Memory, L: Ledger>(cpu: &mut Cpu, mem: &mut M, steps: &mut Steps<L>) -> Outcome
    ensures tick { steps.new ≡ steps.old + 1 }

    // The outcome, the registers and the memory are those that the manual gives the instruction.
    ensures effect { Tells result (instruction cpu.old (M.windows mem.old))
        cpu.new (M.windows mem.new) }

    // Any outcome but Next leaves all as it was.
    ensures cpu { OnStop result (cpu.new ≡ cpu.old) }
    ensures memory { OnStop result (M.windows mem.new ≡ M.windows mem.old) }

    // NoMemory comes only from a memory that wants memory.
    ensures no_memory { (result ≡ Outcome.NoMemory) → IsTrue (M.wants_memory mem.old) }
{
    steps.tick();
    let found = instr_at_pc(cpu, mem);
    carry_out(found, cpu, mem)
}

/// The same as `step`, with a decoder that may remember the word.
#[inline(always)]
pub fn step_with<M: Memory, L: Ledger>(
    cpu: &mut Cpu,
    mem: &mut M,
    decoder: &mut Decoder,
    steps: &mut Steps<L>,
) -> Outcome
    ensures tick { steps.new ≡ steps.old + 1 }
    ensures effect { Tells result (instruction cpu.old (M.windows mem.old))
        cpu.new (M.windows mem.new) }
    ensures cpu { OnStop result (cpu.new ≡ cpu.old) }
    ensures memory { OnStop result (M.windows mem.new ≡ M.windows mem.old) }
    ensures no_memory { (result ≡ Outcome.NoMemory) → IsTrue (M.wants_memory mem.old) }
{
    steps.tick();
    let found = instr_with(cpu, mem, decoder);
    carry_out(found, cpu, mem)
}

/// Says what the instruction at pc would come to, and counts it whatever that is. Its jump has a
/// fit target, and its load or store a range within a window: so it may be executed by `execute`.
#[inline(always)]
pub fn next_instr<M: Memory, L: Ledger>(cpu: &Cpu, mem: &M, steps: &mut Steps<L>) -> Prospect
    ensures tick { steps.new ≡ steps.old + 1 }

    // It is what the manual gives the instruction.
    ensures effect { Foretells result cpu.now (instruction cpu.now (M.windows mem.now)) }
{
    steps.tick();
    match instr_at_pc(cpu, mem) {
        Ok(instr) => look_ahead(instr, cpu, mem),
        Err(status) => Prospect::End(status),
    }
}

/// The same as `next_instr`, with a decoder that may remember the word.
#[inline(always)]
pub fn next_instr_with<M: Memory, L: Ledger>(
    cpu: &Cpu,
    mem: &M,
    decoder: &mut Decoder,
    steps: &mut Steps<L>,
) -> Prospect
    ensures tick { steps.new ≡ steps.old + 1 }
    ensures effect { Foretells result cpu.now (instruction cpu.now (M.windows mem.now)) }
{
    steps.tick();
    match instr_with(cpu, mem, decoder) {
        Ok(instr) => look_ahead(instr, cpu, mem),
        Err(status) => Prospect::End(status),
    }
}

/// Whether an ECALL stands at pc. It is not counted.
pub fn is_at_call<M: Memory>(cpu: &Cpu, mem: &M) -> bool
    ensures { IsTrue result ↔ (instruction cpu.now (M.windows mem.now) ≡ Call) }
{
    match instr_at_pc(cpu, mem) {
        Ok(instr) => instr == Instr::Ecall,
        Err(_) => false,
    }
}

// Lets the instruction at pc take effect, if there is one.
#[inline(always)]
fn carry_out<M: Memory>(found: Result<Instr, u8>, cpu: &mut Cpu, mem: &mut M) -> Outcome
    requires ok { IfOk found (λ instr. instruction cpu.old (M.windows mem.old)
        ≡ executed instr cpu.old (M.windows mem.old)) }
    requires err { IfErr found (λ status. instruction cpu.old (M.windows mem.old) ≡ End status) }
    ensures effect { Tells result (instruction cpu.old (M.windows mem.old))
        cpu.new (M.windows mem.new) }
    ensures cpu { OnStop result (cpu.new ≡ cpu.old) }
    ensures memory { OnStop result (M.windows mem.new ≡ M.windows mem.old) }
    ensures no_memory { (result ≡ Outcome.NoMemory) → IsTrue (M.wants_memory mem.old) }
{
    match found {
        Ok(instr) => take_effect(&instr, cpu, mem),
        Err(status) => Outcome::End(status),
    }
}

// The instruction at pc, or the status with which its process ends if there is none.
#[inline(always)]
fn instr_at_pc<M: Memory>(cpu: &Cpu, mem: &M) -> Result<Instr, u8>
    ensures instr { result_ok result ≡ instr_at cpu.now (M.windows mem.now) }
    ensures ok { IfOk result (λ instr. instruction cpu.now (M.windows mem.now)
        ≡ executed instr cpu.now (M.windows mem.now)) }
    ensures err { IfErr result (λ status. instruction cpu.now (M.windows mem.now) ≡ End status) }
{
    let Ok(word) = fetch(cpu, mem) else {
        return Err(BAD_ACCESS);
    };
    match decode(word) {
        Some(instr) => Ok(instr),
        None => Err(ILLEGAL_INSTRUCTION),
    }
}

// The same, with a decoder.
#[inline(always)]
fn instr_with<M: Memory>(cpu: &Cpu, mem: &M, decoder: &mut Decoder) -> Result<Instr, u8>
    ensures instr { result_ok result ≡ instr_at cpu.now (M.windows mem.now) }
    ensures ok { IfOk result (λ instr. instruction cpu.now (M.windows mem.now)
        ≡ executed instr cpu.now (M.windows mem.now)) }
    ensures err { IfErr result (λ status. instruction cpu.now (M.windows mem.now) ≡ End status) }
{
    let Ok(word) = fetch(cpu, mem) else {
        return Err(BAD_ACCESS);
    };
    match decoder.instr(cpu.pc, word) {
        Some(instr) => Ok(instr),
        None => Err(ILLEGAL_INSTRUCTION),
    }
}

// The word at pc.
#[inline(always)]
fn fetch<M: Memory>(cpu: &Cpu, mem: &M) -> Result<u32, BadAddress>
    ensures { result_ok result ≡ number_at (M.windows mem.now) cpu.now.pc 4 }
{
    Ok(mem.load(cpu.pc, 4)? as u32)
}
