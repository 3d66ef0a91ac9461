// Where pc goes after an instruction.
ghost use Rattle.std.specs.Prelude.{◌≡◌, ◌≢◌, ◌%◌, ◌==◌, List};
ghost use Rattle.arn_base.specs.Window.{Window};
ghost use Rattle.rv64_isa.specs.declared.instruction.Instr.{Instr};
ghost use Rattle.rv64_model.specs.Instruction.{Next, advanced, branches, jumps, writes, next_pc as next_pc_of};
ghost use Rattle.rv64_model.specs.Registers.{with_register};
ghost use Rattle.rv64_core.specs.Outcome.{Tells, OnStop};
ghost use Rattle.rv64_core.specs.Prospect.{Foretells};

use crate::outcome::{Outcome, Planned, Prospect};
use crate::registers::set_register;
use arn_base::Cpu;
use rv64_isa::{Instr, Reg};
use rv64_model::statuses::MISALIGNED;

// Goes on to the next word.
#[inline(always)]
pub(crate) fn go_on(cpu: &mut Cpu) -> Outcome
    ensures next { result ≡ Outcome.Next }
    ensures cpu { cpu.new ≡ advanced cpu.old }
{
    cpu.pc = next_pc(cpu);
    Outcome::Next
}

// Writes a register, and goes on to the next word.
#[inline(always)]
pub(crate) fn write(cpu: &mut Cpu, rd: Reg, value: u64) -> Outcome
    ensures next { result ≡ Outcome.Next }
    ensures cpu { cpu.new ≡ advanced (with_register cpu.old rd value) }
{
    set_register(cpu, rd, value);
    go_on(cpu)
}

// Jumps to a target, and leaves the address of the next word in rd.
#[inline(always)]
pub(crate) fn jump(cpu: &mut Cpu, rd: Reg, target: u64) -> Outcome
    ensures effect { (instr : Instr) → (memory : List Window) →
        Tells result (jumps instr cpu.old memory rd target) cpu.new memory }
    ensures cpu { OnStop result (cpu.new ≡ cpu.old) }
    ensures no_memory { result ≢ Outcome.NoMemory }
{
    let link = next_pc(cpu);
    if !is_aligned(target) {
        return Outcome::End(MISALIGNED);
    }
    set_register(cpu, rd, link);
    cpu.pc = target;
    Outcome::Next
}

// Goes to a target if the branch is taken, and else to the next word.
#[inline(always)]
pub(crate) fn branch(cpu: &mut Cpu, taken: bool, target: u64) -> Outcome
    ensures effect { (instr : Instr) → (memory : List Window) →
        Tells result (branches instr cpu.old memory taken target) cpu.new memory }
    ensures cpu { OnStop result (cpu.new ≡ cpu.old) }
    ensures no_memory { result ≢ Outcome.NoMemory }
{
    if !taken {
        return go_on(cpu);
    }
    if !is_aligned(target) {
        return Outcome::End(MISALIGNED);
    }
    cpu.pc = target;
    Outcome::Next
}

// The register to which a write is lost.
#[inline(always)]
fn x0() -> Reg
    ensures { result ≡ 0 }
{
    match Reg::new(0) {
        Some(reg) => reg,
        None => unreachable!(),
    }
}

// An instruction that writes no register, and goes on to the next word.
#[inline(always)]
pub(crate) fn go_on_ahead(instr: Instr, cpu: &Cpu) -> Prospect
    ensures { (memory : List Window) →
        Foretells result cpu.now (Next instr (advanced cpu.now) memory) }
{
    write_ahead(instr, cpu, x0(), 0)
}

// One that writes a register, and goes on to the next word.
#[inline(always)]
pub(crate) fn write_ahead(instr: Instr, cpu: &Cpu, rd: Reg, value: u64) -> Prospect
    ensures { (memory : List Window) →
        Foretells result cpu.now (writes instr cpu.now memory rd value) }
{
    Prospect::Next(Planned {
        instr,
        rd,
        value,
        pc: next_pc(cpu),
    })
}

// What a jump would come to.
#[inline(always)]
pub(crate) fn jump_ahead(instr: Instr, cpu: &Cpu, rd: Reg, target: u64) -> Prospect
    ensures { (memory : List Window) →
        Foretells result cpu.now (jumps instr cpu.now memory rd target) }
{
    if !is_aligned(target) {
        return Prospect::End(MISALIGNED);
    }
    Prospect::Next(Planned {
        instr,
        rd,
        value: next_pc(cpu),
        pc: target,
    })
}

// What a branch would come to.
#[inline(always)]
pub(crate) fn branch_ahead(instr: Instr, cpu: &Cpu, taken: bool, target: u64) -> Prospect
    ensures { (memory : List Window) →
        Foretells result cpu.now (branches instr cpu.now memory taken target) }
{
    if taken {
        jump_ahead(instr, cpu, x0(), target)
    } else {
        go_on_ahead(instr, cpu)
    }
}

// Whether a target is a multiple of 4.
#[inline(always)]
fn is_aligned(target: u64) -> bool
    ensures { result ≡ (target % 4 == 0) }
{
    target % 4 == 0
}

// The address of the next word.
#[inline(always)]
fn next_pc(cpu: &Cpu) -> u64
    ensures { result ≡ next_pc_of cpu.now }
{
    cpu.pc.wrapping_add(4)
}
