// Instructions that move sets as they are, between a register and memory or from one register to another.
ghost use Rattle.std.specs.Prelude.{◌≡◌, ◌<◌, ◌≤◌, IsTrue, false, length, IfOk};
ghost use Rattle.arn_base.specs.declared.machine.Cpu.{Cpu as AnyCpu};
ghost use Rattle.taint_members.specs.Access.{HoldsKeys, PutsRead, Memories};
ghost use Rattle.taint_steps.specs.Running.{Runs};
ghost use Rattle.taint_steps.specs.Taking.{AreSetsAt, AreSetsIn};

use crate::taking::{bytes_of, registers};
use arn_base::{Cpu, NoMemory};
use rv64_core::accessed;
use rv64_isa::{Instr, Reg};
use rv64_model::Linkage;
use taint_flow::{
    loaded_len, moves_loaded, moves_register, moves_stored, rd, rs1, rs2, stored_len,
};
use taint_members::{MemberSets, load_register, write};
use taint_pages::SetNumbers;
use taint_spans::SpanSets;

/// Sets the numbers of a register that isn't x0 to those of so many bytes from an address on, and
/// zeros behind them. False says that the register is x0, or the address lies outside the member's
/// memories: then nothing was done.
#[inline(always)]
fn load_to(member: &mut MemberSets, memories: &[SetNumbers], at: u64, len: usize, reg: Reg) -> bool
    requires few { len ≤ 8 }
    requires held { HoldsKeys member.old memories.now }
    ensures above { IsTrue result → 0 < reg }
    ensures puts { IsTrue result → PutsRead member.old memories.now at len reg
        member.old.registers member.new.registers }
    ensures others { member.new ≡ record member.old { registers = member.new.registers } }
    ensures kept { result ≡ false → member.new ≡ member.old }
{
    if reg.number() == 0 {
        return false;
    }
    load_register(member, memories, at, len, reg)
}

/// Moves the sets of the bytes that an instruction loads to its register, if that is all that it
/// does to sets. False says that nothing was done.
#[inline(always)]
pub fn move_loaded(
    sets: &SpanSets,
    linkage: Linkage,
    instr: &Instr,
    before: &Cpu,
    member: &mut MemberSets,
    memories: &[SetNumbers],
) -> bool
    requires held { HoldsKeys member.old memories.now }
    requires memory { AreSetsAt sets.now member.old memories.now }
    ensures runs { IsTrue result → Runs linkage instr.now before.now member.old member.new
        memories.now memories.now sets.now sets.now }
    ensures kept { result ≡ false → member.new ≡ member.old }
{
    if !moves_loaded(sets, linkage, instr) {
        return false;
    }
    let _ = sets.empty();
    let _ = registers(instr, member);
    let Some(at) = accessed(instr, before) else {
        return false;
    };
    let Some(reg) = rd(instr) else {
        return false;
    };
    load_to(member, memories, at, loaded_len(instr), reg)
}

/// Moves the sets of a register to the bytes that an instruction stores, if that is all that it
/// does to sets. False says that nothing was done.
#[inline(always)]
pub fn move_stored(
    sets: &SpanSets,
    linkage: Linkage,
    instr: &Instr,
    before: &Cpu,
    member: &MemberSets,
    memories: &mut [SetNumbers],
) -> Result<bool, NoMemory>
    requires held { HoldsKeys member.now memories.old }
    requires registers { AreSetsIn sets.now member.now.registers }
    ensures runs { IfOk result (λ done. IsTrue done → Runs linkage instr.now before.now
        member.now member.now memories.old memories.new sets.now sets.now) }
    ensures memories { IfOk result (λ done. done ≡ false → memories.new ≡ memories.old) }
    ensures keys { length memories.new ≡ length memories.old }
{
    if !moves_stored(sets, linkage, instr) {
        return Ok(false);
    }
    let _ = sets.empty();
    let _ = registers(instr, member);
    let Some(at) = accessed(instr, before) else {
        return Ok(false);
    };
    let numbers = &bytes_of(&member.registers, rs2(instr))[..stored_len(instr)];
    write(member, memories, at, numbers)?;
    Ok(true)
}

/// Moves the sets of a register's bytes to the register that an instruction writes, if that is all
/// that it does to sets. False says that nothing was done.
#[inline(always)]
pub fn move_register(
    sets: &SpanSets,
    linkage: Linkage,
    instr: &Instr,
    member: &mut MemberSets,
) -> bool
    requires registers { AreSetsIn sets.now member.old.registers }
    ensures runs { IsTrue result → (before : AnyCpu) (memories : Memories) → Runs linkage instr.now before
        member.old member.new memories memories sets.now sets.now }
    ensures kept { result ≡ false → member.new ≡ member.old }
{
    if !moves_register(linkage, instr) {
        return false;
    }
    // Asked for what is promised of both: nothing is done with them.
    let _ = sets.empty();
    let _ = registers(instr, member);
    let Some(from) = rs1(instr) else {
        return false;
    };
    let Some(to) = rd(instr) else {
        return false;
    };
    member.registers.copy_register(from, to);
    true
}
