// An instruction of a member.
ghost use Rattle.std.specs.Prelude.{◌≡◌, ℕ, List, None, take, length, replicate, unwrap_or, IsTrue, OnOk};
ghost use Rattle.rv64_model.specs.Operands as operands;
ghost use Rattle.taint_flow.specs.Silent.{AreEmpty};
ghost use Rattle.taint_spans.specs.Numbered.{StandAsBefore};
ghost use Rattle.taint_members.specs.Access.{HoldsKeys};
ghost use Rattle.taint_steps.specs.Running.{Runs, Stores, WritesRegister};
ghost use Rattle.taint_steps.specs.Taking.{AreSetsAt, AreSetsIn, IsRegister};

use crate::moving::{move_loaded, move_register, move_stored};
use crate::taking::{registers, taken};
use arn_base::{Cpu, NoMemory};
use rv64_core::accessed;
use rv64_isa::{Instr, Reg};
use rv64_model::Linkage;
use taint_flow::{is_silent, rd, rs1, rs2, stored_len, takes_nothing};
use taint_members::{MemberSets, write};
use taint_pages::{Row, SetNumbers};
use taint_spans::SpanSets;

/// Sets the numbers of the register that is written, if there is one that isn't x0.
#[inline(always)]
fn write_register(row: &mut Row, rd: Option<Reg>, numbers: &[u32])
    requires eight { length numbers.now ≡ 8 }
    ensures { WritesRegister (unwrap_or rd 0) numbers.now row.old row.new }
{
    let Some(reg) = rd else {
        return;
    };
    if reg.number() > 0 {
        row.put(reg, numbers);
    }
}

/// Sets the numbers of the register that is written to 0, if there is one that isn't x0.
#[inline(always)]
fn clear_register(row: &mut Row, rd: Option<Reg>)
    ensures { WritesRegister (unwrap_or rd 0) (replicate 8 0) row.old row.new }
{
    match rd {
        Some(reg) if reg.number() > 0 => row.clear(reg),
        _ => {}
    }
}

/// Whether each byte of a register has the empty set. False may be answered of one whose bytes have it.
#[inline(always)]
fn is_register_clear(row: &Row, reg: Reg) -> bool
    ensures { IsTrue result → (numbers : List ℕ) → IsRegister row.now reg numbers → AreEmpty numbers }
{
    reg.number() == 0 || row.is_clear(reg)
}

/// The same of one that may be named.
#[inline(always)]
fn is_clear(row: &Row, reg: Option<Reg>) -> bool
    ensures { IsTrue result → (numbers : List ℕ) → IsRegister row.now (unwrap_or reg 0) numbers →
        AreEmpty numbers }
{
    match reg {
        Some(reg) => is_register_clear(row, reg),
        None => true,
    }
}

/// Whether an instruction accesses no memory, and each byte of the registers that it reads has the empty set. False may be answered of
/// others too.
#[inline(always)]
fn reads_nothing(instr: &Instr, before: &Cpu, row: &Row) -> bool
    ensures apart { IsTrue result → operands.accessed instr.now before.now ≡ None }
    ensures first { IsTrue result → (numbers : List ℕ) →
        IsRegister row.now (operands.rs1_of instr.now) numbers → AreEmpty numbers }
    ensures second { IsTrue result → (numbers : List ℕ) →
        IsRegister row.now (operands.rs2_of instr.now) numbers → AreEmpty numbers }
{
    is_clear(row, rs1(instr)) && is_clear(row, rs2(instr)) && accessed(instr, before).is_none()
}

/// Sets the numbers of the bytes that are stored, if there are any.
#[inline(always)]
fn store(
    instr: &Instr,
    before: &Cpu,
    member: &MemberSets,
    memories: &mut [SetNumbers],
    numbers: &[u32],
) -> Result<(), NoMemory>
    requires eight { length numbers.now ≡ 8 }
    requires held { HoldsKeys member.now memories.old }
    ensures memory { OnOk result (Stores (operands.accessed instr.now before.now)
        (take (operands.stored_len instr.now) numbers.now) member.now memories.old memories.new) }
    ensures keys { length memories.new ≡ length memories.old }
{
    let len = stored_len(instr);
    if len == 0 {
        return Ok(());
    }
    match accessed(instr, before) {
        Some(at) => write(member, memories, at, &numbers[..len]),
        None => Ok(()),
    }
}

// A member runs any instruction that the next one follows. It gets the instruction by value, so that that of the caller needs no
// place in memory.
#[inline(never)]
fn run_any(
    sets: &mut SpanSets,
    linkage: Linkage,
    instr: Instr,
    before: &Cpu,
    member: &mut MemberSets,
    memories: &mut [SetNumbers],
) -> Result<(), NoMemory>
    requires held { HoldsKeys member.old memories.old }
    requires registers { AreSetsIn sets.old member.old.registers }
    requires memory { AreSetsAt sets.old member.old memories.old }
    ensures runs { OnOk result (Runs linkage instr before.now member.old member.new
        memories.old memories.new sets.old sets.new) }
    ensures before { StandAsBefore sets.old sets.new }
    ensures keys { length memories.new ≡ length memories.old }
{
    // Asked for what is promised of them: nothing is done with them.
    let _ = registers(&instr, member);
    takes_nothing(sets);
    if reads_nothing(&instr, before, &member.registers) {
        clear_register(&mut member.registers, rd(&instr));
        return Ok(());
    }
    let numbers = taken(sets, linkage, &instr, before, member, memories)?;
    write_register(&mut member.registers, rd(&instr), &numbers);
    store(&instr, before, member, memories, &numbers)
}

/// A member runs an instruction that the next one follows: its register, or the bytes that it stores, have the sets
/// of what it takes.
#[inline(always)]
pub fn run(
    sets: &mut SpanSets,
    linkage: Linkage,
    instr: &Instr,
    before: &Cpu,
    member: &mut MemberSets,
    memories: &mut [SetNumbers],
) -> Result<(), NoMemory>
    requires held { HoldsKeys member.old memories.old }
    requires registers { AreSetsIn sets.old member.old.registers }
    requires memory { AreSetsAt sets.old member.old memories.old }
    ensures runs { OnOk result (Runs linkage instr.now before.now member.old member.new
        memories.old memories.new sets.old sets.new) }
    ensures before { StandAsBefore sets.old sets.new }
    ensures keys { length memories.new ≡ length memories.old }
{
    // Asked for what is promised of both: nothing is done with them.
    let _ = sets.empty();
    let _ = registers(instr, member);
    if is_silent(sets, linkage, instr) {
        clear_register(&mut member.registers, rd(instr));
        return Ok(());
    }
    if move_register(sets, linkage, instr, member) {
        return Ok(());
    }
    if move_loaded(sets, linkage, instr, before, member, memories) {
        return Ok(());
    }
    if move_stored(sets, linkage, instr, before, member, memories)? {
        return Ok(());
    }
    run_any(sets, linkage, *instr, before, member, memories)
}
