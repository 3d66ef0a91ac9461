// The sets of what an instruction writes.
ghost use Rattle.std.specs.Prelude.{◌≡◌, ◌<◌, ℕ, IfOk, unwrap_or};
ghost use Rattle.rv64_model.specs.Operands as operands;
ghost use Rattle.taint_spans.specs.Numbered.{StandAsBefore};
ghost use Rattle.taint_flow.specs.Names as names;
ghost use Rattle.taint_members.specs.Access.{HoldsKeys};
ghost use Rattle.taint_pages.specs.Rows.{AreBytes};
ghost use Rattle.taint_steps.specs.Taking.{AreSetsAt, AreSetsIn, IsRead, IsRegister, Takes};

use arn_base::{Cpu, NoMemory};
use rv64_core::accessed;
use rv64_isa::{Instr, Reg};
use rv64_model::Linkage;
use taint_flow::{loaded_len, results, rs1, rs2};
use taint_members::{MemberSets, read};
use taint_pages::{Row, SetNumbers};
use taint_spans::SpanSets;

/// The numbers of no bytes.
static NO_BYTES: [u32; 8] = [0; 8];

/// The numbers of the bytes of a register, zeros for x0 and where none is named.
#[inline(always)]
pub fn bytes_of(row: &Row, reg: Option<Reg>) -> &[u32]
    ensures { IsRegister row.now (unwrap_or reg 0) result.now }
{
    match reg {
        Some(reg) if reg.number() > 0 => row.bytes(reg),
        _ => NO_BYTES.as_slice(),
    }
}

/// The numbers of the bytes of both registers that an instruction reads. It stays a call,
/// so that its callers are small. Where the answer isn't used, the compiler drops it.
#[inline(never)]
pub fn registers<'a>(instr: &Instr, member: &'a MemberSets) -> (&'a [u32], &'a [u32])
    ensures first { IsRegister member.now.registers (operands.rs1_of instr.now) result.0.now }
    ensures second { IsRegister member.now.registers (operands.rs2_of instr.now) result.1.now }
{
    (
        bytes_of(&member.registers, rs1(instr)),
        bytes_of(&member.registers, rs2(instr)),
    )
}

/// The numbers of the bytes that an instruction loads, and zeros behind them.
#[inline(always)]
fn loaded(instr: &Instr, before: &Cpu, member: &MemberSets, memories: &[SetNumbers]) -> [u32; 8]
    requires held { HoldsKeys member.now memories.now }
    ensures { IsRead (operands.accessed instr.now before.now) (names.loaded_len instr.now)
        member.now memories.now result }
{
    let len = loaded_len(instr);
    if len == 0 {
        return [0; 8];
    }
    match accessed(instr, before) {
        Some(at) => read(member, memories, at, len),
        None => [0; 8],
    }
}

/// The sets of the bytes that an instruction writes to its register, or of those that it stores.
#[inline(always)]
pub fn taken(
    sets: &mut SpanSets,
    linkage: Linkage,
    instr: &Instr,
    before: &Cpu,
    member: &MemberSets,
    memories: &[SetNumbers],
) -> Result<[u32; 8], NoMemory>
    requires held { HoldsKeys member.now memories.now }
    requires registers { AreSetsIn sets.old member.now.registers }
    requires memory { AreSetsAt sets.old member.now memories.now }
    ensures takes { IfOk result
        (Takes sets.old sets.new linkage instr.now before.now member.now memories.now) }
    ensures before { StandAsBefore sets.old sets.new }
{
    let _ = sets.empty();
    let loaded = loaded(instr, before, member, memories);
    let (first, second) = registers(instr, member);
    results(sets, linkage, instr, first, second, &loaded)
}
