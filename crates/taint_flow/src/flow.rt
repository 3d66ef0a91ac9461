// Where the bytes of a result come from.
ghost use Rattle.std.specs.Prelude.{◌≡◌, ◌≢◌, ◌↔◌, ◌==◌, ℕ, ℤ, suc, if◌then◌else◌};
ghost use Rattle.rv64_isa.specs.declared.instruction.Instr.TheVariants as instr;
ghost use Rattle.rv64_model.specs.Carries.{operands};
ghost use Rattle.rv64_model.specs.declared.linkage.Linkage.TheVariants.{Index};
ghost use Rattle.taint_flow.specs.Flow.{IsFirst, IsFlow, IsMemory, IsSecond};
ghost use Rattle.taint_flow.specs.Moving.{Fills, Keeps};
ghost use Rattle.taint_flow.specs.declared.flow.Flow.TheVariants.{Nothing};

use rv64_isa::{ImmOp, Instr, LoadOp, Reg, RegOp, StoreOp};
use rv64_model::{Linkage, load_len, store_len};

/// Where the bytes of an instruction's result come from.
#[derive(Clone, Copy)]
pub enum Flow {
    /// They take nothing.
    Nothing,
    /// Each is that of the first register.
    First,
    /// Those below this one are those of the second register, and the others take nothing.
    Second(u8),
    /// Those below this one are those that are loaded, and the others take nothing.
    Memory(u8),
    /// Those below this one are those that are loaded, and the others are that of the last of them, their sign.
    Extended(usize),
    /// Each is worked out from that of the first register and all below it, those from this one on from the one below it.
    Rising(usize),
    /// The same of both registers.
    Carried(usize),
    /// Each is worked out from all bytes of the first register below this one.
    Whole(usize),
    /// Each is worked out from those of both registers in its place.
    Bytewise,
    /// They take several bytes in another way.
    Mixed,
}

// A write to x0 is lost.
#[inline(always)]
fn unless_x0(rd: Reg, flow: Flow) -> Flow
    ensures { result ≡ (if rd == 0 then Nothing else flow) }
{
    if rd.number() == 0 {
        Flow::Nothing
    } else {
        flow
    }
}

/// Where the bytes of a register come from that is loaded, and isn't x0.
#[inline(always)]
pub fn of_load(linkage: Linkage, op: LoadOp) -> Flow
    ensures moves { IsMemory result ↔ Fills linkage op }
    ensures flow { (rd rs1 : ℕ) (imm : ℤ) →
        IsFlow result (operands linkage (instr.Load op (suc rd) rs1 imm)) }
{
    match (linkage, op) {
        (Linkage::Copy, _)
        | (Linkage::Data, LoadOp::Ld | LoadOp::Lbu | LoadOp::Lhu | LoadOp::Lwu) => {
            Flow::Memory(load_len(op))
        }
        (Linkage::Data, LoadOp::Lb | LoadOp::Lh | LoadOp::Lw) => {
            Flow::Extended(usize::from(load_len(op)))
        }
        _ => Flow::Mixed,
    }
}

/// Where the bytes that are stored come from.
#[inline(always)]
pub fn of_store(linkage: Linkage, op: StoreOp) -> Flow
    ensures moves { IsSecond result ↔ linkage ≢ Index }
    ensures flow { (rs1 rs2 : ℕ) (imm : ℤ) →
        IsFlow result (operands linkage (instr.Store op rs1 rs2 imm)) }
{
    match linkage {
        Linkage::Copy | Linkage::Data => Flow::Second(store_len(op)),
        Linkage::Index => Flow::Mixed,
    }
}

/// Where the bytes of a register come from that is worked out from another one and a number, and isn't x0.
#[inline(always)]
pub fn of_immediate(linkage: Linkage, op: ImmOp, imm: i64) -> Flow
    ensures moves { IsFirst result ↔ Keeps linkage op imm }
    ensures flow { (rd rs1 : ℕ) → IsFlow result (operands linkage (instr.Imm op (suc rd) rs1 imm)) }
{
    match (linkage, op) {
        (_, ImmOp::Addi) if imm == 0 => Flow::First,
        (Linkage::Copy, _) => Flow::Nothing,
        (_, ImmOp::Addi) => Flow::Rising(8),
        (_, ImmOp::Addiw) => Flow::Rising(4),
        (_, ImmOp::Xori | ImmOp::Ori | ImmOp::Andi) => Flow::First,
        (_, ImmOp::Slli | ImmOp::Srli | ImmOp::Srai) => Flow::Whole(8),
        (_, ImmOp::Slliw | ImmOp::Srliw | ImmOp::Sraiw) => Flow::Whole(4),
        _ => Flow::Mixed,
    }
}

#[inline(always)]
fn of_operation(linkage: Linkage, op: RegOp) -> Flow
    ensures { (rd rs1 rs2 : ℕ) →
        IsFlow result (operands linkage (instr.Op op (suc rd) rs1 rs2)) }
{
    match (linkage, op) {
        (Linkage::Copy, _) => Flow::Nothing,
        (_, RegOp::Add | RegOp::Sub) => Flow::Carried(8),
        (_, RegOp::Addw | RegOp::Subw) => Flow::Carried(4),
        (_, RegOp::Xor | RegOp::Or | RegOp::And) => Flow::Bytewise,
        _ => Flow::Mixed,
    }
}

/// Where the bytes of an instruction's result come from.
#[inline(always)]
pub fn result_flow(linkage: Linkage, instr: &Instr) -> Flow
    ensures { IsFlow result (operands linkage instr.now) }
{
    match *instr {
        Instr::Load { op, rd, .. } => unless_x0(rd, of_load(linkage, op)),
        Instr::Store { op, .. } => of_store(linkage, op),
        Instr::Imm { op, rd, imm, .. } => unless_x0(rd, of_immediate(linkage, op, imm)),
        Instr::Op { op, rd, .. } => unless_x0(rd, of_operation(linkage, op)),
        Instr::Lui { .. }
        | Instr::Auipc { .. }
        | Instr::Jal { .. }
        | Instr::Jalr { .. }
        | Instr::Branch { .. }
        | Instr::Fence { .. }
        | Instr::Ecall
        | Instr::Ebreak => Flow::Nothing,
    }
}
