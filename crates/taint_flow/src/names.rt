// What an instruction names.
ghost use Rattle.std.specs.Prelude.{◌≡◌, ◌≤◌, unwrap_or};
ghost use Rattle.rv64_model.specs.Operands as operands;
ghost use Rattle.taint_flow.specs.Names.{loaded_len as loaded_len_of};

use rv64_isa::{Instr, Reg};
use rv64_model::{load_len, store_len};

/// The first register that it reads, if it does.
#[inline(always)]
pub fn rs1(instr: &Instr) -> Option<Reg>
    ensures { unwrap_or result 0 ≡ operands.rs1_of instr.now }
{
    match *instr {
        Instr::Jalr { rs1, .. }
        | Instr::Branch { rs1, .. }
        | Instr::Load { rs1, .. }
        | Instr::Store { rs1, .. }
        | Instr::Imm { rs1, .. }
        | Instr::Op { rs1, .. } => Some(rs1),
        _ => None,
    }
}

/// The second register that it reads.
#[inline(always)]
pub fn rs2(instr: &Instr) -> Option<Reg>
    ensures { unwrap_or result 0 ≡ operands.rs2_of instr.now }
{
    match *instr {
        Instr::Branch { rs2, .. } | Instr::Store { rs2, .. } | Instr::Op { rs2, .. } => Some(rs2),
        _ => None,
    }
}

/// The register that it writes.
#[inline(always)]
pub fn rd(instr: &Instr) -> Option<Reg>
    ensures { unwrap_or result 0 ≡ operands.rd_of instr.now }
{
    match *instr {
        Instr::Lui { rd, .. }
        | Instr::Auipc { rd, .. }
        | Instr::Jal { rd, .. }
        | Instr::Jalr { rd, .. }
        | Instr::Load { rd, .. }
        | Instr::Imm { rd, .. }
        | Instr::Op { rd, .. } => Some(rd),
        _ => None,
    }
}

/// How many bytes it loads.
#[inline(always)]
pub fn loaded_len(instr: &Instr) -> usize
    ensures len { result ≡ loaded_len_of instr.now }
    ensures few { result ≤ 8 }
{
    match *instr {
        Instr::Load { op, .. } => usize::from(load_len(op)),
        _ => 0,
    }
}

/// How many bytes it stores.
#[inline(always)]
pub fn stored_len(instr: &Instr) -> usize
    ensures len { result ≡ operands.stored_len instr.now }
    ensures few { result ≤ 8 }
{
    match *instr {
        Instr::Store { op, .. } => usize::from(store_len(op)),
        _ => 0,
    }
}
