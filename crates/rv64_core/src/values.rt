// What instructions work out from values of 64 bits.
ghost use Rattle.std.specs.Prelude.{◌≡◌, ◌%◌, ◌^◌};
ghost use Rattle.std.specs.Int.{cast_unsigned, w64};
ghost use Rattle.rv64_model.specs.Values.{reg_result as reg_result_of};
ghost use Rattle.rv64_model.specs.Values.{imm_result as imm_result_of, is_taken as is_taken_by};

use rv64_isa::{BranchOp, ImmOp, RegOp};
use rv64_model::reg_op;

// What an operation gives at the values of two registers.
#[inline(always)]
pub(crate) fn reg_result(op: RegOp, a: u64, b: u64) -> u64
    ensures { result ≡ reg_result_of op a b }
{
    match op {
        RegOp::Add => a.wrapping_add(b),
        RegOp::Sub => a.wrapping_sub(b),
        RegOp::Sll => a << shift_amount(b),
        RegOp::Slt => (a.cast_signed() < b.cast_signed()) as u64,
        RegOp::Sltu => (a < b) as u64,
        RegOp::Xor => a ^ b,
        RegOp::Srl => a >> shift_amount(b),
        RegOp::Sra => (a.cast_signed() >> shift_amount(b)).cast_unsigned(),
        RegOp::Or => a | b,
        RegOp::And => a & b,
        RegOp::Addw => extended(low_word(a).wrapping_add(low_word(b)).cast_signed()),
        RegOp::Subw => extended(low_word(a).wrapping_sub(low_word(b)).cast_signed()),
        RegOp::Sllw => extended((low_word(a) << word_shift_amount(b)).cast_signed()),
        RegOp::Srlw => extended((low_word(a) >> word_shift_amount(b)).cast_signed()),
        RegOp::Sraw => extended(low_word(a).cast_signed() >> word_shift_amount(b)),
    }
}

// What an operation gives at the value of a register and an immediate, which takes the place of the
// second register.
#[inline(always)]
pub(crate) fn imm_result(op: ImmOp, value: u64, imm: i64) -> u64
    ensures { result ≡ imm_result_of op value imm }
{
    reg_result(reg_op(op), value, imm.cast_unsigned())
}

// Whether a branch is taken at the values of two registers.
#[inline(always)]
pub(crate) fn is_taken(op: BranchOp, a: u64, b: u64) -> bool
    ensures { result ≡ is_taken_by op a b }
{
    match op {
        BranchOp::Beq => a == b,
        BranchOp::Bne => a != b,
        BranchOp::Blt => a.cast_signed() < b.cast_signed(),
        BranchOp::Bge => a.cast_signed() >= b.cast_signed(),
        BranchOp::Bltu => a < b,
        BranchOp::Bgeu => a >= b,
    }
}

// The low 32 bits of a value.
#[inline(always)]
fn low_word(value: u64) -> u32
    ensures { result ≡ value % 2 ^ 32 }
{
    (value % (1 << 32)) as u32
}

// How far a value of 64 bits is shifted: by the low 6 bits.
#[inline(always)]
fn shift_amount(value: u64) -> u32
    ensures { result ≡ value % 64 }
{
    (value % 64) as u32
}

// How far one of 32 bits is shifted: by the low 5.
#[inline(always)]
fn word_shift_amount(value: u64) -> u32
    ensures { result ≡ value % 32 }
{
    (value % 32) as u32
}

// A value of 32 bits, its sign extended.
#[inline(always)]
fn extended(value: i32) -> u64
    ensures { result ≡ cast_unsigned w64 value }
{
    i64::from(value).cast_unsigned()
}
