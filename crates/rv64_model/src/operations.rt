// What an operation alone tells: how many bytes it moves, and which other it is like.
ghost use Rattle.std.specs.Prelude.{◌≡◌, ◌≤◌};
ghost use Rattle.arn_base.specs.Window.{IsAccessLength};
ghost use Rattle.rv64_model.specs.Operands.{store_len as store_len_of};
ghost use Rattle.rv64_model.specs.Values.{load_len as load_len_of, reg_op as reg_op_of};

use rv64_isa::{ImmOp, LoadOp, RegOp, StoreOp};

/// How many bytes a load reads.
#[inline(always)]
pub fn load_len(op: LoadOp) -> u8
    ensures len { result ≡ load_len_of op }
    ensures fits { IsAccessLength result }
    ensures few { result ≤ 8 }
{
    match op {
        LoadOp::Lb | LoadOp::Lbu => 1,
        LoadOp::Lh | LoadOp::Lhu => 2,
        LoadOp::Lw | LoadOp::Lwu => 4,
        LoadOp::Ld => 8,
    }
}

/// How many bytes a store writes.
#[inline(always)]
pub fn store_len(op: StoreOp) -> u8
    ensures len { result ≡ store_len_of op }
    ensures fits { IsAccessLength result }
    ensures few { result ≤ 8 }
{
    match op {
        StoreOp::Sb => 1,
        StoreOp::Sh => 2,
        StoreOp::Sw => 4,
        StoreOp::Sd => 8,
    }
}

/// The operation on two registers that an immediate form carries out.
#[inline(always)]
pub fn reg_op(op: ImmOp) -> RegOp
    ensures { result ≡ reg_op_of op }
{
    match op {
        ImmOp::Addi => RegOp::Add,
        ImmOp::Slti => RegOp::Slt,
        ImmOp::Sltiu => RegOp::Sltu,
        ImmOp::Xori => RegOp::Xor,
        ImmOp::Ori => RegOp::Or,
        ImmOp::Andi => RegOp::And,
        ImmOp::Slli => RegOp::Sll,
        ImmOp::Srli => RegOp::Srl,
        ImmOp::Srai => RegOp::Sra,
        ImmOp::Addiw => RegOp::Addw,
        ImmOp::Slliw => RegOp::Sllw,
        ImmOp::Srliw => RegOp::Srlw,
        ImmOp::Sraiw => RegOp::Sraw,
    }
}
