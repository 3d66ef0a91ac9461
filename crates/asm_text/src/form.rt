use rv64_isa::{BranchOp, ImmOp, LoadOp, RegOp, StoreOp};

/// What a word says, and with it which operands stand behind it.
#[derive(Clone, Copy)]
pub enum Form {
    /// `rd, imm`
    Lui,
    /// `rd, imm`
    Auipc,
    /// `rd, label`
    Jal,
    /// `rd, imm(rs1)`
    Jalr,
    /// `rs1, rs2, label`
    Branch(BranchOp),
    /// `rd, imm(rs1)`
    Load(LoadOp),
    /// `rs2, imm(rs1)`
    Store(StoreOp),
    /// `rd, rs1, imm`
    Imm(ImmOp),
    /// `rd, rs1, rs2`
    Op(RegOp),
    Fence,
    Ecall,
    Ebreak,
    /// `rd, imm`: ADDI of x0
    Li,
    /// `rd, rs`: ADDI of 0
    Mv,
    /// `label`: JAL without a link
    J,
    /// `rd, label`: LUI and ADDI
    La,
    /// `n, n, ..`: bytes
    Byte,
    /// `n`: so many zeros
    Zero,
}
