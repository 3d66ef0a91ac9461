use crate::fault::AsmKind;
use rv64_isa::{BranchOp, ImmOp, Instr, LoadOp, Reg, StoreOp};

/// A number as it is written. Of one that no field can hold only that is kept.
#[derive(Clone, Copy)]
pub enum Number {
    /// Its magnitude is below 2^63.
    Small { value: i64 },
    /// Its magnitude is 2^63 or more.
    Large,
}

/// A statement of a text, with its numbers and labels as they are written. The short forms stand as
/// what they are short for.
#[derive(Clone, Copy)]
pub enum Statement<'a> {
    Nothing,
    Label {
        name: &'a [u8],
    },
    /// The upper 20 bits of a constant.
    Lui {
        rd: Reg,
        imm: Number,
    },
    Auipc {
        rd: Reg,
        imm: Number,
    },
    Jal {
        rd: Reg,
        label: &'a [u8],
    },
    Jalr {
        rd: Reg,
        rs1: Reg,
        imm: Number,
    },
    Branch {
        op: BranchOp,
        rs1: Reg,
        rs2: Reg,
        label: &'a [u8],
    },
    Load {
        op: LoadOp,
        rd: Reg,
        rs1: Reg,
        imm: Number,
    },
    Store {
        op: StoreOp,
        rs1: Reg,
        rs2: Reg,
        imm: Number,
    },
    Imm {
        op: ImmOp,
        rd: Reg,
        rs1: Reg,
        imm: Number,
    },
    /// An instruction that stands as it is.
    Plain {
        instr: Instr,
    },
    /// The address of a label.
    Address {
        rd: Reg,
        label: &'a [u8],
    },
    /// Bytes: the text of the operands, each of which is a number.
    Bytes {
        operands: &'a [u8],
    },
    /// So many zeros.
    Zeros {
        count: Number,
    },
}

/// What is read of a statement, or why nothing is.
#[derive(Clone, Copy)]
pub enum StatementReading<'a> {
    Says(Statement<'a>),
    Wrong(AsmKind),
}
