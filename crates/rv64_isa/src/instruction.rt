ghost use Rattle.std.specs.Prelude.{◌≡◌};

use crate::opcode::{BRANCH, LOAD, OP, OP_32, OP_IMM, OP_IMM_32, STORE};
use crate::register::Reg;
use crate::row::{Form, Row};

/// A condition on two registers, under which a branch is taken.
#[derive(Clone, Copy, Debug, PartialEq, Eq)]
pub enum BranchOp {
    /// They are equal.
    Beq,
    /// They differ.
    Bne,
    /// The first is less, as signed numbers.
    Blt,
    /// The first is no less, as signed numbers.
    Bge,
    /// The first is less, as unsigned numbers.
    Bltu,
    /// The first is no less, as unsigned numbers.
    Bgeu,
}

impl BranchOp {
    ghost use Rattle.rv64_isa.specs.Rows.{branch_op_at, branch_row, IsRow};

    #[inline(always)]
    pub(crate) fn at(funct3: u32) -> Option<BranchOp>
        ensures { result ≡ branch_op_at funct3 }
    {
        match funct3 {
            0b000 => Some(BranchOp::Beq),
            0b001 => Some(BranchOp::Bne),
            0b100 => Some(BranchOp::Blt),
            0b101 => Some(BranchOp::Bge),
            0b110 => Some(BranchOp::Bltu),
            0b111 => Some(BranchOp::Bgeu),
            _ => None,
        }
    }

    #[inline(always)]
    pub(crate) fn row(self) -> Row
        ensures table { result ≡ branch_row self }
        ensures fits { IsRow result }
    {
        match self {
            BranchOp::Beq => Row::new(Form::B, BRANCH, 0b000, 0),
            BranchOp::Bne => Row::new(Form::B, BRANCH, 0b001, 0),
            BranchOp::Blt => Row::new(Form::B, BRANCH, 0b100, 0),
            BranchOp::Bge => Row::new(Form::B, BRANCH, 0b101, 0),
            BranchOp::Bltu => Row::new(Form::B, BRANCH, 0b110, 0),
            BranchOp::Bgeu => Row::new(Form::B, BRANCH, 0b111, 0),
        }
    }
}

/// What a load reads, and how it fills the register.
#[derive(Clone, Copy, Debug, PartialEq, Eq)]
pub enum LoadOp {
    /// A byte, its sign extended.
    Lb,
    /// Two bytes, the sign extended.
    Lh,
    /// Four bytes, the sign extended.
    Lw,
    /// Eight bytes.
    Ld,
    /// A byte, with zeros above.
    Lbu,
    /// Two bytes, with zeros above.
    Lhu,
    /// Four bytes, with zeros above.
    Lwu,
}

impl LoadOp {
    ghost use Rattle.rv64_isa.specs.Rows.{load_op_at, load_row, IsRow};

    #[inline(always)]
    pub(crate) fn at(funct3: u32) -> Option<LoadOp>
        ensures { result ≡ load_op_at funct3 }
    {
        match funct3 {
            0b000 => Some(LoadOp::Lb),
            0b001 => Some(LoadOp::Lh),
            0b010 => Some(LoadOp::Lw),
            0b011 => Some(LoadOp::Ld),
            0b100 => Some(LoadOp::Lbu),
            0b101 => Some(LoadOp::Lhu),
            0b110 => Some(LoadOp::Lwu),
            _ => None,
        }
    }

    #[inline(always)]
    pub(crate) fn row(self) -> Row
        ensures table { result ≡ load_row self }
        ensures fits { IsRow result }
    {
        match self {
            LoadOp::Lb => Row::new(Form::I, LOAD, 0b000, 0),
            LoadOp::Lh => Row::new(Form::I, LOAD, 0b001, 0),
            LoadOp::Lw => Row::new(Form::I, LOAD, 0b010, 0),
            LoadOp::Ld => Row::new(Form::I, LOAD, 0b011, 0),
            LoadOp::Lbu => Row::new(Form::I, LOAD, 0b100, 0),
            LoadOp::Lhu => Row::new(Form::I, LOAD, 0b101, 0),
            LoadOp::Lwu => Row::new(Form::I, LOAD, 0b110, 0),
        }
    }
}

/// How many of the register's low bytes a store writes.
#[derive(Clone, Copy, Debug, PartialEq, Eq)]
pub enum StoreOp {
    /// One.
    Sb,
    /// Two.
    Sh,
    /// Four.
    Sw,
    /// All eight.
    Sd,
}

impl StoreOp {
    ghost use Rattle.rv64_isa.specs.Rows.{store_op_at, store_row, IsRow};

    #[inline(always)]
    pub(crate) fn at(funct3: u32) -> Option<StoreOp>
        ensures { result ≡ store_op_at funct3 }
    {
        match funct3 {
            0b000 => Some(StoreOp::Sb),
            0b001 => Some(StoreOp::Sh),
            0b010 => Some(StoreOp::Sw),
            0b011 => Some(StoreOp::Sd),
            _ => None,
        }
    }

    #[inline(always)]
    pub(crate) fn row(self) -> Row
        ensures table { result ≡ store_row self }
        ensures fits { IsRow result }
    {
        match self {
            StoreOp::Sb => Row::new(Form::S, STORE, 0b000, 0),
            StoreOp::Sh => Row::new(Form::S, STORE, 0b001, 0),
            StoreOp::Sw => Row::new(Form::S, STORE, 0b010, 0),
            StoreOp::Sd => Row::new(Form::S, STORE, 0b011, 0),
        }
    }
}

/// An operation on a register and an immediate.
///
/// The immediate of a shift is the shift amount. The last four work on the low 32 bits, and the
/// sign of their result is extended.
#[derive(Clone, Copy, Debug, PartialEq, Eq)]
pub enum ImmOp {
    /// The sum, modulo 2^64.
    Addi,
    /// 1 where the register is less, as signed numbers, and else 0.
    Slti,
    /// The same, as unsigned numbers.
    Sltiu,
    /// Each bit that exactly one of them has.
    Xori,
    /// Each bit that one of them or both have.
    Ori,
    /// Each bit that both have.
    Andi,
    /// Bits moved up.
    Slli,
    /// Bits moved down, with zeros above.
    Srli,
    /// Bits moved down, with the sign above.
    Srai,
    /// The sum.
    Addiw,
    /// Bits moved up.
    Slliw,
    /// Bits moved down, with zeros above.
    Srliw,
    /// Bits moved down, with the sign above.
    Sraiw,
}

impl ImmOp {
    ghost use Rattle.rv64_isa.specs.Rows.{imm_op_at, imm_row, IsRow};

    #[inline(always)]
    pub(crate) fn at(opcode: u32, funct3: u32, funct7: u32) -> Option<ImmOp>
        ensures { result ≡ imm_op_at opcode funct3 funct7 }
    {
        match (opcode, funct3, funct7) {
            (OP_IMM, 0b000, _) => Some(ImmOp::Addi),
            (OP_IMM, 0b010, _) => Some(ImmOp::Slti),
            (OP_IMM, 0b011, _) => Some(ImmOp::Sltiu),
            (OP_IMM, 0b100, _) => Some(ImmOp::Xori),
            (OP_IMM, 0b110, _) => Some(ImmOp::Ori),
            (OP_IMM, 0b111, _) => Some(ImmOp::Andi),
            (OP_IMM, 0b001, 0b000_0000 | 0b000_0001) => Some(ImmOp::Slli),
            (OP_IMM, 0b101, 0b000_0000 | 0b000_0001) => Some(ImmOp::Srli),
            (OP_IMM, 0b101, 0b010_0000 | 0b010_0001) => Some(ImmOp::Srai),
            (OP_IMM_32, 0b000, _) => Some(ImmOp::Addiw),
            (OP_IMM_32, 0b001, 0b000_0000) => Some(ImmOp::Slliw),
            (OP_IMM_32, 0b101, 0b000_0000) => Some(ImmOp::Srliw),
            (OP_IMM_32, 0b101, 0b010_0000) => Some(ImmOp::Sraiw),
            _ => None,
        }
    }

    #[inline(always)]
    pub(crate) fn row(self) -> Row
        ensures table { result ≡ imm_row self }
        ensures fits { IsRow result }
    {
        match self {
            ImmOp::Addi => Row::new(Form::I, OP_IMM, 0b000, 0),
            ImmOp::Slti => Row::new(Form::I, OP_IMM, 0b010, 0),
            ImmOp::Sltiu => Row::new(Form::I, OP_IMM, 0b011, 0),
            ImmOp::Xori => Row::new(Form::I, OP_IMM, 0b100, 0),
            ImmOp::Ori => Row::new(Form::I, OP_IMM, 0b110, 0),
            ImmOp::Andi => Row::new(Form::I, OP_IMM, 0b111, 0),
            ImmOp::Slli => Row::new(Form::Shift, OP_IMM, 0b001, 0b00_0000),
            ImmOp::Srli => Row::new(Form::Shift, OP_IMM, 0b101, 0b00_0000),
            ImmOp::Srai => Row::new(Form::Shift, OP_IMM, 0b101, 0b01_0000),
            ImmOp::Addiw => Row::new(Form::I, OP_IMM_32, 0b000, 0),
            ImmOp::Slliw => Row::new(Form::WordShift, OP_IMM_32, 0b001, 0b000_0000),
            ImmOp::Srliw => Row::new(Form::WordShift, OP_IMM_32, 0b101, 0b000_0000),
            ImmOp::Sraiw => Row::new(Form::WordShift, OP_IMM_32, 0b101, 0b010_0000),
        }
    }
}

/// An operation on two registers.
///
/// A shift takes its amount from the low bits of the second: six, and five for the last three.
/// The last five work on the low 32 bits, and the sign of their result is extended.
#[derive(Clone, Copy, Debug, PartialEq, Eq)]
pub enum RegOp {
    /// The sum, modulo 2^64.
    Add,
    /// The difference, modulo 2^64.
    Sub,
    /// Bits moved up.
    Sll,
    /// 1 where the first is less, as signed numbers, and else 0.
    Slt,
    /// The same, as unsigned numbers.
    Sltu,
    /// Each bit that exactly one of them has.
    Xor,
    /// Bits moved down, with zeros above.
    Srl,
    /// Bits moved down, with the sign above.
    Sra,
    /// Each bit that one of them or both have.
    Or,
    /// Each bit that both have.
    And,
    /// The sum.
    Addw,
    /// The difference.
    Subw,
    /// Bits moved up.
    Sllw,
    /// Bits moved down, with zeros above.
    Srlw,
    /// Bits moved down, with the sign above.
    Sraw,
}

impl RegOp {
    ghost use Rattle.rv64_isa.specs.Rows.{reg_op_at, reg_row, IsRow};

    #[inline(always)]
    pub(crate) fn at(opcode: u32, funct3: u32, funct7: u32) -> Option<RegOp>
        ensures { result ≡ reg_op_at opcode funct3 funct7 }
    {
        match (opcode, funct3, funct7) {
            (OP, 0b000, 0b000_0000) => Some(RegOp::Add),
            (OP, 0b000, 0b010_0000) => Some(RegOp::Sub),
            (OP, 0b001, 0b000_0000) => Some(RegOp::Sll),
            (OP, 0b010, 0b000_0000) => Some(RegOp::Slt),
            (OP, 0b011, 0b000_0000) => Some(RegOp::Sltu),
            (OP, 0b100, 0b000_0000) => Some(RegOp::Xor),
            (OP, 0b101, 0b000_0000) => Some(RegOp::Srl),
            (OP, 0b101, 0b010_0000) => Some(RegOp::Sra),
            (OP, 0b110, 0b000_0000) => Some(RegOp::Or),
            (OP, 0b111, 0b000_0000) => Some(RegOp::And),
            (OP_32, 0b000, 0b000_0000) => Some(RegOp::Addw),
            (OP_32, 0b000, 0b010_0000) => Some(RegOp::Subw),
            (OP_32, 0b001, 0b000_0000) => Some(RegOp::Sllw),
            (OP_32, 0b101, 0b000_0000) => Some(RegOp::Srlw),
            (OP_32, 0b101, 0b010_0000) => Some(RegOp::Sraw),
            _ => None,
        }
    }

    #[inline(always)]
    pub(crate) fn row(self) -> Row
        ensures table { result ≡ reg_row self }
        ensures fits { IsRow result }
    {
        match self {
            RegOp::Add => Row::new(Form::R, OP, 0b000, 0b000_0000),
            RegOp::Sub => Row::new(Form::R, OP, 0b000, 0b010_0000),
            RegOp::Sll => Row::new(Form::R, OP, 0b001, 0b000_0000),
            RegOp::Slt => Row::new(Form::R, OP, 0b010, 0b000_0000),
            RegOp::Sltu => Row::new(Form::R, OP, 0b011, 0b000_0000),
            RegOp::Xor => Row::new(Form::R, OP, 0b100, 0b000_0000),
            RegOp::Srl => Row::new(Form::R, OP, 0b101, 0b000_0000),
            RegOp::Sra => Row::new(Form::R, OP, 0b101, 0b010_0000),
            RegOp::Or => Row::new(Form::R, OP, 0b110, 0b000_0000),
            RegOp::And => Row::new(Form::R, OP, 0b111, 0b000_0000),
            RegOp::Addw => Row::new(Form::R, OP_32, 0b000, 0b000_0000),
            RegOp::Subw => Row::new(Form::R, OP_32, 0b000, 0b010_0000),
            RegOp::Sllw => Row::new(Form::R, OP_32, 0b001, 0b000_0000),
            RegOp::Srlw => Row::new(Form::R, OP_32, 0b101, 0b000_0000),
            RegOp::Sraw => Row::new(Form::R, OP_32, 0b101, 0b010_0000),
        }
    }
}

/// An instruction of RV64I. Immediates are sign-extended, but for shift amounts.
#[derive(Clone, Copy, Debug, PartialEq, Eq)]
pub enum Instr {
    /// `rd` becomes `imm`, a multiple of 4096.
    Lui {
        rd: Reg,
        imm: i64,
    },
    /// `rd` becomes the instruction's address plus `imm`, a multiple of 4096.
    Auipc {
        rd: Reg,
        imm: i64,
    },
    /// A jump by `imm`, which is even. `rd` becomes the address of the next instruction.
    Jal {
        rd: Reg,
        imm: i64,
    },
    /// A jump to `rs1` plus `imm`, the lowest bit cleared. `rd` becomes the address of the next
    /// instruction.
    Jalr {
        rd: Reg,
        rs1: Reg,
        imm: i64,
    },
    /// A jump by `imm`, which is even, where the condition holds of `rs1` and `rs2`.
    Branch {
        op: BranchOp,
        rs1: Reg,
        rs2: Reg,
        imm: i64,
    },
    /// `rd` becomes what the memory holds at `rs1` plus `imm`.
    Load {
        op: LoadOp,
        rd: Reg,
        rs1: Reg,
        imm: i64,
    },
    /// The memory at `rs1` plus `imm` becomes the low bytes of `rs2`.
    Store {
        op: StoreOp,
        rs1: Reg,
        rs2: Reg,
        imm: i64,
    },
    /// `rd` becomes the operation's result on `rs1` and `imm`.
    Imm {
        op: ImmOp,
        rd: Reg,
        rs1: Reg,
        imm: i64,
    },
    /// `rd` becomes the operation's result on `rs1` and `rs2`.
    Op {
        op: RegOp,
        rd: Reg,
        rs1: Reg,
        rs2: Reg,
    },
    /// An order of memory accesses. The word is kept, since its other bits say which.
    Fence {
        word: u32,
    },
    /// A request to the environment, which the registers describe.
    Ecall,
    /// A call of a debugger.
    Ebreak,
}
