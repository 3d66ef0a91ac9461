//! The instruction table of RV64I: words of 32 bits as instructions, and back.
//!
//! Names, fields and forms are those of the RISC-V unprivileged manual, chapters "RV32I Base
//! Integer Instruction Set" and "RV64I Base Integer Instruction Set".
#![tactic(auto)]

mod decoding;
mod encoding;
mod fields;
mod instruction;
mod opcode;
mod register;
mod row;

pub use decoding::decode;
pub use encoding::encode;
pub use instruction::{BranchOp, ImmOp, Instr, LoadOp, RegOp, StoreOp};
pub use register::Reg;
