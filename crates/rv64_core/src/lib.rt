//! One instruction of an RV64I hart: it is fetched, decoded and executed.
//!
//! Names and effects are those of the RISC-V unprivileged manual, chapters "RV32I Base Integer
//! Instruction Set" and "RV64I Base Integer Instruction Set".
#![tactic(auto)]

mod accesses;
mod decoder;
mod execution;
mod flow;
mod outcome;
mod registers;
mod stepping;
mod values;

pub use decoder::Decoder;
pub use execution::{accessed, execute};
pub use outcome::{Outcome, Planned, Prospect};
pub use stepping::{is_at_call, next_instr, next_instr_with, step, step_with};
