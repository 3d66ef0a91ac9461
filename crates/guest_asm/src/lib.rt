//! The assembler: a program's text as an image.
#![tactic(auto)]

mod assembling;
mod checking;
mod encoding;
mod fault;
mod faults;
mod fields;
mod images;
mod items;
mod labels;
mod meanings;
mod places;
mod splitting;

pub use asm_text::AsmKind;
pub use assembling::assemble;
pub use fault::AsmError;
