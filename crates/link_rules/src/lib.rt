//! Which bytes of its operands a byte of an instruction's result takes, as masks.
#![tactic(auto)]

mod masks;
mod rules;

pub use masks::Operands;
pub use rules::inputs;
