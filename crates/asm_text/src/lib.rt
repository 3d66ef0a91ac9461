//! The statements of a program's text, one by one.
#![tactic(auto)]

mod characters;
mod fault;
mod form;
mod formed;
mod numbers;
mod operands;
mod reading;
mod registers;
mod statement;
mod words;

pub use characters::trimmed;
pub use fault::AsmKind;
pub use numbers::number_of;
pub use reading::read;
pub use statement::{Number, Statement, StatementReading};
