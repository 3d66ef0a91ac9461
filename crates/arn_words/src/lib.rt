//! The words of the program: what they say, and what is wrong with them.
#![tactic(auto)]

mod command;
mod options;
mod refusal;

pub use options::{Options, WordsError, read_words};
pub use refusal::refusal_text;
