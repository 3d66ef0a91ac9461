//! What the crates of a session agree on: who answers its questions.
#![tactic(auto)]

mod questions;

pub use questions::Questions;
