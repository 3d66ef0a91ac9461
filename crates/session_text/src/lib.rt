//! The text of a session: reads a source to its end, and answers each command to a sink.
#![tactic(auto)]

mod slots;
mod text;

pub use slots::answer_in_slots;
