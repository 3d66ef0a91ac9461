//! Answers questions about a history from its records alone.
#![tactic(auto)]

mod asking;
mod generated;
mod of_runs;
mod short;
mod shown;
mod sinks;
mod sources;
mod targets;
mod verify;

pub use asking::Asking;
pub use of_runs::answers_are_of_runs;
