//! Pipes: their bytes with the events that wrote them, and which of their ends are open.
#![tactic(auto)]

mod entries;
mod errors;
mod pipe;
mod pipes;
mod runs;

pub use errors::{PipeError, Side};
pub use pipes::Pipes;
