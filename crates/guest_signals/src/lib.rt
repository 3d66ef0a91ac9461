//! The signals of one process: its handlers, those that are pending, and the registers that are saved while a handler
//! runs.
#![tactic(auto)]

mod pending;
mod signals;

pub use signals::Signals;
