//! Sessions over texts in memory.
#![tactic(auto)]

mod sessions;

pub use sessions::{Ended, Schedule, Script, run, run_on, run_with};
