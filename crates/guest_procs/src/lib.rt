//! The table of processes: which live, whose child each is, and what each has open.
#![tactic(auto)]

mod answers;
mod lists;
mod process;
mod procs;
mod slots;
mod table;

pub use answers::{Ended, ProcError};
pub use procs::Procs;
