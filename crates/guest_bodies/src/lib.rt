//! The bodies of live processes: registers, save slots and memories, and what acts do to them.
//!
//! It knows no descriptors, files or pipes. So it serves a whole machine and a group of processes
//! alone.
#![tactic(auto)]

mod bodies;
mod guest;
mod law;
mod memories;
mod reach;
mod registers;
mod running;
mod starting;
mod table;
mod told;
mod windows;

pub use bodies::Bodies;
pub use law::{later_is_fresh, others_stay_unheld};
pub use running::Stood;
