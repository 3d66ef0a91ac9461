//! The parts of the machine, each by itself: tagged bytes, images, names and files, pipes and ports,
//! the table of processes, signals, and what devices answer.
//!
//! The definitions stand in `specs/`. The types and numbers that code shares with them stand here.
#![tactic(auto)]

pub mod calls;
pub mod limits;
mod open;
pub mod refusals;
mod tagged;

pub use open::{Conn, Description};
pub use tagged::TaggedByte;
