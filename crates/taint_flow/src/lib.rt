//! Which sets the bytes of an instruction's result have, by the sets of the bytes that it reads.
#![tactic(auto)]

mod flow;
mod gathering;
mod moving;
mod names;
mod working;
mod writing;

pub use moving::{moves_loaded, moves_register, moves_stored};
pub use names::{loaded_len, rd, rs1, rs2, stored_len};
pub use writing::{is_silent, results, takes_nothing};
