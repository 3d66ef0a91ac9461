//! The generator of the line `gen`: its program, what it types, and the line that answers it.
#![tactic(auto)]

mod programs;
mod sums;
mod typing;

pub use programs::program;
pub use sums::{push_gen, written_by, written_sum};
pub use typing::{MANY_TYPED, typed};
