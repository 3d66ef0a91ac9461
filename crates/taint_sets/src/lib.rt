//! Sets of items by number, where each received byte is an item by itself, and has a number before anything joins it.
#![tactic(auto)]

mod carrying;
mod run;
mod sets;

pub use carrying::Carrying;
pub use run::Run;
pub use sets::{ByteSets, FIRST_RECEIVED};
