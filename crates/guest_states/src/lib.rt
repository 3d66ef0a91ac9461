//! The whole state of some processes, told in one value that others can be compared with: their
//! registers, what handlers will restore, and the memories that they hold.
#![tactic(auto)]

mod held;
mod states;

pub use states::state_of;
