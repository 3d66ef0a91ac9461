//! What one RV64I instruction does, and which bytes its result takes.
//!
//! The definitions stand in `specs/`. The types and numbers that code shares with them stand here.
#![tactic(auto)]

mod linkage;
mod operations;
pub mod statuses;

pub use linkage::Linkage;
pub use operations::{load_len, reg_op, store_len};
