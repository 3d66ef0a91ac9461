//! What a lineage query answers on a list of records: which source bytes reach a byte, which groups are
//! asked, and what they counted.
//!
//! The definitions stand in `specs/`.
#![tactic(auto)]

mod held;

pub use held::{Held, Part};
