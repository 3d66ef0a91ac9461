//! That the records of a run can always be indexed.
//!
//! What holds is stated by functions that do nothing.
#![tactic(auto)]

mod law;

pub use law::runs_are_unbroken;
