//! What the records of a run tell of the versions of files: a function that does nothing.
#![tactic(auto)]

mod law;

pub use law::versions_are_of_runs;
