//! What ties the records of a run, and a group that is replayed alone from them, to the run itself.
//!
//! What holds is stated by functions that do nothing.
#![tactic(auto)]

mod law;
mod tells;

pub use law::groups_pass_through;
pub use tells::{records_tell_events, records_tell_moments, records_tell_runs};
