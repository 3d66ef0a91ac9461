//! Replays one group of processes from its own records alone: without a kernel, and without other
//! groups.
#![tactic(auto)]

mod founding;
mod law;
mod parts;
mod state;
mod walk;

pub use law::{alone_by_slices, runs_before};
pub use replay_steps::{Disagrees, QueryError, ReplayError};
pub use state::{GroupState, replay};
