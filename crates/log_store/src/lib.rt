//! A log of records on a disk, which keeps them over every stop of the machine.
#![tactic(auto)]

mod commits;
mod disks;
mod errors;
mod format;
mod frames;
mod law;
mod opening;
mod payloads;
mod size;
mod steps;
mod store;

pub use errors::{CommitError, OpenError};
pub use law::logs_read_one_way;
pub use size::{MOST_LOG, frame_end};
pub use store::{Store, store_is_short};
