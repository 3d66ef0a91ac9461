//! The program's disk: a file of the host.
#![tactic(auto)]

mod failure;
mod file_disk;
mod host_file;

pub use failure::{Attempt, Failure};
pub use file_disk::FileDisk;
