//! Two disks in memory, which tell what a crash may leave of a log.
#![tactic(auto)]

mod fuse;
mod fuse_disk;
mod image;
mod medium;
mod mem_disk;
mod past;
mod ranges;

pub use fuse_disk::FuseDisk;
pub use mem_disk::MemDisk;
