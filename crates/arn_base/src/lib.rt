//! The outside of a machine that is recorded: a memory, a source, a sink, a disk, a chooser and
//! devices, what is recorded of them, and a counter of steps.
#![tactic(auto)]

mod boxed;
mod boxes;
mod counter;
mod disk;
mod errors;
mod fuses;
mod lists;
mod machine;
mod records;
mod sinks;
mod sources;
mod streams;
mod windows;

pub use boxed::Boxed;
pub use boxes::{Choice, Chooser, Device, Reply, Took};
pub use counter::Steps;
pub use disk::Disk;
pub use errors::{BadAddress, Failed, NoMemory, Stop, StoreError};
pub use lists::{Blocks, Bytes, Items, Members, Numbers, Origins, Pairs, Windows};
pub use machine::{Block, Cpu, Member, State};
pub use records::{Differs, Extra, Give, Origin, Pair, Record, Src, Start};
pub use sinks::{StdSink, VecSink};
pub use sources::{SliceSource, StdSource};
pub use streams::{Sink, Source};
pub use windows::Memory;
