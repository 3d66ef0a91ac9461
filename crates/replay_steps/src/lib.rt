//! The steps of a replay of one group of processes: what its own records make of its processes,
//! without a kernel, and what an observer is told of it.
#![tactic(auto)]

mod beginning;
mod deeds;
mod errors;
mod happening;
mod plain;
mod turn;
mod wrong;

pub use beginning::{begin, boot};
pub use errors::{Disagrees, QueryError, ReplayError};
pub use happening::happen;
pub use plain::{Turn, run};
pub use turn::end_slice;
