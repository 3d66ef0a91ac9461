//! Joins what single groups tell of their bytes over stored origins and forks: the second half of a
//! lineage query, behind the replay of each group.
#![tactic(auto)]

mod demand;
mod found;
mod law;
mod locals;
mod pairs;
mod step;
mod told;
mod wait;

pub use demand::{Demand, Place};
pub use found::Found;
pub use law::{numbers_stand, pairs_are_one, pairs_are_told, reach_same};
pub use locals::Locals;
pub use pairs::join;
pub use told::{is_source, record_at};
