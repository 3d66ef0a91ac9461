//! Follows, through a replay of one group, which of its own inputs reach each byte: of registers,
//! save slots and memories of its members, and of its events.
#![tactic(auto)]

mod answers;
mod items;
mod tracker;

pub use items::KeptItems;
pub use taint_state::Point;
pub use tracker::Tracker;
