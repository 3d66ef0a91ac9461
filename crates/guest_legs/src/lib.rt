//! The slices of a leg, what ends it, and the records that slices have.
#![tactic(auto)]

mod law;
mod leg;
mod pieces;

pub use law::{legs_as_named, picks_follow};
pub use leg::{Leg, LegEnd, MOST_LEG, Pick, leg_end};
pub use pieces::{SLICE_RECORDS, keep_turn};
