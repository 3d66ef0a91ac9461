//! Look-ups in the records of a history, by group, event and moment, from tables.
#![tactic(auto)]

mod at_hand;
mod check;
mod countable;
mod errors;
mod events;
mod families;
mod index;
mod runs;
mod slices;
mod told;

pub use countable::are_countable;
pub use errors::IndexError;
pub use index::Index;
pub use slices::SliceAt;
