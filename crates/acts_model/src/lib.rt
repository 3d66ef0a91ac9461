//! What steps do to processes: their bodies, the acts that change them, what a record tells of an act,
//! and which bytes an act moves.
//!
//! The definitions stand in `specs/`. They serve the whole machine and a group of processes alone, so
//! that both are changed by one text.
#![tactic(auto)]

mod deeds;
mod observer;
mod told;

pub use deeds::{Deed, argument, call_deed, call_number, deed_of};
pub use observer::Observer;
pub use told::{
    ChildTold, LifeTold, child_called, child_told, event_len, give_of, is_event, is_success,
    life_told, process_of, start_held,
};
