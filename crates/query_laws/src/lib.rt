//! That what a lineage query answers is what it should. The groups that it asks are those that are connected
//! with an event's, and their items are all that it needs; these items are bytes that events of a group
//! received, or with which the group began; and of the records of a run it says what tracking every
//! instruction of the whole machine says.
//!
//! What holds is stated by functions that do nothing.
#![tactic(auto)]

mod forth;
mod law;
mod names;
mod states;

pub use forth::{
    first_are_told, forth_is_connected, forth_is_of_runs, forth_is_one, reaching_is_among,
    sinks_are_reached,
};
pub use law::{
    groups_are_connected, groups_are_one, items_fit, queries_are_of_runs, reaching_is_of_bytes,
};
pub use names::{named_are_written, names_are_of_runs, written_is_of_bytes};
pub use states::{held_is_of_bytes, held_items_are_there, states_are_of_runs};
