//! What is looked up of a target, and the pairs that groups which were followed tell of it. What
//! these pairs are is said by the groups that were followed, whichever these are.
#![tactic(auto)]

mod asked;
mod copies;
mod count;
mod events;
mod law;
mod names;
mod sinks;
mod states;
mod told;

pub use asked::Asked;
pub use copies::{push_group, takers};
pub use count::count_all;
pub use events::{event_pairs, has_range};
pub use law::items_are_of_groups;
pub use names::{part, version, writers, written_pairs};
pub use sinks::sink_pairs;
pub use states::{held_pairs, is_held};
