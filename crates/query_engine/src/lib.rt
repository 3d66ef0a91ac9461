//! Answers lineage queries on records of a run: it replays the groups that are connected with what is asked,
//! follows where bytes come from in each, and joins what they tell.
#![tactic(auto)]

mod behind;
mod engine;
mod first;
mod forth;
mod law;
mod law_forth;
mod names;
mod sinks;
mod states;

pub use engine::{Answer, Engine, Target};
pub use law::seen_stays;
pub use replayer::{Disagrees, QueryError};
