//! What a view of a process and the state of a group are on the records of a run, and what these count:
//! functions that do nothing.
#![tactic(auto)]

mod counts;
mod law;
mod states;

pub use counts::counts_are_of_runs;
pub use law::views_are_of_runs;
pub use states::group_states_are_of_runs;
