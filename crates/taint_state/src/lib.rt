//! What is kept of each byte of a group, what that shows, and what it becomes by each step: as the
//! definition of tracking by lists says.
#![tactic(auto)]

mod heard;
mod law;
mod layout;
mod point;

pub use heard::{ChildStart, HeardEvent, HeardEvents, Moved};
pub use law::{
    acts_have_len, begins_show, carries_show, delivers_show, dies_show, exits_show, faults_show,
    forks_show, founds_show, gives_show, leaves_show, receives_show, returns_show, runs_keep,
    runs_show, shares_show, starts_show, stays_apart,
};
pub use layout::Layout;
pub use point::Point;
