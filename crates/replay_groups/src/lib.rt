//! The groups in which processes are replayed together: which process is in which, and the processes of each.
#![tactic(auto)]

mod groups;
mod law;
mod lists;

pub use groups::Groups;
pub use law::groups_grow;
