//! Which processes live at a moment of a history, and which bytes of theirs can be asked for, from the
//! records alone.
#![tactic(auto)]

mod events;
mod law;
mod lives;
mod living;
mod members;
mod segments;

pub use law::{lives_have_groups, members_are_seen, windows_are_whole};
pub use living::live_at;
pub use members::{is_member, is_memory_range};
