//! How far a group has come at a moment: which of its own records come up to it. Where the records of one
//! history begin those of another, and a group has come equally far in both, it is the same group alone.
#![tactic(auto)]

mod extent;
mod law;

pub use extent::Extent;
pub use law::equal_extents_make_one;
