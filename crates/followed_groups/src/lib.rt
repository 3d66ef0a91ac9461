//! Groups that were followed up to a moment. Each is replayed with a tracker as its observer, which tells
//! what reaches its bytes; what followed the groups that were asked about last is kept, and serves again
//! where a group has come no further since.
#![tactic(auto)]

mod follow;
mod follow_all;
mod followed;
mod given;
mod law;
mod relations;

pub use followed::Followed;
pub use law::kept_stays;
pub use relations::Relations;
