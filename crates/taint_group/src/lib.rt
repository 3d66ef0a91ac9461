//! Follows each step of a group's members in tables: of members by number, of memories by key, and
//! of events.
#![tactic(auto)]

mod begin;
mod collects;
mod ends;
mod forks;
mod founds;
mod gives;
mod group;
mod happens;
mod memories;
mod places;
mod receives;
mod shares;
mod starts;
mod turns;

pub use group::Group;
pub use memories::MemoryKind;
