//! The sets of the bytes of events, and what events do to the sets of a member's bytes where these take others than
//! the member's own: bytes that it receives, and those with which it starts.
#![tactic(auto)]

mod beginning;
mod bytes;
mod starting;

pub use beginning::begun;
pub use bytes::{empty, given, received, status};
pub use starting::{receives, started};
