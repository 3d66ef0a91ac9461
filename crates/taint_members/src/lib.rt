//! What a live member of a group keeps of the sets of its bytes, and what steps that take no byte with another do
//! to it: calls, deliveries, forks and starts.
#![tactic(auto)]

mod access;
mod member;

pub use access::{KeyOffset, load_register, number, read, write};
pub use member::{Held, MemberSets, NewMember, clear_result};
