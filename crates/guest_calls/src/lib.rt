//! The kernel: it decides what the calls of processes do, and does it.
//!
//! It knows processes by their numbers, what their descriptors stand for, pipes and ports, and the console's queue. What a call does to registers and memories is `guest_bodies`'s.
#![tactic(auto)]

mod booting;
mod calls;
mod channels;
mod descriptors;
mod devices;
mod executing;
mod files;
mod forking;
mod kernel;
mod outcomes;
mod parts;
mod processes;
mod running;
mod signalling;
mod states;
mod transfers;
mod waiting;

pub use kernel::Kernel;
pub use outcomes::{BootError, CallStop, Delivered, Done};
