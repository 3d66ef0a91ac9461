//! Pipes, and the ports at which connections of two pipes wait.
#![tactic(auto)]

mod channels;

pub use channels::Channels;
