//! Which groups of a history can have received bytes of which, at any distance.
#![tactic(auto)]

mod graph;
mod links;
mod rows;
mod search;
mod told;

pub use graph::Graph;
pub use told::received;
