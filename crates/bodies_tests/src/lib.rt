//! The bodies of processes.
#![tactic(auto)]

#[cfg(test)]
mod bodies;
#[cfg(test)]
mod same;
