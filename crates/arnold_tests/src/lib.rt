//! What sessions do with their words, their sources and sinks, and their disks.
#![tactic(auto)]

#[cfg(test)]
mod same;
#[cfg(test)]
mod statuses;
#[cfg(test)]
mod stops;
#[cfg(test)]
mod streams;
