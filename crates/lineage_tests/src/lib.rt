//! The rules of links, and sets of items.
#![tactic(auto)]

#[cfg(test)]
mod links;
#[cfg(test)]
mod same;
#[cfg(test)]
mod sets;
#[cfg(test)]
mod spans;
