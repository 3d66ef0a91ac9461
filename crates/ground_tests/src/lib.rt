//! The outside that is recorded, and the instruction table.
#![tactic(auto)]

#[cfg(test)]
mod boxes;
#[cfg(test)]
mod counter;
#[cfg(test)]
mod errors;
#[cfg(test)]
mod instructions;
#[cfg(test)]
mod lists;
#[cfg(test)]
mod streams;
