//! The machine with its records.
#![tactic(auto)]

#[cfg(test)]
mod machine;
#[cfg(test)]
mod same;
