//! Programs as text: what each statement is, and what they assemble to.
#![tactic(auto)]

#[cfg(test)]
mod programs;
#[cfg(test)]
mod same;
#[cfg(test)]
mod statements;
