//! Single instructions.
#![tactic(auto)]

#[cfg(test)]
mod instructions;
#[cfg(test)]
mod same;
