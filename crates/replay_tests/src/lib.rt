//! The machine and replays, one beside the other; and look-ups, replays and views of small histories.
#![tactic(auto)]

#[cfg(test)]
mod errors;
#[cfg(test)]
mod fixtures;
#[cfg(test)]
mod lookups;
#[cfg(test)]
mod replays;
#[cfg(test)]
mod same;
#[cfg(test)]
mod states;
#[cfg(test)]
mod versions;
#[cfg(test)]
mod views;
