//! What is told of the histories that programs leave.
#![tactic(auto)]

#[cfg(test)]
mod beside;
#[cfg(test)]
mod devices;
#[cfg(test)]
mod engines;
#[cfg(test)]
mod given;
#[cfg(test)]
mod same;
#[cfg(test)]
mod scripts;
#[cfg(test)]
mod sessions;
