//! What the log keeps: spellings of records with literal bytes, disks in memory, and logs on them.
#![tactic(auto)]

#[cfg(test)]
mod disks;
#[cfg(test)]
mod errors;
#[cfg(test)]
mod gives;
#[cfg(test)]
mod records;
#[cfg(test)]
mod same;
#[cfg(test)]
mod slices;
#[cfg(test)]
mod stores;
