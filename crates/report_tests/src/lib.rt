//! What is reported of a history: lines of records, groups and processes.
#![tactic(auto)]

#[cfg(test)]
mod histories;
#[cfg(test)]
mod records;
#[cfg(test)]
mod texts;
