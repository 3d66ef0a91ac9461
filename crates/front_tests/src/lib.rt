//! What is read of a session: the program's words, lines and commands.
#![tactic(auto)]

#[cfg(test)]
mod commands;
#[cfg(test)]
mod errors;
#[cfg(test)]
mod lines;
#[cfg(test)]
mod same;
#[cfg(test)]
mod words;
