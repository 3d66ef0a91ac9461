//! Files: their bytes with the events that wrote them, their names, and how many hold them.
#![tactic(auto)]

mod content;
mod errors;
mod files;
mod names;
mod runs;

pub use errors::FileError;
pub use files::Files;
