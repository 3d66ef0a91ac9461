//! What processes and files were at a moment of a history: which processes lived, the registers and the
//! bytes of one, by a replay of its group alone, and the bytes of a file.
#![tactic(auto)]

mod files;
mod replays;
mod silent;
mod views;

pub use file_versions::VersionError;
pub use files::file;
pub use replayer::QueryError;
pub use views::{memory, processes, registers};
