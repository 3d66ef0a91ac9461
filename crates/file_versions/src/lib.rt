//! Versions of files: what the records of a history tell of a file by its name, at each moment.
#![tactic(auto)]

mod errors;
mod give;
mod names;
mod told;
mod versions;
mod writes;

pub use errors::VersionError;
pub use versions::Versions;
