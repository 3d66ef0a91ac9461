//! Effects: records that are committed to a log, and bytes that are put into a sink, in order. What it
//! means to carry them out, and what each halt leaves.
//!
//! Which lists of records are those of a run is the caller's to say (`Runs`).
#![tactic(auto)]

mod commits;
mod halt;
mod law;
mod outside;
mod printing;
mod runs;

pub use commits::commit;
pub use halt::Halt;
pub use law::{causes_follow, effects_follow, halts_follow, openings_follow, quiet_follows};
pub use outside::{Outside, goings_follow};
pub use printing::put_all;
pub use runs::Runs;
