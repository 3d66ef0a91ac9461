//! What is reported of a history, from its records alone: its groups, its events, and what its past
//! states held.
#![tactic(auto)]

mod events;
mod far;
mod files;
mod groups;
mod processes;
mod states;

pub use events::report_events;
pub use far::far_is_nowhere;
pub use files::report_file;
pub use groups::report_groups;
pub use processes::report_procs;
pub use states::{MemoryBytes, push_error, report_mem, report_regs};
