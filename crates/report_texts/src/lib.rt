//! The lines that report on a history, written: past states, events, groups and whether records are a
//! run's.
#![tactic(auto)]

mod events;
mod totals;
mod values;

pub use events::push_event_line;
pub use totals::{push_events, push_group, push_groups, push_proc, push_procs, push_verify};
pub use values::{push_file, push_mem, push_regs};
