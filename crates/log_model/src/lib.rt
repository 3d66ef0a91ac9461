//! The records by which a run is kept, and the inputs that records name.
//!
//! The definitions stand in `specs/`. What holds of them is stated by functions that do nothing.
#![tactic(auto)]

mod law;

pub use law::{
    events_recorded, named_append, named_runs_again, records_append, records_are_run,
    records_bound, slices_are_named, slices_take_steps,
};
