//! The machine: processes under a kernel, the calls, slices and runs.
//!
//! The definitions stand in `specs/`. What code shares with them stands here.
#![tactic(auto)]

mod laws;
mod run_state;

pub use acts_model::Observer;
pub use laws::{
    replies_are_told, requests_bounded, runs_append, runs_sound, steps_tell, turns_have_parts,
};
pub use run_state::RunState;
pub use rv64_model::Linkage;
