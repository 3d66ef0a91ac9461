//! A machine that says what it did as records.
#![tactic(auto)]

mod able;
mod again;
mod boxed;
mod errors;
mod given;
mod law;
mod legs;
mod machine;
mod rebuild;
mod turn;
mod unplug;

pub use arn_base::Differs;
pub use arn_model::RunState;
pub use errors::MachineError;
pub use guest_legs::{Leg, LegEnd, MOST_LEG, Pick, leg_end, legs_as_named, picks_follow};
pub use law::{
    answers_are_recorded, gone_unasked, named_follow, records_follow, records_leave_room,
    runs_follow, slots_follow,
};
pub use machine::Machine;
pub use record_match::{RebuildError, records_compare};
