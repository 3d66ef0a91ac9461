//! Sets of bytes by number, where a union with received bytes that follow each other is put off until more is done with it.
#![tactic(auto)]

mod carrying;
mod known;
mod sets;
mod settling;
mod span;
mod spans;

pub use carrying::Carrying;
pub use sets::SpanSets;
pub use taint_sets::FIRST_RECEIVED;
