//! The session: reads commands from a source, answers each to a sink, and keeps the history in a log.
#![tactic(auto)]

mod session;
mod status;

pub use arn_words::{Options, WordsError, read_words};
pub use session::arnold;
pub use status::{Damage, Status};
