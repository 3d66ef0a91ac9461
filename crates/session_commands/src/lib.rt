//! What one command of a session does: a change of the history, which is committed before its answer is
//! printed, or an answer from the records.
#![tactic(auto)]

mod answering;
mod events;
mod generating;
mod kept;
mod names;
mod printing;
mod ready;
mod refusals;
mod rows;
mod unplugging;

pub use answering::answer;
pub use kept::Kept;
