//! The text of a session, taken from a source: its lines, and its blocks with their programs.
#![tactic(auto)]

mod block;
mod command;
mod commands;
mod error;
mod law;
mod next;
mod reader;

pub use command::Command;
pub use commands::Commands;
pub use error::ReadError;
pub use law::parts_ask_one_way;
pub use next::Next;
pub use reader::MOST_TAKEN;
