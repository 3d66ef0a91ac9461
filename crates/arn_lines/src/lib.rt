//! The lines of a session, read, and the lines that answer them, written.
#![tactic(auto)]

mod answer;
mod grammar;
mod law;
mod line;
mod pieces;
mod questions;
mod texts;
mod words;

pub use answer::{Refusal, RunEnd};
pub use grammar::{block_name, read_line};
pub use law::lines_read_one_way;
pub use line::{Aspect, Line, LineReading, MOST_GENERATED, MOST_LINE, MOST_RUN, Question, Sought};
pub use pieces::{Piece, push_line};
pub use texts::{
    push_back, push_damaged, push_event, push_forth, push_out, push_pair, push_ran, push_refusal,
};
