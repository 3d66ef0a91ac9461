//! What holds of windows and of blocks: an instruction keeps the length of each window, and a block is as
//! long as a block is.
//!
//! What holds is stated by functions that do nothing; one reads blocks, to say how long they are.
#![tactic(auto)]

mod blocks;
mod law;

pub use blocks::blocks_are_whole;
pub use law::instructions_keep_lengths;
