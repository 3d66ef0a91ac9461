//! Images of guest programs.
#![tactic(auto)]

mod header;
mod image;

pub use header::parse;
pub use image::{HEADER_LEN, Image, NotImage};
