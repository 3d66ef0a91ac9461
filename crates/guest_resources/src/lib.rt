//! What descriptors of processes stand for: open descriptions by number, files, and the console's
//! queue. And which devices were unplugged.
#![tactic(auto)]

mod console;
mod descriptions;
mod resources;
mod unplugged;

pub use console::Console;
pub use descriptions::Descriptions;
pub use resources::{OpenFile, Resources};
pub use unplugged::Unplugged;
