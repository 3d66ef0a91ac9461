//! Static ELF64 files of guest programs.
#![tactic(auto)]

mod elf;
mod format;
mod headers;
mod numbers;
mod parse;
mod parts;

pub use elf::{Elf, NotElf, Part};
pub use parse::parse_elf;
pub use parts::part;
