//! The numbers of the sets that bytes have: of a memory's bytes, in pages, and of the bytes of registers.
#![tactic(auto)]

mod numbers;
mod page;
mod row;

pub use numbers::SetNumbers;
pub use page::{PAGE_LEN, Unset};
pub use row::Row;
