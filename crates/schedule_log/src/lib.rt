//! The bytes by which turns of processes and deliveries of signals are kept, and the fields of which
//! all records are made.
#![tactic(auto)]

mod errors;
pub mod fields;
mod law;
mod signals;
mod slices;
pub mod split;

pub use errors::GetError;
pub use law::fields_spelled_one_way;
pub use signals::{Delivery, MOST_SIGNAL, SIGNAL, get_signal, put_signal, split_signal};
pub use slices::{SLICE, get_slice, put_slice, split_slice};
