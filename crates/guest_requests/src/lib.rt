//! What the call at which a process stands is given, and what it comes to, before anything is done.
//!
//! It reads registers, memories and the kernel's tables, and changes nothing.
#![tactic(auto)]

mod accepting;
mod arguments;
mod calls;
mod law;
mod opening;
mod paths;
mod ranges;
mod reading;
mod signalling;
mod standing;
mod tables;
mod waiting;
mod writing;

pub use accepting::Accepting;
pub use arguments::{argument, call_number, error};
pub use law::{calls_come_to_rows, others_are_ready};
pub use opening::Opening;
pub use paths::{is_image, path, path_refusal};
pub use ranges::{copy_of, first_of, lacks_block};
pub use reading::{Place, Reading};
pub use signalling::{Killing, signal_of};
pub use tables::Tables;
pub use waiting::{Waiting, status_of};
pub use writing::Writing;
