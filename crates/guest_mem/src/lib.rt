//! The memory of a guest: the private window of a process, a segment that processes share, and what one process sees
//! of both.
#![tactic(auto)]

mod blocks;
mod extent;
mod numbers;
mod page;
mod pages;
mod segment;
mod shared_view;
mod space;
mod spare;
mod view;

pub use segment::Segment;
pub use shared_view::SharedView;
pub use space::Space;
pub use spare::Spare;
pub use view::View;
