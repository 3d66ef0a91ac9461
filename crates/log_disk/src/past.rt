// What a disk in memory keeps of the times before each change.
use crate::ranges::Range;

/// What a change took away: the bytes that stood from a place on, the length, and what a crash
/// before the change could have left of the bytes.
#[derive(Drop)]
pub struct Past {
    pub at: usize,
    pub bytes: Vec<u8>,
    pub len: usize,
    pub written: Vec<Range>,
    pub smallest: usize,
    pub greatest: usize,
}
