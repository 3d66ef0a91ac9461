// The slices of a history.

/// A slice: the number of its record, the instructions and events before it, its process, and how many instructions
/// it ran.
#[derive(Clone, Copy, Debug, PartialEq, Eq)]
pub struct SliceAt {
    pub place: u32,
    pub event: u32,
    pub moment: u64,
    pub pid: u32,
    pub ran: u32,
}
