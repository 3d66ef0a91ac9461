// Bytes of an event.

/// Bytes of an event, from a place on.
#[derive(Clone, Copy)]
pub struct Asked {
    pub event: u64,
    pub from: u32,
    pub len: u32,
}
