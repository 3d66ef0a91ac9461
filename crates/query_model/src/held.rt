// Bytes of past states.

/// Which bytes of a process.
#[derive(Clone, Copy)]
pub enum Part {
    /// The eight bytes of a register.
    Register(u8),
    /// So many bytes from an address on.
    Memory { at: u64, len: u32 },
}

/// Bytes that a process holds at a moment.
#[derive(Clone, Copy)]
pub struct Held {
    pub moment: u64,
    pub pid: u32,
    pub part: Part,
}
