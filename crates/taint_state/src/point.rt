/// A byte of which one may ask what reaches it.
#[derive(Clone, Copy)]
pub enum Point {
    /// Byte `at` of an event of a member.
    Event { event: u64, at: u32 },
    /// A byte with which a child began that a member's fork made in a group of its own. Byte i of
    /// register r is 8(r - 1) + i, that of its save slot 248 more, and a byte of its private window
    /// is its address.
    Start { event: u64, at: u64 },
    /// A byte of a window that a process has at the end of the replay, by its address.
    Mem { pid: u32, at: u64 },
    /// Byte `byte`, 0 to 7, of a register, 0 to 31, at the end of the replay.
    Reg { pid: u32, reg: u8, byte: u8 },
}
