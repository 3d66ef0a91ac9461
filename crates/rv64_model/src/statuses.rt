// The statuses of processes that a fault ended.

/// The status of a process that ended at a word that is no instruction.
pub const ILLEGAL_INSTRUCTION: u8 = 132;

/// The status of a process that ended at an EBREAK.
pub const BREAKPOINT: u8 = 133;

/// The status of a process that ended at a jump or a taken branch to a target that is no multiple
/// of 4.
pub const MISALIGNED: u8 = 135;

/// The status of a process that ended at an access outside its windows.
pub const BAD_ACCESS: u8 = 139;
