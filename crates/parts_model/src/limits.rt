/// The first address of a process's private window.
pub const WINDOW_START: u64 = 0x1_0000;

/// The address behind a process's private window.
pub const WINDOW_END: u64 = 0x5_0000;

/// How many bytes a private window has.
pub const WINDOW_LEN: u64 = 0x4_0000;

/// The first address of the shared window, which is present while a process holds a segment.
pub const SEGMENT_START: u64 = 0x8000_0000;

/// The address behind the shared window.
pub const SEGMENT_END: u64 = 0x8001_0000;

/// How many bytes a segment has.
pub const SEGMENT_LEN: u64 = 0x1_0000;

/// How many bytes a block of a window has.
pub const BLOCK_LEN: usize = 256;

/// How many processes are live, or ended and not yet waited for, at most.
pub const MOST_PROCESSES: u64 = 64;

/// How many descriptors a process has at most.
pub const MOST_DESCRIPTORS: u64 = 16;

/// How many files have a name or a holder at most.
pub const MOST_FILES: u64 = 1_024;

/// How many bytes a name has at most.
pub const MOST_NAME_BYTES: u64 = 64;

/// How many bytes a file has at most.
pub const MOST_FILE_BYTES: u64 = 1_048_576;

/// How many pipes there are at most. A connection takes two.
pub const MOST_PIPES: u64 = 64;

/// How many bytes a pipe holds at most.
pub const MOST_PIPE_BYTES: u64 = 4_096;

/// How many ports are listened to at most.
pub const MOST_PORTS: u64 = 16;

/// How many connections wait at a port at most.
pub const MOST_WAITING: u64 = 8;

/// The greatest number of a port.
pub const GREATEST_PORT: u64 = 65_535;

/// How many bytes an argument block has at most.
pub const MOST_BLOCK_BYTES: u64 = 4_096;

/// How many bytes one read or write moves at most. A longer count is cut to this.
pub const MOST_TRANSFER: u64 = 65_536;

/// How many instructions one slice runs at most.
pub const MOST_SLICE: u64 = 1_000_000;

/// How many bytes of an event a query asks for at most.
pub const MOST_ASKED: u64 = 65_536;

/// The greatest number of a signal. The least is 1.
pub const GREATEST_SIGNAL: u64 = 31;

/// The signal that no handler takes and no filled save slot holds up.
pub const KILL_SIGNAL: u64 = 9;
