// The bytes of a log that no record brings.

// What a log begins with.
pub const NAME: [u8; 8] = *b"ARNLOG01";

// A log without records.
pub const FRESH: [u8; 9] = *b"ARNLOG01\0";

// How many bytes hold how long a payload is.
pub const LENGTH_LEN: usize = 4;

// How many bytes of a frame stand before its payload: the open gate, and how long the payload is.
pub const FRAME_HEAD: u64 = 5;

// The value of a gate behind which a frame stands.
pub const OPEN: u8 = 1;

// The value of the gate at the end.
pub const CLOSED: u8 = 0;
