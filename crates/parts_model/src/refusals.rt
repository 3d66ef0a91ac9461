// The errors of the calls. A call that is refused with error e has the result 2^64 - e.

/// The error where there is no file of this name.
pub const NO_FILE: u64 = 2;

/// The error where there is no such live process.
pub const NO_PROCESS: u64 = 3;

/// The error where a signal ended the call.
pub const INTERRUPTED: u64 = 4;

/// The error where the device failed.
pub const DEVICE_FAULT: u64 = 5;

/// The error where the file is no image.
pub const NOT_IMAGE: u64 = 8;

/// The error where the descriptor isn't open, or not for this.
pub const BAD_DESCRIPTOR: u64 = 9;

/// The error where the process has no child.
pub const NO_CHILD: u64 = 10;

/// The error where there are as many processes as there may be.
pub const NO_PROCESS_ROOM: u64 = 11;

/// The error where there is no room for another file, pipe or port, or in the file.
pub const NO_ROOM: u64 = 12;

/// The error where the range isn't whole in one window.
pub const BAD_ADDRESS: u64 = 14;

/// The error where there is a file of this name.
pub const NAME_TAKEN: u64 = 17;

/// The error where there is no such device.
pub const NO_DEVICE: u64 = 19;

/// The error where an argument is out of its range.
pub const BAD_ARGUMENT: u64 = 22;

/// The error where the process has as many descriptors as it may have.
pub const NO_DESCRIPTOR_ROOM: u64 = 24;

/// The error where nothing reads the pipe.
pub const BROKEN_PIPE: u64 = 32;

/// The error where there is no such call.
pub const NO_SUCH_CALL: u64 = 38;

/// The error where the port is listened to.
pub const PORT_IN_USE: u64 = 98;

/// The error where nothing listens at the port, or as many wait as may.
pub const CONNECTION_REFUSED: u64 = 111;
