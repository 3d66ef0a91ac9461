// What is recorded of a machine's run. Events are counted from 0 in the order in which they happen.

use crate::{Blocks, Boxed, Bytes, Cpu, Origins};

/// A byte of an event: the one at place `at`, from 0, of those that event brought in.
#[derive(Clone, Copy, Debug, PartialEq, Eq)]
pub struct Src {
    pub event: u64,
    pub at: u32,
}

/// `len` bytes of an event, from the place `at` on.
#[derive(Clone, Copy, Debug, PartialEq, Eq)]
pub struct Origin {
    pub event: u64,
    pub at: u32,
    pub len: u32,
}

/// The place `at` of an event, beside the place `byte` of what was asked about.
#[derive(Clone, Copy, Debug, PartialEq, Eq)]
pub struct Pair {
    pub event: u64,
    pub at: u32,
    pub byte: u32,
}

/// Bytes that a process was given. The origins tell in order where they came from.
#[derive(Debug, Drop, PartialEq, Eq)]
pub struct Give {
    pub bytes: Bytes,
    pub origins: Origins,
}

/// How a process begins that a fork made: its registers, the saved ones where there are any, and the
/// blocks of its private window that aren't all zero, rising.
#[derive(Drop, PartialEq, Eq)]
pub struct Start {
    pub cpu: Cpu,
    pub slot: Option<Cpu>,
    pub blocks: Blocks,
}

/// What a call did, beside its result.
#[derive(Drop, PartialEq, Eq)]
pub enum Extra {
    Nothing,
    /// The bytes that the process received.
    Give(Give),
    /// How the child begins that starts a group of its own.
    Start(Boxed<Start>),
    /// The bytes that were written to a file, from the place `at` on.
    Put { file: u32, at: u32, bytes: Bytes },
    /// The bytes that were written to the console.
    Console { bytes: Bytes },
    /// The bytes that a device gave.
    Reply { device: u32, bytes: Bytes },
    /// The device failed.
    Fault,
    /// There is no such device.
    Absent,
    /// The file that was opened, or that lost its name.
    Name { file: u32, path: Bytes },
    /// The bytes that a device took.
    Sent { device: u32, bytes: Bytes },
}

/// One record of a run.
#[derive(Drop, PartialEq, Eq)]
pub enum Record {
    /// A file was added before the start.
    File {
        name: Bytes,
        bytes: Bytes,
    },
    /// The first process was started from the file of this name, and was given its bytes.
    Boot {
        name: Bytes,
        give: Give,
    },
    /// Bytes were typed at the console.
    Typed {
        bytes: Bytes,
    },
    /// A device was unplugged.
    Unplug {
        device: u32,
    },
    /// A process ran so many instructions.
    Slice {
        pid: u32,
        ran: u32,
    },
    /// A signal was delivered. It ended a call that wasn't ready where `cut` says so, and the process
    /// where the handler is 0.
    Signal {
        pid: u32,
        signal: u8,
        cut: bool,
        handler: u64,
    },
    /// A process ended a call, whose result stands in its register a0.
    Call {
        pid: u32,
        number: u64,
        result: u64,
        extra: Extra,
    },
    /// A fault ended a process.
    End {
        pid: u32,
        status: u8,
    },
}

/// Where two lists of records part: the number of the first record that differs, the first byte that
/// differs in the spellings of the two, and both bytes. None stands where a list or a spelling ends.
#[derive(Clone, Copy, Debug, PartialEq, Eq)]
pub struct Differs {
    pub place: u64,
    pub at: u64,
    pub said: Option<u8>,
    pub found: Option<u8>,
}
