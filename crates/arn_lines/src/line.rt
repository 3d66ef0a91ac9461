use arn_base::Bytes;
use rv64_model::Linkage;

/// How many bytes a line has at most, without its LF.
pub const MOST_LINE: usize = 1_048_576;

/// How many instructions a line may ask for.
pub const MOST_RUN: u64 = 1_000_000_000;

/// With how many processes the generator runs at most.
pub const MOST_GENERATED: u64 = 32;

/// Of which bytes is asked where they come from.
#[derive(Drop)]
pub enum Sought {
    /// The `len` bytes of an event from byte `from` on.
    Event {
        event: u64,
        from: u64,
        len: u64,
    },
    /// The `len` bytes from address `at` on that a process sees at a moment.
    Memory {
        moment: u64,
        pid: u64,
        at: u64,
        len: u64,
    },
    /// The eight bytes of a register of a process at a moment.
    Register {
        moment: u64,
        pid: u64,
        register: u64,
    },
    /// The `len` bytes from byte `from` on of the file that has the name at a moment.
    Name {
        moment: u64,
        name: Bytes,
        from: u64,
        len: u64,
    },
}

/// What is shown of a moment.
#[derive(Drop)]
pub enum Aspect {
    /// The registers of a process.
    Registers { pid: u64 },
    /// The `len` bytes from address `at` on that a process sees.
    Memory { pid: u64, at: u64, len: u64 },
    /// The bytes of the file of this name.
    File { name: Bytes },
    /// The live processes, and their groups.
    Processes,
}

/// A question about the history. It changes nothing.
#[derive(Drop)]
pub enum Question {
    /// What the machine held at a moment.
    Show {
        moment: u64,
        aspect: Aspect,
    },
    /// From which source bytes these bytes come.
    Back {
        linkage: Linkage,
        sought: Sought,
    },
    /// Which sink bytes come from the `len` bytes of an event from byte `from` on.
    Forth {
        linkage: Linkage,
        event: u64,
        from: u64,
        len: u64,
    },
    /// The groups of processes, and what each ran.
    Groups,
    /// The events, one by one.
    Events,
    /// Whether the records are those of a run.
    Verify,
}

/// What a line asks for.
#[derive(Drop)]
pub enum Line {
    /// A boot file, before boot.
    File { name: Bytes, bytes: Bytes },
    /// The start of the machine from the image in a file.
    Boot { name: Bytes },
    /// Bytes for the console's queue.
    Type { bytes: Bytes },
    /// Up to so many instructions.
    Run { count: u64 },
    /// The end of a device: nothing answers for it any more.
    Unplug { device: u64 },
    /// A question about the history.
    Asks { question: Question },
}

/// What a line of the text is that stands by itself.
#[derive(Drop)]
pub enum LineReading {
    /// Empty, or a comment.
    PassedOver,
    /// Above the bound, whatever it says.
    TooLong,
    /// Outside the grammar.
    Unreadable,
    Says { line: Line },
    /// The generator is to run with so many processes, on bytes that a seed gives.
    Generates { seed: u64, processes: u64 },
}
