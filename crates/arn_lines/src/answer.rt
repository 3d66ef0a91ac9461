/// How a run ended.
#[derive(Clone, Copy)]
pub enum RunEnd {
    /// No process is live.
    Done,
    /// No live process can go on.
    Stalled,
    /// As many instructions ran as the line asked for.
    Budget,
}

/// Why a line changes nothing and is told nothing.
#[derive(Clone, Copy)]
pub enum Refusal {
    /// The line is too long.
    NoLong,
    /// The line is outside the grammar.
    NoLine,
    /// The machine isn't booted.
    NoBoot,
    /// The machine is booted.
    NoBooted,
    /// The program of a block has a fault: this is the first faulty line of the block, from 1.
    NoAsm { line: u64 },
    /// The name is taken, no more may be given, or there is no file of this name.
    NoName,
    /// The file is no image of a program.
    NoImage,
    /// There is no such device, or it was unplugged.
    NoDevice,
    /// There are no such bytes to ask for.
    NoPoint,
}
