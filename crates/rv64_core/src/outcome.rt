use rv64_isa::{Instr, Reg};

/// What one instruction came to.
#[derive(Clone, Copy, Debug, PartialEq, Eq)]
pub enum Outcome {
    /// It took effect, and the next one may run.
    Next,
    /// It is an ECALL, which waits for whoever serves calls. The pc stands at it.
    Call,
    /// It ends its process with this status.
    End(u8),
    /// Its store found no memory. It may be tried again.
    NoMemory,
}

/// An instruction that would take effect, and what it would do to the registers.
#[derive(Clone, Copy, PartialEq, Eq)]
pub struct Planned {
    pub instr: Instr,
    /// The register that it writes, x0 where it writes none.
    pub rd: Reg,
    /// What it writes there.
    pub value: u64,
    /// Where the next instruction stands.
    pub pc: u64,
}

/// What the instruction at pc would come to.
#[derive(Clone, Copy, PartialEq, Eq)]
pub enum Prospect {
    /// This one would take effect: it may be executed.
    Next(Planned),
    /// It is an ECALL, which waits for whoever serves calls.
    Call,
    /// It would end its process with this status.
    End(u8),
}
