// A processor's registers, blocks of memory, and the state of some processes.

use crate::{Members, Windows};

/// The registers of one RV64I hart: `x[k]` is the register x(k + 1), since x0 is always zero, and
/// `pc` is the address of the instruction to run next (RISC-V unprivileged manual, "RV32I Base
/// Integer Instruction Set", "Programmers' Model", with XLEN 64).
#[derive(Clone, Copy, Debug, PartialEq, Eq)]
pub struct Cpu {
    pub x: [u64; 31],
    pub pc: u64,
}

/// 256 bytes of a window: block `number` begins at 256 times that number.
#[derive(Clone, Copy, Debug, PartialEq, Eq)]
pub struct Block {
    pub number: u16,
    pub bytes: [u8; 256],
}

/// A process among others: its registers, the saved ones where there are any, and the numbers of its
/// window and of its segment, where it holds one, in the lists beside it.
#[derive(Clone, Copy, Debug, PartialEq, Eq)]
pub struct Member {
    pub pid: u32,
    pub cpu: Cpu,
    pub slot: Option<Cpu>,
    pub window: u8,
    pub segment: Option<u8>,
}

/// The whole state of some processes, in order of number. Windows and segments are numbered from 0
/// by the first member that holds them, and each is given by its blocks that aren't all zero, rising.
#[derive(Debug, Drop, PartialEq, Eq)]
pub struct State {
    pub members: Members,
    pub windows: Windows,
    pub segments: Windows,
}
