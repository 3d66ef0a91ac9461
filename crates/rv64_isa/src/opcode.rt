// The opcodes, by their names in the manual's opcode map.
pub(crate) const LUI: u32 = 0b011_0111;

pub(crate) const AUIPC: u32 = 0b001_0111;

pub(crate) const JAL: u32 = 0b110_1111;

pub(crate) const JALR: u32 = 0b110_0111;

pub(crate) const BRANCH: u32 = 0b110_0011;

pub(crate) const LOAD: u32 = 0b000_0011;

pub(crate) const STORE: u32 = 0b010_0011;

pub(crate) const OP_IMM: u32 = 0b001_0011;

pub(crate) const OP_IMM_32: u32 = 0b001_1011;

pub(crate) const OP: u32 = 0b011_0011;

pub(crate) const OP_32: u32 = 0b011_1011;

pub(crate) const MISC_MEM: u32 = 0b000_1111;

pub(crate) const SYSTEM: u32 = 0b111_0011;

// The words under SYSTEM.
pub(crate) const ECALL: u32 = 0x0000_0073;

pub(crate) const EBREAK: u32 = 0x0010_0073;
