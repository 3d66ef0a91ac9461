// Bytes that an instruction reads, a bit for each.
ghost use Rattle.std.specs.Prelude.{◌≡◌, ◌+◌, ◌-◌, ◌^◌, ◌<◌, false};
ghost use Rattle.rv64_model.specs.Carries.{of_left, unless_x0};
ghost use Rattle.link_rules.specs.Listed.{listed};

use rv64_isa::Reg;

/// Bytes that an instruction reads.
#[derive(Clone, Copy, Debug, PartialEq, Eq)]
pub struct Operands {
    /// Bytes of rs1: bit i is set for byte i.
    pub first: u8,
    /// Bytes of rs2.
    pub second: u8,
    /// Bytes that are loaded, counted from the address.
    pub loaded: u8,
    /// All eight bytes of rs1 besides, as the register of an address.
    pub address: bool,
}

/// No byte at all.
pub const NONE: Operands = Operands {
    first: 0,
    second: 0,
    loaded: 0,
    address: false,
};

/// All bytes of a register.
pub const ALL: u8 = 0b1111_1111;

/// The bytes of a register's low word.
pub const WORD: u8 = 0b0000_1111;

/// One byte.
pub fn bit(byte: u8) -> u8
    requires { byte < 8 }
    ensures { result ≡ 2 ^ byte }
{
    1 << byte
}

/// A byte and those below it.
pub fn up_to(byte: u8) -> u8
    requires { byte < 8 }
    ensures { result ≡ 2 ^ (byte + 1) - 1 }
{
    ALL >> (7 - byte)
}

impl Operands {
    /// These bytes of both registers.
    pub fn both(mask: u8) -> Operands
        ensures { result ≡ record { first = mask; second = mask; loaded = 0; address = false } }
    {
        Operands {
            first: mask,
            second: mask,
            ..NONE
        }
    }

    /// These bytes of rs1, and byte 0 of rs2.
    pub fn shifted(mask: u8) -> Operands
        ensures { result ≡ record { first = mask; second = 1; loaded = 0; address = false } }
    {
        Operands {
            first: mask,
            second: bit(0),
            ..NONE
        }
    }

    /// The bytes of rs1 alone.
    pub fn of_first(self) -> Operands
        ensures { listed result ≡ of_left (listed self) }
    {
        Operands {
            first: self.first,
            ..NONE
        }
    }

    /// None where the result goes to x0.
    pub fn unless_x0(self, rd: Reg) -> Operands
        ensures { listed result ≡ unless_x0 rd (listed self) }
    {
        if rd.number() == 0 { NONE } else { self }
    }
}
