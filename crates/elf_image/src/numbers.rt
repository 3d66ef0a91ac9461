// Numbers of a file.
ghost use Rattle.std.specs.Prelude.{◌≡◌, ◌≤◌, ◌+◌, nat_le, length};
ghost use Rattle.elf_image.specs.Elf.{number_in};

use byteorder::{ByteOrder, LittleEndian};

/// The number in the 2 bytes at a place.
pub fn number_2(bytes: &[u8], at: usize) -> u16
    requires { at + 2 ≤ length bytes.now }
    ensures { result ≡ number_in bytes.now at 2 }
{
    LittleEndian::read_u16(&bytes[at..])
}

/// The number in the 4 bytes at a place.
pub fn number_4(bytes: &[u8], at: usize) -> u32
    requires { at + 4 ≤ length bytes.now }
    ensures { result ≡ number_in bytes.now at 4 }
{
    LittleEndian::read_u32(&bytes[at..])
}

/// The number in the 8 bytes at a place.
pub fn number_8(bytes: &[u8], at: usize) -> u64
    requires { at + 8 ≤ length bytes.now }
    ensures { result ≡ number_in bytes.now at 8 }
{
    LittleEndian::read_u64(&bytes[at..])
}

/// Whether a range of so many bytes ends at a bound or before it.
pub fn ends_by(from: u64, len: u64, bound: u64) -> bool
    ensures { result ≡ nat_le (from + len) bound }
{
    match from.checked_add(len) {
        Some(end) => end <= bound,
        None => false,
    }
}
