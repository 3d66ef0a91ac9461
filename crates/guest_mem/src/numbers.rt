// Numbers at a place of a window's bytes, the lowest byte first.
ghost use Rattle.std.specs.Prelude.{◌≡◌, ◌<◌, ◌≤◌, ◌+◌, ◌^◌, ◌*◌, length, take, drop};
ghost use Rattle.arn_base.specs.Disk.{overwrite};
ghost use Rattle.arn_base.specs.Window.{IsAccessLength, number_of, bytes_of};

use byteorder::{ByteOrder, LittleEndian};

#[inline(always)]
fn load_2(bytes: &[u8], place: usize) -> u16
    requires { place + 2 ≤ length bytes.now }
    ensures { result ≡ number_of (take 2 (drop place bytes.now)) }
{
    LittleEndian::read_u16(&bytes[place..])
}

#[inline(always)]
fn load_4(bytes: &[u8], place: usize) -> u32
    requires { place + 4 ≤ length bytes.now }
    ensures { result ≡ number_of (take 4 (drop place bytes.now)) }
{
    LittleEndian::read_u32(&bytes[place..])
}

#[inline(always)]
fn load_8(bytes: &[u8], place: usize) -> u64
    requires { place + 8 ≤ length bytes.now }
    ensures { result ≡ number_of (take 8 (drop place bytes.now)) }
{
    LittleEndian::read_u64(&bytes[place..])
}

/// The number that the `len` bytes at a place spell.
#[inline(always)]
pub fn load(bytes: &[u8], place: usize, len: u8) -> u64
    requires length { IsAccessLength len }
    requires whole { place + len ≤ length bytes.now }
    ensures number { result ≡ number_of (take len (drop place bytes.now)) }
    ensures fits { result < 2 ^ (8 * len) }
{
    match len {
        1 => bytes[place] as u64,
        2 => load_2(bytes, place) as u64,
        4 => load_4(bytes, place) as u64,
        _ => load_8(bytes, place),
    }
}

/// Writes the low `len` bytes of a number at a place.
#[inline(always)]
pub fn store(bytes: &mut [u8], place: usize, len: u8, value: u64)
    requires length { IsAccessLength len }
    requires whole { place + len ≤ length bytes.old }
    ensures { bytes.new ≡ overwrite bytes.old place (bytes_of len value) }
{
    let spelled = value.to_le_bytes();
    match len {
        1 => bytes[place] = spelled[0],
        2 => bytes[place..place + 2].copy_from_slice(&spelled[..2]),
        4 => bytes[place..place + 4].copy_from_slice(&spelled[..4]),
        _ => bytes[place..place + 8].copy_from_slice(&spelled),
    }
}
