//! Fields, split off at the front of bytes. Each function gives what it found and the bytes behind
//! that.
ghost use Rattle.std.specs.Prelude.{◌≡◌, ◌<◌, ◌++◌, Bool, List, ℕ, length, IfSome, IfNone};
ghost use Rattle.schedule_log.specs.Fields.{field, BeginsCounted, BeginsFlag, BeginsNamed, OnlyCounted, OnlyNamed};

use byteorder::{ByteOrder, LittleEndian};
use parts_model::limits::MOST_NAME_BYTES;

pub fn split_u8(bytes: &[u8]) -> Option<(u8, &[u8])>
    ensures some { IfSome result (λ found. bytes.now ≡ field 1 found.0 ++ found.1.now) }
    ensures none { IfNone result (length bytes.now < 1) }
{
    let (number, rest) = bytes.split_first()?;
    Some((*number, rest))
}

pub fn split_u16(bytes: &[u8]) -> Option<(u16, &[u8])>
    ensures some { IfSome result (λ found. bytes.now ≡ field 2 found.0 ++ found.1.now) }
    ensures none { IfNone result (length bytes.now < 2) }
{
    let (number, rest) = bytes.split_at_checked(2)?;
    Some((LittleEndian::read_u16(number), rest))
}

pub fn split_u32(bytes: &[u8]) -> Option<(u32, &[u8])>
    ensures some { IfSome result (λ found. bytes.now ≡ field 4 found.0 ++ found.1.now) }
    ensures none { IfNone result (length bytes.now < 4) }
{
    let (number, rest) = bytes.split_at_checked(4)?;
    Some((LittleEndian::read_u32(number), rest))
}

pub fn split_u64(bytes: &[u8]) -> Option<(u64, &[u8])>
    ensures some { IfSome result (λ found. bytes.now ≡ field 8 found.0 ++ found.1.now) }
    ensures none { IfNone result (length bytes.now < 8) }
{
    let (number, rest) = bytes.split_at_checked(8)?;
    Some((LittleEndian::read_u64(number), rest))
}

/// A byte other than 0 and 1 is no flag.
pub fn split_flag(bytes: &[u8]) -> Option<(bool, &[u8])>
    ensures some { IfSome result (λ found. BeginsFlag bytes.now found.0 found.1.now) }
    ensures none { IfNone result ((flag : Bool) (rest : List ℕ) → ¬ BeginsFlag bytes.now flag rest) }
{
    let (byte, rest) = split_u8(bytes)?;
    match byte {
        0 => Some((false, rest)),
        1 => Some((true, rest)),
        _ => None,
    }
}

/// A list of bytes behind its length.
pub fn split_counted(bytes: &[u8]) -> Option<(&[u8], &[u8])>
    ensures some { IfSome result (λ found. BeginsCounted bytes.now found.0.now found.1.now) }
    ensures only { IfSome result (λ found. OnlyCounted bytes.now found.0.now found.1.now) }
    ensures none { IfNone result ((found rest : List ℕ) → ¬ BeginsCounted bytes.now found rest) }
{
    let (count, behind) = split_u32(bytes)?;
    behind.split_at_checked(count as usize)
}

/// A name behind its length. One of no bytes, or of more than 64, is none.
pub fn split_named(bytes: &[u8]) -> Option<(&[u8], &[u8])>
    ensures some { IfSome result (λ found. BeginsNamed bytes.now found.0.now found.1.now) }
    ensures only { IfSome result (λ found. OnlyNamed bytes.now found.0.now found.1.now) }
    ensures none { IfNone result ((name rest : List ℕ) → ¬ BeginsNamed bytes.now name rest) }
{
    let (count, behind) = split_u8(bytes)?;
    if count == 0 || u64::from(count) > MOST_NAME_BYTES {
        return None;
    }
    behind.split_at_checked(usize::from(count))
}
