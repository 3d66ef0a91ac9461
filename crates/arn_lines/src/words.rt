// The words of a line: names, numbers and bytes.
ghost use Rattle.std.specs.Prelude.{◌≡◌, ◌≢◌, ℕ, ◌+◌, ◌^◌, ◌<◌, ◌↔◌, List, ◌++◌, All, IsTrue, IfOk, IfSome, IfNone, codes, decimal};
ghost use Rattle.std.specs.List.{list_all};
ghost use Rattle.arn_lines.specs.Pieces.{IsFirstWord, IsNoSpace, IsUnpadded};
ghost use Rattle.arn_lines.specs.Words.{IsBytes, IsHex, IsHexDigit, IsHexNumber, IsName, IsNumber, is_name, is_name_byte};

use arn_base::{Bytes, NoMemory};
use hex::FromHexError;
use std::alloc::Global;
use std::str;

/// How many bytes a name has at most.
const MOST_NAME: usize = 64;

/// How many digits a hex number has at most.
const MOST_DIGITS: usize = 16;

// What stands behind the given start.
pub(crate) fn after<'a>(text: &'a [u8], start: &[u8]) -> Option<&'a [u8]>
    ensures some { IfSome result (λ rest. text.now ≡ start.now ++ rest.now) }
    ensures none { IfNone result ((rest : List ℕ) → text.now ≢ start.now ++ rest) }
{
    text.strip_prefix(start)
}

// The text up to its first space, and what stands behind that.
pub(crate) fn split_word(text: &[u8]) -> Option<(&[u8], &[u8])>
    ensures some { IfSome result (λ parts. IsFirstWord text.now parts.0.now parts.1.now) }
    ensures none { IfNone result (All IsNoSpace text.now) }
{
    let at = text.iter().position(|byte| *byte == b' ')?;
    Some((&text[..at], &text[at + 1..]))
}

fn are_name_bytes(text: &[u8]) -> bool
    ensures { result ≡ list_all is_name_byte text.now }
{
    text.iter().all(|byte| byte.is_ascii_graphic())
}

pub(crate) fn is_name(text: &[u8]) -> bool
    ensures { result ≡ is_name text.now }
{
    !text.is_empty() && text.len() <= MOST_NAME && are_name_bytes(text)
}

// A copy of the text, if it is a name.
pub(crate) fn name(alloc: Global, text: &[u8]) -> Result<Option<Bytes>, NoMemory>
    ensures some { IfOk result
        (λ found. IfSome found (λ name. IsName text.now × (name ≡ text.now))) }
    ensures none { IfOk result (λ found. IfNone found (¬ IsName text.now)) }
{
    if !is_name(text) {
        return Ok(None);
    }
    Ok(Some(Bytes::from_slice(alloc, text)?))
}

fn hex_digit(digit: u8) -> Option<u32>
    ensures some { IfSome result (IsHexDigit digit) }
    ensures none { IfNone result ((value : ℕ) → ¬ IsHexDigit digit value) }
{
    char::from(digit).to_digit(16)
}

// The bytes that pairs of hex digits spell.
fn hex_bytes(alloc: Global, text: &[u8]) -> Result<Option<Bytes>, NoMemory>
    ensures some { IfOk result (λ found. IfSome found (IsHex text.now)) }
    ensures none { IfOk result
        (λ found. IfNone found ((bytes : List ℕ) → ¬ IsHex text.now bytes)) }
{
    match hex::decode(alloc, text) {
        Ok(bytes) => Ok(Some(Bytes::from(bytes))),
        Err(error) if error == FromHexError::OutOfMemory => Err(NoMemory),
        Err(_) => Ok(None),
    }
}

pub(crate) fn bytes(alloc: Global, text: &[u8]) -> Result<Option<Bytes>, NoMemory>
    ensures some { IfOk result (λ found. IfSome found (IsBytes text.now)) }
    ensures none { IfOk result
        (λ found. IfNone found ((bytes : List ℕ) → ¬ IsBytes text.now bytes)) }
{
    match text {
        [] => Ok(None),
        b"-" => Ok(Some(Bytes::new(alloc))),
        _ => hex_bytes(alloc, text),
    }
}

// The number that these digits spell behind `0x`.
fn hex_number(digits: &[u8]) -> Option<u64>
    ensures some { IfSome result (IsHexNumber (codes "0x" ++ digits.now)) }
    ensures none { IfNone result ((n : ℕ) → ¬ IsHexNumber (codes "0x" ++ digits.now) n) }
{
    if digits.is_empty() || digits.len() > MOST_DIGITS {
        return None;
    }
    let mut number = 0u64;
    for digit in digits {
        number = 16 * number + u64::from(hex_digit(*digit)?);
    }
    Some(number)
}

// Whether the text is `0`, or begins with another digit.
fn is_unpadded(text: &[u8]) -> bool
    ensures { IsTrue result ↔ IsUnpadded text.now }
{
    matches!(text, [b'0'] | [b'1'..=b'9', ..])
}

// The number that the text spells in decimal, without leading zeros.
fn decimal_number(text: &[u8]) -> Option<u64>
    ensures some { IfSome result (λ n. text.now ≡ decimal n) }
    ensures none { IfNone result ((n : ℕ) → n < 2 ^ 64 → text.now ≢ decimal n) }
{
    if !is_unpadded(text) {
        return None;
    }
    str::from_utf8(text).ok()?.parse().ok()
}

pub(crate) fn number(text: &[u8]) -> Option<u64>
    ensures some { IfSome result (IsNumber text.now) }
    ensures none { IfNone result ((n : ℕ) → ¬ IsNumber text.now n) }
{
    match after(text, b"0x") {
        Some(digits) => hex_number(digits),
        None => decimal_number(text),
    }
}
