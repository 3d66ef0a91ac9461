// Numbers in a text.
ghost use Rattle.std.specs.Prelude.{◌≡◌, ℕ, ◌≤◌, ◌^◌, ◌-◌, pos, neg_ℤ, min};
ghost use Rattle.asm_text.specs.Numbers as number;
ghost use Rattle.asm_text.specs.Pieces.{KeepsMagnitude, KeepsNumber};
ghost use Rattle.asm_text.specs.Seen.{Tells};

use crate::statement::Number;

fn digit_of(base: u32, byte: u8) -> Option<u32>
    requires least { 2 ≤ base }
    requires most { base ≤ 16 }
    ensures { result ≡ number.digit_of base byte }
{
    char::from(byte).to_digit(base)
}

// The number that the digits spell, or the greatest number if it is greater.
fn digits(base: u32, text: &[u8]) -> Option<u64>
    requires least { 2 ≤ base }
    requires most { base ≤ 16 }
    ensures { KeepsMagnitude result (number.digits base text.now) }
{
    if text.is_empty() {
        return None;
    }
    let mut value = 0u64;
    for byte in text {
        let digit = digit_of(base, *byte)?;
        value = u64::from(base)
            .saturating_mul(value)
            .saturating_add(u64::from(digit));
    }
    Some(value)
}

fn decimal_of(text: &[u8]) -> Option<u64>
    ensures { KeepsMagnitude result (number.decimal_of text.now) }
{
    match text {
        [b'0', _, ..] => None,
        _ => digits(10, text),
    }
}

fn unsigned_of(text: &[u8]) -> Option<u64>
    ensures { KeepsMagnitude result (number.unsigned_of text.now) }
{
    match text {
        [b'0', b'x', behind @ ..] => digits(16, behind),
        _ => decimal_of(text),
    }
}

fn positive(magnitude: u64) -> Number
    ensures { (n : ℕ) → magnitude ≡ min n (2 ^ 64 - 1) → Tells result (pos n) }
{
    match i64::try_from(magnitude) {
        Ok(value) => Number::Small { value },
        Err(_) => Number::Large,
    }
}

fn negative(magnitude: u64) -> Number
    ensures { (n : ℕ) → magnitude ≡ min n (2 ^ 64 - 1) → Tells result (neg_ℤ (pos n)) }
{
    match i64::try_from(magnitude) {
        Ok(value) => Number::Small { value: -value },
        Err(_) => Number::Large,
    }
}

/// The number that a text spells, if it spells one: decimal, without leading zeros and perhaps behind
/// `-`, or `0x` and hex digits.
pub fn number_of(text: &[u8]) -> Option<Number>
    ensures { KeepsNumber result (number.number_of text.now) }
{
    match text {
        [b'-', behind @ ..] => Some(negative(decimal_of(behind)?)),
        _ => Some(positive(unsigned_of(text)?)),
    }
}
