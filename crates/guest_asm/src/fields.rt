// The numbers of a statement, and the fields in which they lie.
ghost use Rattle.std.specs.Prelude.{◌≡◌, ℤ};
ghost use Rattle.guest_asm.specs.Meanings as meanings;
ghost use Rattle.asm_text.specs.Seen.{Tells};

use asm_text::Number;
use rv64_isa::ImmOp;

/// How many bytes a program's body has at most.
pub(crate) const MOST_BYTES: u64 = 262_144;

// A number from a range, both ends included.
pub(crate) fn is_between(low: i32, high: i32, number: Number) -> bool
    ensures { (n : ℤ) → Tells number n → result ≡ meanings.is_between low high n }
{
    match number {
        Number::Small { value } => i64::from(low) <= value && value <= i64::from(high),
        Number::Large => false,
    }
}

pub(crate) fn is_short(number: Number) -> bool
    ensures { (n : ℤ) → Tells number n → result ≡ meanings.is_short n }
{
    is_between(-2048, 2047, number)
}

pub(crate) fn is_upper(number: Number) -> bool
    ensures { (n : ℤ) → Tells number n → result ≡ meanings.is_upper n }
{
    is_between(0, 0xf_ffff, number)
}

pub(crate) fn is_count(number: Number) -> bool
    ensures { (n : ℤ) → Tells number n → result ≡ meanings.is_count n }
{
    is_between(0, 262_144, number)
}

pub(crate) fn is_immediate(op: ImmOp, number: Number) -> bool
    ensures { (n : ℤ) → Tells number n → result ≡ meanings.is_immediate op n }
{
    match op {
        ImmOp::Slli | ImmOp::Srli | ImmOp::Srai => is_between(0, 63, number),
        ImmOp::Slliw | ImmOp::Srliw | ImmOp::Sraiw => is_between(0, 31, number),
        _ => is_short(number),
    }
}
