// What a statement means: how many bytes it has, which label it names, and whether it reaches it.
ghost use Rattle.std.specs.Prelude.{◌≡◌, ℕ, ◌<◌, ◌≤◌, ◌^◌, ◌%◌, ◌==◌, ◌&&◌, unsigned_abs, ℤ};
ghost use Rattle.std.specs.Prelude.{if◌then◌else◌, option_map};
ghost use Rattle.guest_asm.specs.Meanings as meanings;
ghost use Rattle.asm_text.specs.Seen.{Keeps, Tells};
ghost use Rattle.asm_text.specs.Statements as says;

use crate::fields::{is_between, is_count, is_immediate, is_short, is_upper};
use crate::splitting::{are_bytes, operand_count};
use asm_text::{Number, Statement};

pub(crate) fn is_code(statement: &Statement<'_>) -> bool
    ensures { (s : says.Statement) → Keeps statement.now s → result ≡ meanings.is_code s }
{
    !matches!(
        statement,
        Statement::Nothing
            | Statement::Label { .. }
            | Statement::Bytes { .. }
            | Statement::Zeros { .. }
    )
}

// The label that a statement names as an operand, if it does.
pub(crate) fn named_label<'a>(statement: &Statement<'a>) -> Option<&'a [u8]>
    ensures { (s : says.Statement) → Keeps statement.now s →
        meanings.named_label s ≡ option_map (λ label. label.now) result }
{
    match *statement {
        Statement::Jal { label, .. }
        | Statement::Branch { label, .. }
        | Statement::Address { label, .. } => Some(label),
        _ => None,
    }
}

// The upper 20 bits of an address, rounded.
pub(crate) fn upper_part(address: u64) -> u64
    requires { address < 2 ^ 32 }
    ensures { result ≡ meanings.upper_part address }
{
    (address + 0x800) / 0x1000
}

// What the upper part misses of an address.
pub(crate) fn lower_part(address: u64) -> i64
    requires { address < 2 ^ 32 }
    ensures { result ≡ meanings.lower_part address }
{
    distance(upper_part(address) * 0x1000, address)
}

// From one address to another.
pub(crate) fn distance(from: u64, to: u64) -> i64
    requires from { from < 2 ^ 40 }
    requires to { to < 2 ^ 40 }
    ensures { result ≡ meanings.distance from to }
{
    to.cast_signed() - from.cast_signed()
}

// An even distance from a range, both ends included.
fn is_even_between(low: i32, high: i32, distance: i64) -> bool
    ensures { result ≡
        (meanings.is_between low high distance && (unsigned_abs distance % 2 == 0)) }
{
    is_between(low, high, Number::Small { value: distance }) && distance.unsigned_abs() % 2 == 0
}

// The distance to the label that a statement names fits.
pub(crate) fn reaches(statement: &Statement<'_>, from: u64, to: u64) -> bool
    requires from { from < 2 ^ 40 }
    requires to { to < 2 ^ 32 }
    ensures { (s : says.Statement) → Keeps statement.now s → result ≡ meanings.reaches s from to }
{
    match statement {
        Statement::Jal { .. } => is_even_between(-0x10_0000, 0xf_fffe, distance(from, to)),
        Statement::Branch { .. } => is_even_between(-0x1000, 0xffe, distance(from, to)),
        Statement::Address { .. } => upper_part(to) <= 0xf_ffff,
        _ => true,
    }
}

// The numbers of a statement lie in their fields.
pub(crate) fn has_fields(statement: &Statement<'_>) -> bool
    ensures { (s : says.Statement) → Keeps statement.now s → result ≡ meanings.has_fields s }
{
    match *statement {
        Statement::Lui { imm, .. } | Statement::Auipc { imm, .. } => is_upper(imm),
        Statement::Jalr { imm, .. } | Statement::Load { imm, .. } | Statement::Store { imm, .. } =>
            is_short(imm),
        Statement::Imm { op, imm, .. } => is_immediate(op, imm),
        Statement::Bytes { operands } => are_bytes(operands),
        Statement::Zeros { count } => is_count(count),
        _ => true,
    }
}

// How many zeros a number stands for: none where it is out of its field.
pub(crate) fn zeros(count: Number) -> u64
    ensures count { (n : ℤ) → Tells count n →
        result ≡ (if meanings.is_count n then unsigned_abs n else 0) }
    ensures few { result ≤ 262144 }
{
    match count {
        Number::Small { value } if 0 <= value && value <= 262_144 => value as u64,
        _ => 0,
    }
}

// How many bytes a statement has.
pub(crate) fn size(statement: &Statement<'_>) -> u64
    ensures size { (s : says.Statement) → Keeps statement.now s → result ≡ meanings.size s }
    ensures few { result ≤ 2 ^ 63 }
{
    match *statement {
        Statement::Nothing | Statement::Label { .. } => 0,
        Statement::Address { .. } => 8,
        Statement::Bytes { operands } => operand_count(operands),
        Statement::Zeros { count } => zeros(count),
        _ => 4,
    }
}
