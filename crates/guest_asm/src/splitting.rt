// The parts of a text.
ghost use Rattle.std.specs.Prelude.{◌≡◌, ◌==◌, ◌++◌, [], ◌∷◌, ◌≤◌, ◌^◌, false, List, length, map};
ghost use Rattle.std.specs.Prelude.{IfSome, IfNone, OnOk, ℤ, pos, unsigned_abs};
ghost use Rattle.std.specs.List.{position, list_all};
ghost use Rattle.asm_text.specs.Characters as characters;
ghost use Rattle.asm_text.specs.Characters.{parts};
ghost use Rattle.guest_asm.specs.Meanings.{is_byte};
ghost use Rattle.asm_text.specs.Numbers.{number_of};
ghost use Rattle.guest_asm.specs.Parted.{left, AreBytes};
ghost use Rattle.asm_text.specs.Statements.{numbers_of, operands};

use arn_base::{Bytes, NoMemory};
use asm_text::{Number, number_of, trimmed};

// Where a byte stands first.
fn find(text: &[u8], byte: u8) -> Option<usize>
    ensures { result ≡ position (λ c. c == byte) text.now }
{
    text.iter().position(|c| *c == byte)
}

// A line up to its comment.
pub(crate) fn without_comment(line: &[u8]) -> &[u8]
    ensures { result.now ≡ characters.without_comment line.now }
{
    match find(line, b'#') {
        Some(at) => &line[..at],
        None => line,
    }
}

#[tactic(auto, using(crate::proofs::Parting::operands_count))]
pub(crate) fn operand_count(text: &[u8]) -> u64
    ensures count { result ≡ length (operands text.now) }
    ensures few { result ≤ 2 ^ 63 }
{
    if text.is_empty() {
        return 0;
    }
    text.iter().filter(|c| **c == b',').count() as u64 + 1
}

// The byte that a text spells as a number, if it does.
fn byte(text: &[u8]) -> Option<u8>
    ensures some { IfSome result (λ byte. number_of text.now ≡ Some (pos byte)) }
    ensures none { IfNone result ((n : ℤ) → number_of text.now ≡ Some n → is_byte n ≡ false) }
{
    match number_of(text) {
        Some(Number::Small { value }) if 0 <= value && value <= 255 => Some(value as u8),
        _ => None,
    }
}

// The numbers that the operands spell are bytes.
pub(crate) fn are_bytes(text: &[u8]) -> bool
    ensures { (numbers : List ℤ) → numbers_of (operands text.now) ≡ Some numbers →
        result ≡ list_all is_byte numbers }
{
    let mut parts = Parts::operands(text);
    while let Some(part) = parts.next() {
        let Some(_) = byte(trimmed(part)) else {
            return false;
        };
    }
    true
}

// Adds the bytes that the operands spell.
pub(crate) fn push_bytes(bytes: &mut Bytes, text: &[u8]) -> Result<(), NoMemory>
    requires { AreBytes text.now }
    ensures { OnOk result ((numbers : List ℤ) → numbers_of (operands text.now) ≡ Some numbers →
        bytes.new ≡ bytes.old ++ map unsigned_abs numbers) }
{
    let mut parts = Parts::operands(text);
    while let Some(part) = parts.next() {
        bytes.push(byte(trimmed(part)).unwrap())?;
    }
    Ok(())
}

/// The parts of a text that are left, as long as there are some.
#[derive(Clone, Copy)]
pub(crate) struct Parts<'a> {
    rest: Option<&'a [u8]>,
    separator: u8,
}

impl<'a> Parts<'a> {
    pub(crate) fn new(text: &'a [u8], separator: u8) -> Parts<'a>
        ensures { left result ≡ parts separator text.now }
    {
        Parts {
            rest: Some(text),
            separator,
        }
    }

    // The operands in a text, with the blanks around them.
    pub(crate) fn operands(text: &'a [u8]) -> Parts<'a>
        ensures { map characters.trimmed (left result) ≡ operands text.now }
    {
        Parts {
            rest: if text.is_empty() { None } else { Some(text) },
            separator: b',',
        }
    }

    pub(crate) fn next(&mut self) -> Option<&'a [u8]>
        ensures some { IfSome result (λ part. left self.old ≡ part.now ∷ left self.new) }
        ensures none { IfNone result (left self.old ≡ []) }
    {
        let text = self.rest?;
        match find(text, self.separator) {
            Some(at) => {
                self.rest = Some(&text[at + 1..]);
                Some(&text[..at])
            }
            None => {
                self.rest = None;
                Some(text)
            }
        }
    }
}
