// The operands of a statement.
ghost use Rattle.std.specs.Prelude.{◌≡◌, ◌≢◌, ℕ, List, [], ◌∷◌, IfNone, IfSome};
ghost use Rattle.std.specs.Prelude.{is_some, map, reverse};
ghost use Rattle.asm_text.specs.Characters as character;
ghost use Rattle.asm_text.specs.Statements as statement;
ghost use Rattle.asm_text.specs.Numbers.{number_of};
ghost use Rattle.asm_text.specs.Pieces.{KeepsOffset, KeepsText};

use crate::characters::{cut, is_label, trimmed};
use crate::numbers::number_of;
use crate::registers::register_of;
use crate::statement::Number;
use rv64_isa::Reg;

/// A distance from a register.
#[derive(Clone, Copy)]
pub(crate) struct Offset {
    pub(crate) imm: Number,
    pub(crate) register: Reg,
}

// The parts on both sides of a separator, if there is one alone.
fn cut_once(text: &[u8], separator: u8) -> Option<(&[u8], &[u8])>
    ensures some { IfSome result
        (λ found. character.parts separator text.now ≡ found.0.now ∷ found.1.now ∷ []) }
    ensures none { IfNone result
        ((a b : List ℕ) → character.parts separator text.now ≢ a ∷ b ∷ []) }
{
    let (first, second) = cut(text, separator)?;
    match cut(second, separator) {
        None => Some((first, second)),
        Some(_) => None,
    }
}

// The operand, if there is one alone.
pub(crate) fn one(text: &[u8]) -> Option<&[u8]>
    ensures some { IfSome result (λ a. statement.operands text.now ≡ a.now ∷ []) }
    ensures none { IfNone result ((a : List ℕ) → statement.operands text.now ≢ a ∷ []) }
{
    if text.is_empty() {
        return None;
    }
    match cut(text, b',') {
        None => Some(trimmed(text)),
        Some(_) => None,
    }
}

// The operands, if there are two.
pub(crate) fn two(text: &[u8]) -> Option<(&[u8], &[u8])>
    ensures some { IfSome result
        (λ found. statement.operands text.now ≡ found.0.now ∷ found.1.now ∷ []) }
    ensures none { IfNone result ((a b : List ℕ) → statement.operands text.now ≢ a ∷ b ∷ []) }
{
    let (first, second) = cut_once(text, b',')?;
    Some((trimmed(first), trimmed(second)))
}

// The operands, if there are three.
pub(crate) fn three(text: &[u8]) -> Option<(&[u8], &[u8], &[u8])>
    ensures some { IfSome result
        (λ found. statement.operands text.now
        ≡ found.0.now ∷ found.1.now ∷ found.2.now ∷ []) }
    ensures none { IfNone result
        ((a b c : List ℕ) → statement.operands text.now ≢ a ∷ b ∷ c ∷ []) }
{
    let (first, others) = cut(text, b',')?;
    let (second, third) = two(others)?;
    Some((trimmed(first), second, third))
}

fn is_number(text: &[u8]) -> bool
    ensures { result ≡ is_some (number_of text.now) }
{
    number_of(text).is_some()
}

// Whether each of the texts between commas is a number.
pub(crate) fn are_numbers(text: &[u8]) -> bool
    ensures { result
        ≡ is_some (statement.numbers_of (map character.trimmed (character.parts 44 text.now))) }
{
    let mut rest = text;
    while let Some((first, others)) = cut(rest, b',') {
        if !is_number(trimmed(first)) {
            return false;
        }
        rest = others;
    }
    is_number(trimmed(rest))
}

pub(crate) fn label_of(text: &[u8]) -> Option<&[u8]>
    ensures { KeepsText result (statement.label_of text.now) }
{
    is_label(text).then_some(text)
}

// The register in front of a closing parenthesis.
fn enclosed(text: &[u8]) -> Option<Reg>
    ensures { result ≡ statement.enclosed (reverse text.now) }
{
    match text.split_last() {
        Some((b')', register)) => register_of(trimmed(register)),
        _ => None,
    }
}

pub(crate) fn offset_of(text: &[u8]) -> Option<Offset>
    ensures { KeepsOffset result (statement.offset_of text.now) }
{
    let (imm, behind) = cut_once(text, b'(')?;
    let imm = number_of(trimmed(imm))?;
    let register = enclosed(behind)?;
    Some(Offset { imm, register })
}
