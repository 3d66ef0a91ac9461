// Questions of a session, read.
ghost use Rattle.std.specs.Prelude.{◌≡◌, ◌≢◌, ℕ, List, [], ◌∷◌, ◌++◌, IfOk, IfSome, IfNone, codes};
ghost use Rattle.rv64_model.specs.declared.linkage.Linkage.{Linkage};
ghost use Rattle.arn_lines.specs.declared.line.Aspect.{Aspect};
ghost use Rattle.arn_lines.specs.declared.line.Sought.{Sought};
ghost use Rattle.arn_lines.specs.Questions.{AreNumbers, IsAspect, IsLinkage, IsNumberAnd, IsQuestion, IsSought};
ghost use Rattle.arn_lines.specs.Pieces.{AsksNothing};

use crate::words::{after, name, number, split_word};
use crate::{Aspect, Question, Sought};
use arn_base::NoMemory;
use rv64_model::Linkage;
use std::alloc::Global;

fn linkage(word: &[u8]) -> Option<Linkage>
    ensures some { IfSome result (IsLinkage word.now) }
    ensures none { IfNone result ((linkage : Linkage) → ¬ IsLinkage word.now linkage) }
{
    if word == b"copy".as_slice() {
        return Some(Linkage::Copy);
    }
    if word == b"data".as_slice() {
        return Some(Linkage::Data);
    }
    if word == b"index".as_slice() {
        return Some(Linkage::Index);
    }
    None
}

// The number at the start, and what stands behind the space after it.
fn next_number(text: &[u8]) -> Option<(u64, &[u8])>
    ensures some { IfSome result (λ found. IsNumberAnd text.now found.0 found.1.now) }
    ensures none { IfNone result ((n : ℕ) (rest : List ℕ) → ¬ IsNumberAnd text.now n rest) }
{
    let (word, rest) = split_word(text)?;
    Some((number(word)?, rest))
}

pub(crate) fn two_numbers(text: &[u8]) -> Option<(u64, u64)>
    ensures some { IfSome result (λ n. AreNumbers text.now (n.0 ∷ n.1 ∷ [])) }
    ensures none { IfNone result ((a b : ℕ) → ¬ AreNumbers text.now (a ∷ b ∷ [])) }
{
    let (first, rest) = next_number(text)?;
    Some((first, number(rest)?))
}

fn three_numbers(text: &[u8]) -> Option<(u64, u64, u64)>
    ensures some { IfSome result (λ n. AreNumbers text.now (n.0 ∷ n.1 ∷ n.2 ∷ [])) }
    ensures none { IfNone result ((a b c : ℕ) → ¬ AreNumbers text.now (a ∷ b ∷ c ∷ [])) }
{
    let (first, rest) = next_number(text)?;
    let (second, third) = two_numbers(rest)?;
    Some((first, second, third))
}

fn file_aspect(alloc: Global, text: &[u8]) -> Result<Option<Aspect>, NoMemory>
    ensures some { IfOk result (λ found. IfSome found (IsAspect (codes "file " ++ text.now))) }
    ensures none { IfOk result (λ found. IfNone found
        ((aspect : Aspect) → ¬ IsAspect (codes "file " ++ text.now) aspect)) }
{
    let Some(name) = name(alloc, text)? else {
        return Ok(None);
    };
    Ok(Some(Aspect::File { name }))
}

// What is shown of the moment that stands before this text.
fn aspect(alloc: Global, text: &[u8]) -> Result<Option<Aspect>, NoMemory>
    ensures some { IfOk result (λ found. IfSome found (IsAspect text.now)) }
    ensures none { IfOk result
        (λ found. IfNone found ((aspect : Aspect) → ¬ IsAspect text.now aspect)) }
{
    if let Some(rest) = after(text, b"regs ") {
        return Ok(number(rest).map(|pid| Aspect::Registers { pid }));
    }
    if let Some(rest) = after(text, b"mem ") {
        return Ok(three_numbers(rest).map(|(pid, at, len)| Aspect::Memory { pid, at, len }));
    }
    if let Some(rest) = after(text, b"file ") {
        return file_aspect(alloc, rest);
    }
    Ok((text == b"procs".as_slice()).then_some(Aspect::Processes))
}

fn show_question(alloc: Global, text: &[u8]) -> Result<Option<Question>, NoMemory>
    ensures some { IfOk result (λ found. IfSome found (IsQuestion (codes "show " ++ text.now))) }
    ensures none { IfOk result (λ found. IfNone found (AsksNothing (codes "show " ++ text.now))) }
{
    let Some((moment, rest)) = next_number(text) else {
        return Ok(None);
    };
    let Some(aspect) = aspect(alloc, rest)? else {
        return Ok(None);
    };
    Ok(Some(Question::Show { moment, aspect }))
}

fn memory_sought(text: &[u8]) -> Option<Sought>
    ensures some { IfSome result (IsSought (codes "mem " ++ text.now)) }
    ensures none { IfNone result
        ((sought : Sought) → ¬ IsSought (codes "mem " ++ text.now) sought) }
{
    let (moment, rest) = next_number(text)?;
    let (pid, at, len) = three_numbers(rest)?;
    Some(Sought::Memory {
        moment,
        pid,
        at,
        len,
    })
}

fn named_sought(alloc: Global, text: &[u8]) -> Result<Option<Sought>, NoMemory>
    ensures some { IfOk result (λ found. IfSome found (IsSought (codes "name " ++ text.now))) }
    ensures none { IfOk result
        (λ found. IfNone found
        ((sought : Sought) → ¬ IsSought (codes "name " ++ text.now) sought)) }
{
    let Some((moment, rest)) = next_number(text) else {
        return Ok(None);
    };
    let Some((word, range)) = split_word(rest) else {
        return Ok(None);
    };
    let Some((from, len)) = two_numbers(range) else {
        return Ok(None);
    };
    let Some(name) = name(alloc, word)? else {
        return Ok(None);
    };
    Ok(Some(Sought::Name {
        moment,
        name,
        from,
        len,
    }))
}

// The bytes that are sought, by the text behind the linkage.
fn sought(alloc: Global, text: &[u8]) -> Result<Option<Sought>, NoMemory>
    ensures some { IfOk result (λ found. IfSome found (IsSought text.now)) }
    ensures none { IfOk result
        (λ found. IfNone found ((sought : Sought) → ¬ IsSought text.now sought)) }
{
    if let Some(rest) = after(text, b"event ") {
        return Ok(three_numbers(rest).map(|(event, from, len)| Sought::Event { event, from, len }));
    }
    if let Some(rest) = after(text, b"mem ") {
        return Ok(memory_sought(rest));
    }
    if let Some(rest) = after(text, b"reg ") {
        return Ok(three_numbers(rest).map(|(moment, pid, register)| Sought::Register {
            moment,
            pid,
            register,
        }));
    }
    if let Some(rest) = after(text, b"name ") {
        return named_sought(alloc, rest);
    }
    Ok(None)
}

fn back_question(alloc: Global, text: &[u8]) -> Result<Option<Question>, NoMemory>
    ensures some { IfOk result (λ found. IfSome found (IsQuestion (codes "back " ++ text.now))) }
    ensures none { IfOk result (λ found. IfNone found (AsksNothing (codes "back " ++ text.now))) }
{
    let Some((word, rest)) = split_word(text) else {
        return Ok(None);
    };
    let Some(linkage) = linkage(word) else {
        return Ok(None);
    };
    let Some(sought) = sought(alloc, rest)? else {
        return Ok(None);
    };
    Ok(Some(Question::Back { linkage, sought }))
}

fn forth_question(text: &[u8]) -> Option<Question>
    ensures some { IfSome result (IsQuestion (codes "forth " ++ text.now)) }
    ensures none { IfNone result (AsksNothing (codes "forth " ++ text.now)) }
{
    let (word, rest) = split_word(text)?;
    let linkage = linkage(word)?;
    let (event, from, len) = three_numbers(rest)?;
    Some(Question::Forth {
        linkage,
        event,
        from,
        len,
    })
}

// The question that a word asks by itself.
fn word_question(text: &[u8]) -> Option<Question>
    ensures some { IfSome result (IsQuestion text.now) }
    ensures no_groups { IfNone result (text.now ≢ codes "groups") }
    ensures no_events { IfNone result (text.now ≢ codes "events") }
    ensures no_verify { IfNone result (text.now ≢ codes "verify") }
{
    if text == b"groups".as_slice() {
        return Some(Question::Groups);
    }
    if text == b"events".as_slice() {
        return Some(Question::Events);
    }
    if text == b"verify".as_slice() {
        return Some(Question::Verify);
    }
    None
}

// The question that the text asks.
pub(crate) fn question(alloc: Global, text: &[u8]) -> Result<Option<Question>, NoMemory>
    ensures some { IfOk result (λ found. IfSome found (IsQuestion text.now)) }
    ensures none { IfOk result (λ found. IfNone found (AsksNothing text.now)) }
{
    if let Some(rest) = after(text, b"show ") {
        return show_question(alloc, rest);
    }
    if let Some(rest) = after(text, b"back ") {
        return back_question(alloc, rest);
    }
    if let Some(rest) = after(text, b"forth ") {
        return Ok(forth_question(rest));
    }
    Ok(word_question(text))
}
