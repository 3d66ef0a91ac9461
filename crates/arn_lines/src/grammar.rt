// Lines of a session, read.
ghost use Rattle.std.specs.Prelude.{◌≡◌, ℕ, ◌<◌, ◌↔◌, List, ◌++◌, length, IsTrue, IfOk, IfSome, IfNone, codes, option_map};
ghost use Rattle.arn_lines.specs.Grammar.{IsGen, IsLine, IsPassedOver, Reads, block_name};
ghost use Rattle.arn_lines.specs.Pieces.{AsksNothing, SaysNothing};

use crate::questions::{question, two_numbers};
use crate::words::{after, bytes, is_name, name, number, split_word};
use crate::{Line, LineReading, MOST_GENERATED, MOST_LINE, MOST_RUN};
use arn_base::NoMemory;
use std::alloc::Global;

fn is_passed_over(text: &[u8]) -> bool
    ensures { IsTrue result ↔ IsPassedOver text.now }
{
    matches!(text, [] | [b'#', ..])
}

// The `file` line that goes on with this text.
fn file_line(alloc: Global, text: &[u8]) -> Result<Option<Line>, NoMemory>
    ensures some { IfOk result (λ found. IfSome found (IsLine (codes "file " ++ text.now))) }
    ensures none { IfOk result (λ found. IfNone found (SaysNothing (codes "file " ++ text.now))) }
{
    let Some((word, rest)) = split_word(text) else {
        return Ok(None);
    };
    let Some(name) = name(alloc, word)? else {
        return Ok(None);
    };
    let Some(bytes) = bytes(alloc, rest)? else {
        return Ok(None);
    };
    Ok(Some(Line::File { name, bytes }))
}

fn boot_line(alloc: Global, text: &[u8]) -> Result<Option<Line>, NoMemory>
    ensures some { IfOk result (λ found. IfSome found (IsLine (codes "boot " ++ text.now))) }
    ensures none { IfOk result (λ found. IfNone found (SaysNothing (codes "boot " ++ text.now))) }
{
    let Some(name) = name(alloc, text)? else {
        return Ok(None);
    };
    Ok(Some(Line::Boot { name }))
}

fn type_line(alloc: Global, text: &[u8]) -> Result<Option<Line>, NoMemory>
    ensures some { IfOk result (λ found. IfSome found (IsLine (codes "type " ++ text.now))) }
    ensures none { IfOk result (λ found. IfNone found (SaysNothing (codes "type " ++ text.now))) }
{
    let Some(bytes) = bytes(alloc, text)? else {
        return Ok(None);
    };
    Ok(Some(Line::Type { bytes }))
}

fn run_line(text: &[u8]) -> Option<Line>
    ensures some { IfSome result (IsLine (codes "run " ++ text.now)) }
    ensures none { IfNone result (SaysNothing (codes "run " ++ text.now)) }
{
    let count = number(text)?;
    (count <= MOST_RUN).then_some(Line::Run { count })
}

fn unplug_line(text: &[u8]) -> Option<Line>
    ensures some { IfSome result (IsLine (codes "unplug " ++ text.now)) }
    ensures none { IfNone result (SaysNothing (codes "unplug " ++ text.now)) }
{
    let device = number(text)?;
    Some(Line::Unplug { device })
}

// The question that the text asks, as a line.
fn asks_line(alloc: Global, text: &[u8]) -> Result<Option<Line>, NoMemory>
    ensures some { IfOk result (λ found. IfSome found (IsLine text.now)) }
    ensures none { IfOk result (λ found. IfNone found (AsksNothing text.now)) }
{
    let Some(question) = question(alloc, text)? else {
        return Ok(None);
    };
    Ok(Some(Line::Asks { question }))
}

// The line that the text says, whatever its length.
fn said(alloc: Global, text: &[u8]) -> Result<Option<Line>, NoMemory>
    ensures some { IfOk result (λ found. IfSome found (IsLine text.now)) }
    ensures none { IfOk result (λ found. IfNone found (SaysNothing text.now)) }
{
    if let Some(rest) = after(text, b"file ") {
        return file_line(alloc, rest);
    }
    if let Some(rest) = after(text, b"boot ") {
        return boot_line(alloc, rest);
    }
    if let Some(rest) = after(text, b"type ") {
        return type_line(alloc, rest);
    }
    if let Some(rest) = after(text, b"run ") {
        return Ok(run_line(rest));
    }
    if let Some(rest) = after(text, b"unplug ") {
        return Ok(unplug_line(rest));
    }
    asks_line(alloc, text)
}

// The seed and the number of processes in a line `gen SEED N`, whatever its length.
fn generated(text: &[u8]) -> Option<(u64, u64)>
    ensures some { IfSome result (λ found. IsGen text.now found.0 found.1) }
    ensures none { IfNone result ((seed processes : ℕ) → ¬ IsGen text.now seed processes) }
{
    let (seed, processes) = two_numbers(after(text, b"gen ")?)?;
    match processes {
        1..=MOST_GENERATED => Some((seed, processes)),
        _ => None,
    }
}

/// The name in a line `asm NAME`, which opens a block.
pub fn block_name(line: &[u8]) -> Option<&[u8]>
    ensures { option_map (λ name. name.now) result ≡ block_name line.now }
{
    let name = after(line, b"asm ")?;
    is_name(name).then_some(name)
}

/// Reads one line, without its LF, in time linear in its length. A line that opens a block says
/// nothing by itself.
pub fn read_line(alloc: Global, line: &[u8]) -> Result<LineReading, NoMemory>
    ensures ok { IfOk result (Reads line.now) }

    // Of a longer line its first bytes are enough, whatever follows them.
    ensures longer { IfOk result (λ reading.
        (rest : List ℕ) → MOST_LINE < length line.now → Reads (line.now ++ rest) reading) }
{
    if is_passed_over(line) {
        return Ok(LineReading::PassedOver);
    }
    if line.len() > MOST_LINE {
        return Ok(LineReading::TooLong);
    }
    if let Some((seed, processes)) = generated(line) {
        return Ok(LineReading::Generates { seed, processes });
    }
    Ok(match said(alloc, line)? {
        Some(line) => LineReading::Says { line },
        None => LineReading::Unreadable,
    })
}
