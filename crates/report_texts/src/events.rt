// The events of a history.
ghost use Rattle.std.specs.Prelude.{◌≡◌, ◌++◌, IfOk, IsTrue, OnErr, OnOk, codes, decimal};
ghost use Rattle.std.specs.String.{string_bytes};
ghost use Rattle.acts_model.specs.Records.{process_of};
ghost use Rattle.arn_lines.specs.Printed.{IsPlain, is_plain, piece_text};
ghost use Rattle.report_texts.specs.Events.{event_line, number_text, result_text, what_text};

use arn_base::{NoMemory, Record};
use arn_lines::{Piece, push_line};
use std::alloc::Global;

// A number, or `-` where there is none.
pub(crate) fn number<'a>(number: Option<u64>) -> Piece<'a>
    ensures text { piece_text result ≡ number_text number }
    ensures plain { IsTrue (is_plain result) }
{
    match number {
        None => Piece::Text("-"),
        Some(number) => Piece::Number(number),
    }
}

// The process of an event, if it has one.
fn process(entry: &Record) -> Option<u64>
    ensures { result ≡ process_of entry.now }
{
    match entry {
        Record::File { .. } | Record::Typed { .. } | Record::Unplug { .. } => None,
        Record::Boot { .. } => Some(1),
        Record::Slice { pid, .. }
        | Record::Signal { pid, .. }
        | Record::Call { pid, .. }
        | Record::End { pid, .. } => Some(u64::from(*pid)),
    }
}

fn call(alloc: Global, number: u64, answer: u64) -> Result<String, NoMemory>
    ensures { IfOk result (λ text. string_bytes text ≡ codes "call." ++ decimal number
        ++ codes "." ++ result_text answer) }
{
    let answer = answer.cast_signed();
    Ok(format!(in alloc; "call.{number}.{answer}")?)
}

fn what(alloc: Global, entry: &Record) -> Result<String, NoMemory>
    ensures text { IfOk result (λ text. string_bytes text ≡ what_text entry.now) }
    ensures plain { IsPlain (what_text entry.now) }
{
    match entry {
        Record::File { .. } => Ok(format!(in alloc; "file")?),
        Record::Boot { .. } => Ok(format!(in alloc; "boot")?),
        Record::Typed { .. } => Ok(format!(in alloc; "type")?),
        Record::Unplug { device } => Ok(format!(in alloc; "unplug.{device}")?),
        Record::Slice { .. } => Ok(String::new(alloc)),
        Record::Signal { signal, .. } => Ok(format!(in alloc; "signal.{signal}")?),
        Record::Call { number, result, .. } => call(alloc, *number, *result),
        Record::End { status, .. } => Ok(format!(in alloc; "end.{status}")?),
    }
}

/// Appends `event E M P WHAT LEN`: at moment M the event E happened, by process P, with LEN bytes.
pub fn push_event_line(
    text: &mut String,
    event: u64,
    moment: u64,
    entry: &Record,
    len: u64,
) -> Result<(), NoMemory>
    ensures ok { OnOk result (string_bytes text.new ≡
        string_bytes text.old ++ event_line event moment entry.now len) }
    ensures err { OnErr result (string_bytes text.new ≡ string_bytes text.old) }
{
    let process = number(process(entry));
    let what = what(*text.allocator(), entry)?;
    push_line(
        text,
        &[
            Piece::Text("event "),
            Piece::Number(event),
            Piece::Text(" "),
            Piece::Number(moment),
            Piece::Text(" "),
            process,
            Piece::Text(" "),
            Piece::Text(what.as_str()),
            Piece::Text(" "),
            Piece::Number(len),
            Piece::Text("\n"),
        ],
    )
}
