// The lines that answer, written.
ghost use Rattle.std.specs.Prelude.{◌≡◌, ◌++◌, OnOk, OnErr};
ghost use Rattle.std.specs.String.{string_bytes};
ghost use Rattle.arn_lines.specs.Printed.{IsPlain};
ghost use Rattle.arn_lines.specs.Texts.{back_text, count_text, damaged_text, end_word, event_text, forth_text, out_text, pair_text, ran_text, refusal_text};
ghost use Rattle.arn_lines.specs.declared.answer.Refusal.TheVariants.{NoAsm};

use crate::pieces::{Piece, push_line};
use crate::{Refusal, RunEnd};
use arn_base::{NoMemory, Pair};

/// Appends `event E`: a record was made of the line, as event E.
pub fn push_event(text: &mut String, event: u64) -> Result<(), NoMemory>
    ensures ok { OnOk result (string_bytes text.new ≡ string_bytes text.old ++ event_text event) }
    ensures err { OnErr result (string_bytes text.new ≡ string_bytes text.old) }
{
    push_line(
        text,
        &[
            Piece::Text("event "),
            Piece::Number(event),
            Piece::Text("\n"),
        ],
    )
}

fn end_word(end: RunEnd) -> &'static str
    ensures word { result.now ≡ end_word end }
    ensures plain { IsPlain result.now }
{
    match end {
        RunEnd::Done => "done",
        RunEnd::Stalled => "stalled",
        RunEnd::Budget => "budget",
    }
}

/// Appends `ran K END`: so many instructions ran, until the run ended so.
pub fn push_ran(text: &mut String, ran: u64, end: RunEnd) -> Result<(), NoMemory>
    ensures ok { OnOk result (string_bytes text.new ≡ string_bytes text.old ++ ran_text ran end) }
    ensures err { OnErr result (string_bytes text.new ≡ string_bytes text.old) }
{
    let word = end_word(end);
    push_line(
        text,
        &[
            Piece::Text("ran "),
            Piece::Number(ran),
            Piece::Text(" "),
            Piece::Text(word),
            Piece::Text("\n"),
        ],
    )
}

fn push_no_asm(text: &mut String, line: u64) -> Result<(), NoMemory>
    ensures ok { OnOk result
        (string_bytes text.new ≡ string_bytes text.old ++ refusal_text (NoAsm line)) }
    ensures err { OnErr result (string_bytes text.new ≡ string_bytes text.old) }
{
    push_line(
        text,
        &[
            Piece::Text("no asm "),
            Piece::Number(line),
            Piece::Text("\n"),
        ],
    )
}

/// Appends the line of a refusal.
pub fn push_refusal(text: &mut String, refusal: Refusal) -> Result<(), NoMemory>
    ensures ok { OnOk result
        (string_bytes text.new ≡ string_bytes text.old ++ refusal_text refusal) }
    ensures err { OnErr result (string_bytes text.new ≡ string_bytes text.old) }
{
    let line = match refusal {
        Refusal::NoLong => "no long\n",
        Refusal::NoLine => "no line\n",
        Refusal::NoBoot => "no boot\n",
        Refusal::NoBooted => "no booted\n",
        Refusal::NoAsm { line } => return push_no_asm(text, line),
        Refusal::NoName => "no name\n",
        Refusal::NoImage => "no image\n",
        Refusal::NoDevice => "no device\n",
        Refusal::NoPoint => "no point\n",
    };
    Ok(text.push_str(line)?)
}

/// Appends `pair E A K`.
pub fn push_pair(text: &mut String, pair: &Pair) -> Result<(), NoMemory>
    ensures ok { OnOk result (string_bytes text.new ≡ string_bytes text.old ++ pair_text pair.now) }
    ensures err { OnErr result (string_bytes text.new ≡ string_bytes text.old) }
{
    let Pair { event, at, byte } = *pair;
    push_line(
        text,
        &[
            Piece::Text("pair "),
            Piece::Number(event),
            Piece::Text(" "),
            Piece::Number(u64::from(at)),
            Piece::Text(" "),
            Piece::Number(u64::from(byte)),
            Piece::Text("\n"),
        ],
    )
}

/// Appends `out E PID HEX`: the process wrote these bytes to the console in event E.
pub fn push_out(text: &mut String, event: u64, pid: u32, bytes: &[u8]) -> Result<(), NoMemory>
    ensures ok { OnOk result
        (string_bytes text.new ≡ string_bytes text.old ++ out_text event pid bytes.now) }
    ensures err { OnErr result (string_bytes text.new ≡ string_bytes text.old) }
{
    push_line(
        text,
        &[
            Piece::Text("out "),
            Piece::Number(event),
            Piece::Text(" "),
            Piece::Number(u64::from(pid)),
            Piece::Text(" "),
            Piece::Bytes(bytes),
            Piece::Text("\n"),
        ],
    )
}

fn push_count<'a>(
    text: &mut String,
    word: &'a str,
    pairs: u64,
    instructions: u128,
    groups: &'a [u32],
) -> Result<(), NoMemory>
    requires { IsPlain word.now }
    ensures ok { OnOk result (string_bytes text.new ≡
        string_bytes text.old ++ count_text word.now pairs instructions groups.now) }
    ensures err { OnErr result (string_bytes text.new ≡ string_bytes text.old) }
{
    push_line(
        text,
        &[
            Piece::Text(word),
            Piece::Text(" pairs "),
            Piece::Number(pairs),
            Piece::Text(" instructions "),
            Piece::Sum(instructions),
            Piece::Text(" groups"),
            Piece::Groups(groups),
            Piece::Text("\n"),
        ],
    )
}

/// Appends the last line of an answer to `back`: how many pairs it has, how many instructions the
/// groups of its processes ran in all, and the numbers of these groups in rising order.
pub fn push_back(
    text: &mut String,
    pairs: u64,
    instructions: u128,
    groups: &[u32],
) -> Result<(), NoMemory>
    ensures ok { OnOk result
        (string_bytes text.new ≡ string_bytes text.old ++ back_text pairs instructions groups.now) }
    ensures err { OnErr result (string_bytes text.new ≡ string_bytes text.old) }
{
    push_count(text, "back", pairs, instructions, groups)
}

/// Appends the last line of an answer to `forth`, with the same as that of an answer to `back`.
pub fn push_forth(
    text: &mut String,
    pairs: u64,
    instructions: u128,
    groups: &[u32],
) -> Result<(), NoMemory>
    ensures ok { OnOk result
        (string_bytes text.new ≡ string_bytes text.old ++ forth_text pairs instructions groups.now) }
    ensures err { OnErr result (string_bytes text.new ≡ string_bytes text.old) }
{
    push_count(text, "forth", pairs, instructions, groups)
}

/// Appends `damaged E SAID FOUND`: the records don't agree at event E, where one says a value and a replay
/// found another.
pub fn push_damaged(text: &mut String, event: u64, said: u64, found: u64) -> Result<(), NoMemory>
    ensures ok { OnOk result
        (string_bytes text.new ≡ string_bytes text.old ++ damaged_text event said found) }
    ensures err { OnErr result (string_bytes text.new ≡ string_bytes text.old) }
{
    push_line(
        text,
        &[
            Piece::Text("damaged "),
            Piece::Number(event),
            Piece::Text(" "),
            Piece::Number(said),
            Piece::Text(" "),
            Piece::Number(found),
            Piece::Text("\n"),
        ],
    )
}
