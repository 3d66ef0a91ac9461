// Processes and groups, how many there are of a kind, and whether records are a run's.
ghost use Rattle.std.specs.Prelude.{◌≡◌, ◌++◌, IsTrue, OnErr, OnOk, Some};
ghost use Rattle.std.specs.String.{string_bytes};
ghost use Rattle.arn_lines.specs.Printed.{is_plain, piece_text};
ghost use Rattle.report_texts.specs.Events.{number_text};
ghost use Rattle.report_texts.specs.Totals.{events_line, group_line, groups_line, proc_line, procs_line, verify_line};

use crate::events::number;
use arn_base::{Differs, NoMemory};
use arn_lines::{Piece, push_line};

/// Appends `proc PID group G`: a process, and the group it belongs to.
pub fn push_proc(text: &mut String, pid: u32, group: u32) -> Result<(), NoMemory>
    ensures ok { OnOk result
        (string_bytes text.new ≡ string_bytes text.old ++ proc_line pid group) }
    ensures err { OnErr result (string_bytes text.new ≡ string_bytes text.old) }
{
    push_line(
        text,
        &[
            Piece::Text("proc "),
            Piece::Number(u64::from(pid)),
            Piece::Text(" group "),
            Piece::Number(u64::from(group)),
            Piece::Text("\n"),
        ],
    )
}

/// Appends `procs N`: how many processes there are.
pub fn push_procs(text: &mut String, count: u64) -> Result<(), NoMemory>
    ensures ok { OnOk result (string_bytes text.new ≡ string_bytes text.old ++ procs_line count) }
    ensures err { OnErr result (string_bytes text.new ≡ string_bytes text.old) }
{
    push_line(
        text,
        &[
            Piece::Text("procs "),
            Piece::Number(count),
            Piece::Text("\n"),
        ],
    )
}

/// Appends `group G processes N instructions C`: how many processes a group has, and how many
/// instructions they ran in all.
pub fn push_group(
    text: &mut String,
    group: u32,
    processes: u64,
    instructions: u64,
) -> Result<(), NoMemory>
    ensures ok { OnOk result (string_bytes text.new ≡
        string_bytes text.old ++ group_line group processes instructions) }
    ensures err { OnErr result (string_bytes text.new ≡ string_bytes text.old) }
{
    push_line(
        text,
        &[
            Piece::Text("group "),
            Piece::Number(u64::from(group)),
            Piece::Text(" processes "),
            Piece::Number(processes),
            Piece::Text(" instructions "),
            Piece::Number(instructions),
            Piece::Text("\n"),
        ],
    )
}

/// Appends `groups N`: how many groups there are.
pub fn push_groups(text: &mut String, count: u64) -> Result<(), NoMemory>
    ensures ok { OnOk result (string_bytes text.new ≡ string_bytes text.old ++ groups_line count) }
    ensures err { OnErr result (string_bytes text.new ≡ string_bytes text.old) }
{
    push_line(
        text,
        &[
            Piece::Text("groups "),
            Piece::Number(count),
            Piece::Text("\n"),
        ],
    )
}

/// Appends `events N`: how many events there are.
pub fn push_events(text: &mut String, count: u64) -> Result<(), NoMemory>
    ensures ok { OnOk result (string_bytes text.new ≡ string_bytes text.old ++ events_line count) }
    ensures err { OnErr result (string_bytes text.new ≡ string_bytes text.old) }
{
    push_line(
        text,
        &[
            Piece::Text("events "),
            Piece::Number(count),
            Piece::Text("\n"),
        ],
    )
}

fn byte<'a>(byte: Option<u8>) -> Piece<'a>
    ensures text { piece_text result ≡ number_text byte }
    ensures plain { IsTrue (is_plain result) }
{
    match byte {
        None => number(None),
        Some(byte) => number(Some(u64::from(byte))),
    }
}

fn push_differs(text: &mut String, differs: &Differs) -> Result<(), NoMemory>
    ensures ok { OnOk result
        (string_bytes text.new ≡ string_bytes text.old ++ verify_line (Some differs.now)) }
    ensures err { OnErr result (string_bytes text.new ≡ string_bytes text.old) }
{
    let said = byte(differs.said);
    let found = byte(differs.found);
    push_line(
        text,
        &[
            Piece::Text("verify differs "),
            Piece::Number(differs.place),
            Piece::Text(" "),
            Piece::Number(differs.at),
            Piece::Text(" "),
            said,
            Piece::Text(" "),
            found,
            Piece::Text("\n"),
        ],
    )
}

/// Appends `verify run`, or, where records differ from those of a run, `verify differs R AT SAID FOUND`.
pub fn push_verify(text: &mut String, differs: Option<Differs>) -> Result<(), NoMemory>
    ensures ok { OnOk result
        (string_bytes text.new ≡ string_bytes text.old ++ verify_line differs) }
    ensures err { OnErr result (string_bytes text.new ≡ string_bytes text.old) }
{
    match differs {
        None => Ok(text.push_str("verify run\n")?),
        Some(differs) => push_differs(text, &differs),
    }
}
