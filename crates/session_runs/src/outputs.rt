// What records tell that processes wrote to the console, as text.
ghost use Rattle.std.specs.Prelude.{◌≡◌, ◌+◌, ◌<◌, ◌^◌, ◌++◌, length, OnOk, string_bytes};
ghost use Rattle.session_runs.specs.Outputs.{output_text, outputs_text};

use arn_base::{Extra, NoMemory, Record};
use arn_lines::push_out;

/// Puts behind a text the lines of records whose events are numbered from `first` on. A slice is no
/// event.
pub fn push_outputs(text: &mut String, first: u64, entries: &[Record]) -> Result<(), NoMemory>
    requires room { first + length entries.now < 2 ^ 64 }
    ensures { OnOk result (string_bytes text.new ≡
        string_bytes text.old ++ outputs_text first entries.now) }
{
    let mut event = first;
    for entry in entries {
        if !matches!(entry, Record::Slice { .. }) {
            push_output(text, event, entry)?;
            event += 1;
        }
    }
    Ok(())
}

// The line of an event that wrote at least one byte.
fn push_output(text: &mut String, event: u64, entry: &Record) -> Result<(), NoMemory>
    ensures { OnOk result (string_bytes text.new ≡
        string_bytes text.old ++ output_text event entry.now) }
{
    match entry {
        Record::Call {
            pid,
            extra: Extra::Console { bytes },
            ..
        } if !bytes.is_empty() => push_out(text, event, *pid, bytes.as_slice()),
        _ => Ok(()),
    }
}
