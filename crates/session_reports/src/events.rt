// The events of a history.
ghost use Rattle.std.specs.Prelude.{◌≡◌, ◌++◌, IfOk, List, OnErr, OnOk, Some};
ghost use Rattle.std.specs.String.{string_bytes};
ghost use Rattle.arn_base.specs.declared.records.Record.{Record};
ghost use Rattle.history_model.specs.Events.{event_at};
ghost use Rattle.history_index.specs.Indexes.{Indexes};
ghost use Rattle.session_reports.specs.Events.{event_text, events_text};

use acts_model::is_event;
use arn_base::{NoMemory, Record};
use history_index::Index;
use report_texts::{push_event_line, push_events};
use std::alloc::Global;

fn push_one(lines: &mut String, index: &Index, event: u64, entry: &Record) -> Result<(), NoMemory>
    ensures { OnOk result ((entries : List Record) → Indexes index.now entries →
        event_at entries event ≡ Some entry.now →
        string_bytes lines.new ≡ string_bytes lines.old ++ event_text entries event) }
{
    let Some(moment) = index.event_moment(event) else {
        return Ok(());
    };
    let Some(len) = index.event_len(event) else {
        return Ok(());
    };
    push_event_line(lines, event, moment, entry, u64::from(len))
}

fn events(alloc: Global, entries: &[Record], index: &Index) -> Result<String, NoMemory>
    requires known { Indexes index.now entries.now }
    ensures { IfOk result (λ lines. string_bytes lines ≡ events_text entries.now) }
{
    let mut lines = String::new(alloc);
    let mut event = 0;
    for entry in entries {
        if is_event(entry) {
            push_one(&mut lines, index, event, entry)?;
            event += 1;
        }
    }
    push_events(&mut lines, event)?;
    Ok(lines)
}

/// Appends a line for each event of the history, in order, with the instructions that have run by then,
/// its process, what happened, and how many bytes it has; and behind them how many events there are.
pub fn report_events(text: &mut String, entries: &[Record], index: &Index) -> Result<(), NoMemory>
    requires known { Indexes index.now entries.now }
    ensures ok { OnOk result
        (string_bytes text.new ≡ string_bytes text.old ++ events_text entries.now) }
    ensures err { OnErr result (string_bytes text.new ≡ string_bytes text.old) }
{
    let lines = events(*text.allocator(), entries, index)?;
    Ok(text.push_str(lines.as_str())?)
}
