// Which segment a process holds.
ghost use Rattle.std.specs.Prelude.{◌≡◌, ℕ, Option, option_map};
ghost use Rattle.acts_model.specs.Seen.{child_seen};
ghost use Rattle.history_index.specs.Indexes.{Indexes};
ghost use Rattle.history_model.specs.Moments as moments;
ghost use Rattle.past_lives.specs.Happened.{held_by};

use crate::events::happened;
use acts_model::{ChildTold, child_called};
use arn_base::{Extra, Record};
use history_index::Index;
use parts_model::calls::{EXEC, SHM};

/// Where a process has its segment from, at an event.
#[derive(Clone, Copy)]
pub enum Source {
    /// This process held it before.
    Process(u32),
    /// The event itself tells it: a fresh one, or none.
    Holds(Option<u64>),
}

fn at_child(own: u32, child: Option<ChildTold<'_>>, pid: u32) -> Source
    ensures { (held : ℕ → Option ℕ) → held_by result held ≡
        moments.segment_made own (option_map child_seen child.entry) held pid }
{
    match child {
        Some(child) if u64::from(pid) == child.number => match child.start {
            Some(_) => Source::Holds(None),
            None => Source::Process(own),
        },
        _ => Source::Process(pid),
    }
}

fn at_exec(own: u32, extra: &Extra, pid: u32) -> Source
    ensures { (held : ℕ → Option ℕ) →
        held_by result held ≡ moments.segment_started own extra.now held pid }
{
    match extra {
        Extra::Give(_) if pid == own => Source::Holds(None),
        _ => Source::Process(pid),
    }
}

fn at_call(event: u64, own: u32, number: u64, answer: u64, extra: &Extra, pid: u32) -> Source
    ensures { (held : ℕ → Option ℕ) →
        held_by result held ≡ moments.segment_called event own number answer extra.now held pid }
{
    if number == SHM && answer == 0 {
        if pid == own {
            Source::Holds(Some(event))
        } else {
            Source::Process(pid)
        }
    } else if number == EXEC {
        at_exec(own, extra, pid)
    } else {
        at_child(own, child_called(number, answer, extra), pid)
    }
}

fn at_event(event: u64, entry: &Record, pid: u32) -> Source
    ensures { (held : ℕ → Option ℕ) →
        held_by result held ≡ moments.segments_told event entry.now held pid }
{
    match entry {
        Record::Boot { .. } if pid == 1 => Source::Holds(None),
        Record::Call {
            pid: own,
            number,
            result,
            extra,
        } => at_call(event, *own, *number, *result, extra, pid),
        _ => Source::Process(pid),
    }
}

/// Which segment a process holds at a moment, by the event that made it: traced back from its last event
/// over the forks through which it came.
pub fn segment(entries: &[Record], index: &Index, moment: u64, pid: u32) -> Option<u64>
    requires indexed { Indexes index.now entries.now }
    ensures { result ≡ moments.segment_at entries.now moment pid }
{
    let events = index.events();
    let mut holder = pid;
    for back in 0..events {
        let event = events - 1 - back;
        if let Some(entry) = happened(entries, index, moment, event) {
            match at_event(event, entry, holder) {
                Source::Process(before) => holder = before,
                Source::Holds(segment) => return segment,
            }
        }
    }
    None
}
