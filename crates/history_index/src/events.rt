// The events of a history.
ghost use Rattle.std.specs.Prelude.{◌≡◌};
ghost use Rattle.history_index.specs.Lookups.{moment_in};

use acts_model::is_event;
use arn_base::Record;

/// An event: the number of its record, its moment, its process, and how many bytes it has.
#[derive(Clone, Copy)]
pub struct EventAt {
    pub moment: u64,
    pub place: u32,
    pub len: u32,
    pub pid: Option<u32>,
}

/// The moment of the next event, where the slice at hand begins and ends at these.
pub fn moment_of(begins: u64, ends: u64, entry: &Record) -> u64
    ensures { result ≡ moment_in begins ends entry.now }
{
    match entry {
        Record::Signal { .. } => begins,
        _ => ends,
    }
}

/// How many of these records tell an event. It only says for how many room is made, so nothing rests on it.
pub fn count(entries: &[Record]) -> usize {
    entries.iter().filter(|entry| is_event(entry)).count()
}
