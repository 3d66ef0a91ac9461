// What can be asked of a process at a moment.
ghost use Rattle.std.specs.Prelude.{◌≡◌};
ghost use Rattle.history_index.specs.Indexes.{Indexes};
ghost use Rattle.past_lives.specs.Members as told;

use crate::lives::lives;
use crate::segments::segment;
use arn_base::Record;
use history_index::Index;
use parts_model::limits::{MOST_ASKED, SEGMENT_END, SEGMENT_START, WINDOW_END, WINDOW_START};

/// Whether a moment is in the history, and a process lives at it.
pub fn is_member(entries: &[Record], index: &Index, moment: u64, pid: u32) -> bool
    requires indexed { Indexes index.now entries.now }
    ensures { result ≡ told.is_member entries.now moment pid }
{
    moment <= index.total() && lives(entries, index, moment, pid)
}

fn lies_between(start: u64, end: u64, at: u64, len: u32) -> bool
    ensures { result ≡ told.lies_between start end at len }
{
    start <= at && at <= end && u64::from(len) <= end - at
}

fn is_present(holds: bool, at: u64, len: u32) -> bool
    ensures { result ≡ told.is_present holds at len }
{
    lies_between(WINDOW_START, WINDOW_END, at, len)
        || holds && lies_between(SEGMENT_START, SEGMENT_END, at, len)
}

/// Whether a process lives at a moment of the history and has these bytes then, and they aren't too many
/// to be asked for.
pub fn is_memory_range(
    entries: &[Record],
    index: &Index,
    moment: u64,
    pid: u32,
    at: u64,
    len: u32,
) -> bool
    requires indexed { Indexes index.now entries.now }
    ensures { result ≡ told.is_memory_range entries.now moment pid at len }
{
    is_member(entries, index, moment, pid)
        && u64::from(len) <= MOST_ASKED
        && is_present(segment(entries, index, moment, pid).is_some(), at, len)
}
