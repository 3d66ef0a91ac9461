// How far a group has come.
ghost use Rattle.std.specs.Prelude.{◌≡◌, ◌-◌, filter, min, drop};
ghost use Rattle.std.specs.List.Sorted.{IsPartitionedBy};
ghost use Rattle.history_index.specs.Indexes.{Indexes};
ghost use Rattle.group_extents.specs.Extents as extents;
ghost use Rattle.group_extents.specs.Extents.{extent_of};

use arn_base::Record;
use history_index::{Index, SliceAt};

/// How far a group has come at a moment: whether the event by which it begins has happened, how many of
/// its slices do something up to the moment, how many instructions of the last of these come before it, and
/// how many events of its own process stand behind that slice.
#[derive(Clone, Copy, PartialEq, Eq)]
pub struct Extent {
    is_begun: bool,
    slices: usize,
    owed: u32,
    behind: usize,
}

// Whether the event by which a group begins has happened by a moment.
fn is_begun(_entries: &[Record], index: &Index, group: u32, until: u64) -> bool
    requires indexed { Indexes index.now _entries.now }
    ensures { result ≡ extents.is_begun _entries.now group until }
{
    match index.founding_event(group) {
        Some(event) => match index.event_moment(event) {
            Some(moment) => moment <= until,
            None => false,
        },
        None => false,
    }
}

// Whether a delivery stands first among records from one on.
fn delivers(entries: &[Record], from: usize) -> bool
    ensures { result ≡ extents.delivers (drop from entries.now) }
{
    match entries.get(from) {
        Some(Record::Signal { .. }) => true,
        _ => false,
    }
}

// Whether a slice begins just at a moment, runs instructions, and has no delivery at its begin.
fn is_idle(entries: &[Record], at: &SliceAt, until: u64) -> bool
    ensures { result ≡ extents.is_idle entries.now until at.now }
{
    at.moment == until && 0 < at.ran && !delivers(entries, at.place as usize + 1)
}

// Whether a slice may do something up to a moment.
fn is_felt(entries: &[Record], at: &SliceAt, until: u64) -> bool
    ensures { result ≡ extents.is_felt entries.now until at.now }
{
    at.moment <= until && !is_idle(entries, at, until)
}

// Those of these slices that may do something up to a moment, where they come first.
fn felt<'a>(entries: &[Record], slices: &'a [SliceAt], until: u64) -> &'a [SliceAt]
    requires parted { IsPartitionedBy (extents.is_felt entries.now until) slices.now }
    ensures { result.now ≡ filter (extents.is_felt entries.now until) slices.now }
{
    let count = slices.partition_point(|at| is_felt(entries, at, until));
    let (felt, _) = slices.split_at(count);
    felt
}

// How many instructions of a slice come before a moment.
fn owed(at: &SliceAt, until: u64) -> u32
    ensures { result ≡ min at.now.ran (until - at.now.moment) }
{
    let left = until.saturating_sub(at.moment);
    if u64::from(at.ran) <= left {
        at.ran
    } else {
        left as u32
    }
}

// How many events of its own process stand behind a slice, from the next record on.
fn own_len(entries: &[Record], from: usize) -> usize
    ensures { result ≡ extents.own_len (drop from entries.now) }
{
    let mut count = 0;
    for place in from..entries.len() {
        match &entries[place] {
            Record::Signal { .. } => count += 1,
            Record::Call { .. } | Record::End { .. } => return count + 1,
            _ => return count,
        }
    }
    count
}

impl Extent {
    /// That of a group at a moment, by an index of the records.
    pub fn of(entries: &[Record], index: &Index, group: u32, until: u64) -> Extent
        requires indexed { Indexes index.now entries.now }
        ensures { result ≡ extent_of entries.now group until }
    {
        let is_begun = is_begun(entries, index, group, until);
        let felt = felt(entries, index.slices(group), until);
        match felt.last() {
            Some(at) => Extent {
                is_begun,
                slices: felt.len(),
                owed: owed(at, until),
                behind: own_len(entries, at.place as usize + 1),
            },
            None => Extent {
                is_begun,
                slices: 0,
                owed: 0,
                behind: 0,
            },
        }
    }
}
