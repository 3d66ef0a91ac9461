// Events that have happened at a moment.
ghost use Rattle.std.specs.Prelude.{◌≡◌, option_map, slice_get};
ghost use Rattle.history_index.specs.Indexes.{Indexes};
ghost use Rattle.history_model.specs.Events.{event_at};
ghost use Rattle.past_lives.specs.Happened as told;

use arn_base::Record;
use history_index::Index;

fn record_at(entries: &[Record], place: u64) -> Option<&Record>
    ensures { option_map (λ entry. entry.now) result ≡ slice_get entries.now place }
{
    entries.get(place as usize)
}

// The record of an event.
fn record_of<'a>(entries: &'a [Record], index: &Index, event: u64) -> Option<&'a Record>
    requires indexed { Indexes index.now entries.now }
    ensures { option_map (λ entry. entry.now) result ≡ event_at entries.now event }
{
    let place = index.event_place(event)?;
    record_at(entries, place)
}

/// The record of an event, if that has happened at a moment.
pub fn happened<'a>(
    entries: &'a [Record],
    index: &Index,
    moment: u64,
    event: u64,
) -> Option<&'a Record>
    requires indexed { Indexes index.now entries.now }
    ensures { option_map (λ entry. entry.now) result ≡ told.happened entries.now moment event }
{
    let at = index.event_moment(event)?;
    if at <= moment {
        record_of(entries, index, event)
    } else {
        None
    }
}
