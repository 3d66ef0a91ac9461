// What the records of events tell.
ghost use Rattle.lineage_join.specs.declared.wait.Kind.TheVariants as kind;
ghost use Rattle.std.specs.Prelude.{◌≡◌, if◌then◌else◌, ◌+◌, ◌<◌, ◌^◌, ℕ, IsSome, IsTrue, is_some, option_map, slice_get, Some, None};
ghost use Rattle.arn_base.specs.declared.records.Src.{Src};
ghost use Rattle.acts_model.specs.Records as records;
ghost use Rattle.history_index.specs.Indexes.{Indexes};
ghost use Rattle.history_model.specs.Events.{event_at};
ghost use Rattle.history_model.specs.Exchanges.{founded};
ghost use Rattle.lineage_model.specs.Joined as joined;
ghost use Rattle.lineage_join.specs.Waits.{kind_by};

use crate::wait::Kind;
use acts_model::{child_told, give_of};
use arn_base::{Extra, Origin, Record};
use history_index::Index;
use parts_model::calls::READ;
use set_store::Item;

/// So many origins are few: among them, one is looked for again and again.
const FEW: usize = 16;

fn at_place(entries: &[Record], place: usize) -> Option<&Record>
    ensures { option_map (λ entry. entry.now) result ≡ slice_get entries.now place }
{
    entries.get(place)
}

/// The record of an event.
pub fn record_at<'a>(entries: &'a [Record], index: &Index, event: u64) -> Option<&'a Record>
    requires { Indexes index.now entries.now }
    ensures { option_map (λ entry. entry.now) result ≡ event_at entries.now event }
{
    let place = index.event_place(event)?;
    at_place(entries, place as usize)
}

/// Whether an event's bytes came from outside.
pub fn is_source(entry: &Record) -> bool
    ensures { result ≡ joined.is_source entry.now }
{
    match entry {
        Record::File { .. } | Record::Typed { .. } => true,
        Record::Call {
            number,
            extra: Extra::Reply { .. },
            ..
        } => *number == READ,
        _ => false,
    }
}

/// Whether an event made a child that started a group.
fn founds(entry: &Record) -> bool
    ensures { result ≡ is_some (founded entry.now) }
{
    match child_told(entry) {
        Some(child) => child.start.is_some(),
        None => false,
    }
}

fn start_or_received(founds: bool) -> Kind
    ensures { result ≡ (if founds then kind.Start else kind.Received) }
{
    if founds { Kind::Start } else { Kind::Received }
}

/// What an item of an event is.
pub fn kind_at(entry: &Record) -> Kind
    ensures { result ≡ kind_by (founded entry.now) }
{
    start_or_received(founds(entry))
}

/// Whether an event received bytes, and these have few origins. How many are few is for speed alone.
pub fn received_from_few(entry: &Record) -> bool
    ensures received { IsTrue result → IsSome (records.give_of entry.now) }
    ensures plain { IsTrue result → founded entry.now ≡ None }
{
    match give_of(entry) {
        Some(give) => give.origins.len() <= FEW,
        None => false,
    }
}

/// Of which event byte a received byte is a copy.
fn origin_at(origins: &[Origin], at: u64) -> Option<Item>
    ensures { option_map (λ item. record { event = item.event; at = item.at }) result ≡ joined.origin_at origins.now at }
{
    let mut rest = at;
    for origin in origins {
        let len = u64::from(origin.len);
        if rest < len {
            return Some(Item {
                event: origin.event,
                at: u64::from(origin.at) + rest,
            });
        }
        rest -= len;
    }
    None
}

/// Of which event byte a byte of an event is a copy.
pub fn origin_of(entry: &Record, at: u64) -> Option<Item>
    ensures { option_map (λ item. record { event = item.event; at = item.at }) result ≡ joined.origin_of entry.now at }
{
    origin_at(give_of(entry)?.origins.as_slice(), at)
}

/// How many bytes an event has.
pub fn len_at(entries: &[Record], index: &Index, entry: &Record, event: u64) -> u32
    requires indexed { Indexes index.now entries.now }
    requires there { event_at entries.now event ≡ Some entry.now }
    ensures { result ≡ records.event_len entry.now }
{
    index.event_len(event).unwrap_or(0)
}
