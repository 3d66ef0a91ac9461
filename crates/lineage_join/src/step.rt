// One step of the join of groups' answers.
ghost use Rattle.std.specs.Prelude.{◌≡◌, [], ◌∷◌, false, All, map, option_map, Some, IfOk, OnOk};
ghost use Rattle.arn_base.specs.declared.records.Src.{Src};
ghost use Rattle.history_index.specs.Indexes.{Indexes};
ghost use Rattle.history_model.specs.Events.{event_at};
ghost use Rattle.lineage_model.specs.Flow.{Byte};
ghost use Rattle.lineage_model.specs.Joined.{is_source, source_byte};
ghost use Rattle.lineage_join.specs.declared.wait.Kind.TheVariants as kind;
ghost use Rattle.lineage_join.specs.Added.{HasAdded};
ghost use Rattle.lineage_join.specs.Fits.{AllFit};
ghost use Rattle.taint_state.specs.Shown.{AreItems};
ghost use Rattle.lineage_join.specs.Laws.{reaches};
ghost use Rattle.lineage_join.specs.Places.{at_of};
ghost use Rattle.lineage_join.specs.Waits.{HasPairs, IsNumbered, IsStepped, from_wait, origin_waits, own_bytes, wait_of};

use crate::demand::Place;
use crate::found::Found;
use crate::locals::Locals;
use crate::told;
use crate::wait::{Kind, Wait, Waiting};
use arn_base::{NoMemory, Record};
use history_index::Index;
use set_store::Item;
use std::alloc::Global;

/// Adds a source byte of an event, if the event has it.
fn keep(found: &mut Found, event: u64, len: u32, at: u64, byte: u32) -> Result<(), NoMemory>
    ensures { OnOk result (HasPairs found.old byte (source_byte event len (Byte at)) found.new) }
{
    if at < u64::from(len) {
        found.add(event, at as u32, byte)?;
    }
    Ok(())
}

/// Adds a byte that an event shows: one from outside is found, and another waits.
fn add_shown(
    entries: &[Record],
    index: &Index,
    shown: Item,
    byte: u32,
    waiting: &mut Waiting,
    found: &mut Found,
) -> Result<(), NoMemory>
    requires indexed { Indexes index.now entries.now }
    requires numbered { All IsNumbered waiting.old }
    ensures ok { OnOk result (HasAdded entries.now waiting.old found.old (record { event = shown.event; kind = kind.Byte; at = shown.at; byte = byte } ∷ []) waiting.new found.new) }
    ensures numbered { OnOk result (All IsNumbered waiting.new) }
{
    if let Some(entry) = told::record_at(entries, index, shown.event) {
        if told::is_source(entry) {
            let len = told::len_at(entries, index, entry, shown.event);
            return keep(found, shown.event, len, shown.at, byte);
        }
    }
    waiting.add(shown.event, Kind::Byte, shown.at, byte)
}

/// Adds the byte of which a received byte is a copy, if it is one.
fn add_origin(
    entries: &[Record],
    index: &Index,
    origin: Option<Item>,
    byte: u32,
    waiting: &mut Waiting,
    found: &mut Found,
) -> Result<(), NoMemory>
    requires indexed { Indexes index.now entries.now }
    requires numbered { All IsNumbered waiting.old }
    ensures ok { OnOk result (HasAdded entries.now waiting.old found.old (origin_waits byte (option_map (λ item. record { event = item.event; at = item.at }) origin)) waiting.new found.new) }
    ensures numbered { OnOk result (All IsNumbered waiting.new) }
{
    match origin {
        None => Ok(()),
        Some(shown) => add_shown(entries, index, shown, byte, waiting, found),
    }
}

/// Adds an item: a source byte is found, a copy is followed to its origin where its event has few origins, and
/// another byte waits.
pub fn add_item(
    entries: &[Record],
    index: &Index,
    item: Item,
    byte: u32,
    waiting: &mut Waiting,
    found: &mut Found,
) -> Result<(), NoMemory>
    requires indexed { Indexes index.now entries.now }
    requires numbered { All IsNumbered waiting.old }
    ensures ok { OnOk result (HasAdded entries.now waiting.old found.old (wait_of (event_at entries.now) byte item ∷ []) waiting.new found.new) }
    ensures numbered { OnOk result (All IsNumbered waiting.new) }
{
    match told::record_at(entries, index, item.event) {
        None => Ok(()),
        Some(entry) => {
            if told::is_source(entry) {
                let len = told::len_at(entries, index, entry, item.event);
                return keep(found, item.event, len, item.at, byte);
            }
            if told::received_from_few(entry) {
                let origin = told::origin_of(entry, item.at);
                return add_origin(entries, index, origin, byte, waiting, found);
            }
            waiting.add(item.event, told::kind_at(entry), item.at, byte)
        }
    }
}

/// Adds the items of a byte.
fn add_items(
    entries: &[Record],
    index: &Index,
    items: &[Item],
    byte: u32,
    waiting: &mut Waiting,
    found: &mut Found,
) -> Result<(), NoMemory>
    requires indexed { Indexes index.now entries.now }
    requires numbered { All IsNumbered waiting.old }
    ensures ok { OnOk result (HasAdded entries.now waiting.old found.old (map (wait_of (event_at entries.now) byte) items.now) waiting.new found.new) }
    ensures numbered { OnOk result (All IsNumbered waiting.new) }
{
    for item in items {
        add_item(entries, index, *item, byte, waiting, found)?;
    }
    Ok(())
}

/// Adds the source byte that waits, if there is one.
fn keep_source(found: &mut Found, wait: Wait, len: u32) -> Result<(), NoMemory>
    ensures { OnOk result (HasPairs found.old wait.byte (own_bytes wait.event len wait.at wait.kind) found.new) }
{
    match wait.kind {
        Kind::Start => Ok(()),
        Kind::Received => keep(found, wait.event, len, wait.at, wait.byte),
        Kind::Byte => keep(found, wait.event, len, wait.at, wait.byte),
    }
}

/// The items of a byte of an event.
fn items_of<P: Locals>(
    alloc: Global,
    locals: &P,
    event: u64,
    place: Place,
) -> Result<Vec<Item>, NoMemory>
    ensures { IfOk result (λ items. AreItems items.items (P.items locals.now event (at_of place))) }
{
    locals.items(event, place).to_vec(alloc)
}

/// Adds that for which what waits stands, where its event's bytes didn't come from outside.
fn follow<P: Locals>(
    alloc: Global,
    entries: &[Record],
    index: &Index,
    locals: &P,
    entry: &Record,
    wait: Wait,
    waiting: &mut Waiting,
    found: &mut Found,
) -> Result<(), NoMemory>
    requires indexed { Indexes index.now entries.now }
    requires fit { AllFit entries.now (P.items locals.now) }
    requires there { event_at entries.now wait.event ≡ Some entry.now }
    requires plain { is_source entry.now ≡ false }
    requires numbered { All IsNumbered waiting.old }
    ensures ok { OnOk result (IsStepped (from_wait (event_at entries.now) (reaches entries.now (P.items locals.now))) waiting.old found.old wait waiting.new found.new) }
    ensures numbered { OnOk result (All IsNumbered waiting.new) }
{
    match wait.kind {
        Kind::Received => {
            let origin = told::origin_of(entry, wait.at);
            add_origin(entries, index, origin, wait.byte, waiting, found)
        }
        Kind::Byte => {
            let items = items_of(alloc, locals, wait.event, Place::Byte(wait.at))?;
            add_items(entries, index, items.as_slice(), wait.byte, waiting, found)
        }
        Kind::Start => {
            let items = items_of(alloc, locals, wait.event, Place::Start(wait.at))?;
            add_items(entries, index, items.as_slice(), wait.byte, waiting, found)
        }
    }
}

/// Follows what waits at an event.
fn step_at<P: Locals>(
    alloc: Global,
    entries: &[Record],
    index: &Index,
    locals: &P,
    entry: &Record,
    wait: Wait,
    waiting: &mut Waiting,
    found: &mut Found,
) -> Result<(), NoMemory>
    requires indexed { Indexes index.now entries.now }
    requires fit { AllFit entries.now (P.items locals.now) }
    requires there { event_at entries.now wait.event ≡ Some entry.now }
    requires numbered { All IsNumbered waiting.old }
    ensures ok { OnOk result (IsStepped (from_wait (event_at entries.now) (reaches entries.now (P.items locals.now))) waiting.old found.old wait waiting.new found.new) }
    ensures numbered { OnOk result (All IsNumbered waiting.new) }
{
    if told::is_source(entry) {
        let len = told::len_at(entries, index, entry, wait.event);
        return keep_source(found, wait, len);
    }
    follow(alloc, entries, index, locals, entry, wait, waiting, found)
}

/// Follows what waits.
pub fn step<P: Locals>(
    alloc: Global,
    entries: &[Record],
    index: &Index,
    locals: &P,
    wait: Wait,
    waiting: &mut Waiting,
    found: &mut Found,
) -> Result<(), NoMemory>
    requires indexed { Indexes index.now entries.now }
    requires fit { AllFit entries.now (P.items locals.now) }
    requires numbered { All IsNumbered waiting.old }
    ensures ok { OnOk result (IsStepped (from_wait (event_at entries.now) (reaches entries.now (P.items locals.now))) waiting.old found.old wait waiting.new found.new) }
    ensures numbered { OnOk result (All IsNumbered waiting.new) }
{
    match told::record_at(entries, index, wait.event) {
        None => Ok(()),
        Some(entry) => step_at(alloc, entries, index, locals, entry, wait, waiting, found),
    }
}
