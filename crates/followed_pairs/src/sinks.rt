// The bytes that went out and are reached by bytes of an event.
ghost use Rattle.std.specs.Prelude.{◌≡◌, ◌⊎◌, ◌↔◌, List, Contains, IfOk, OnOk};
ghost use Rattle.arn_base.specs.declared.records.Record.{Record};
ghost use Rattle.arn_base.specs.declared.records.Pair.{Pair};
ghost use Rattle.history_index.specs.Indexes.{Indexes};
ghost use Rattle.history_model.specs.Events.{event_at, how_many};
ghost use Rattle.lineage_join.specs.Fits.{AllFit};
ghost use Rattle.lineage_join.specs.Laws.{reaches};
ghost use Rattle.lineage_join.specs.Rising.{IsRising};
ghost use Rattle.followed_groups.specs.Following.{items_followed};
ghost use Rattle.followed_pairs.specs.Leads.{leads};
ghost use Rattle.followed_pairs.specs.Sinks.{IsOutBefore, IsOutPair, IsPairAt, IsTurned, TurnsOne};
ghost use Rattle.followed_pairs.specs.Sinks as told;
ghost use Rattle.query_model.specs.Sinks as model;

use crate::asked::Asked;
use crate::events::demands;
use crate::told::FollowedLocals;
use arn_base::{Extra, NoMemory, Pair, Pairs, Record};
use followed_groups::Followed;
use history_index::Index;
use lineage_join::{Found, join, record_at};
use parts_model::calls::WRITE;
use std::alloc::Global;

/// Whether an event is a write whose bytes go to a file, to the console or to a device.
fn is_sink(entry: &Record) -> bool
    ensures { result ≡ model.is_sink entry.now }
{
    match entry {
        Record::Call { number, extra, .. } => is_outward(*number, extra),
        _ => false,
    }
}

fn is_outward(number: u64, extra: &Extra) -> bool
    ensures { result ≡ model.is_outward number extra.now }
{
    match extra {
        Extra::Put { .. } | Extra::Console { .. } | Extra::Sent { .. } => number == WRITE,
        _ => false,
    }
}

/// Whether an event is of one of these groups.
fn is_among(index: &Index, groups: &[u32], event: u64) -> bool
    ensures { (entries : List Record) → Indexes index.now entries → result ≡ model.is_among entries groups.now event }
{
    match index.event_group(event) {
        Some(group) => groups.contains(&group),
        None => false,
    }
}

/// Whether an event is a write of one of these groups to the outside.
fn goes_out(entries: &[Record], index: &Index, groups: &[u32], event: u64) -> bool
    requires { Indexes index.now entries.now }
    ensures { result ≡ told.goes_out entries.now groups.now event (event_at entries.now event) }
{
    match record_at(entries, index, event) {
        Some(entry) => is_sink(entry) && is_among(index, groups, event),
        None => false,
    }
}

/// Whether a source byte is one that is asked.
fn is_asked(asked: Asked, reached: Pair) -> bool
    ensures { result ≡ told.is_asked asked reached }
{
    let end = u64::from(asked.from) + u64::from(asked.len);
    reached.event == asked.event && asked.from <= reached.at && u64::from(reached.at) < end
}

/// Adds a byte of event `sink` beside the byte that reaches it, where that is asked.
fn add_reached(asked: Asked, sink: u64, reached: Pair, found: &mut Found) -> Result<(), NoMemory>
    ensures { OnOk result ((pair : Pair) → Contains found.new pair ↔ (Contains found.old pair ⊎ IsTurned asked sink reached pair)) }
{
    if is_asked(asked, reached) {
        let byte = reached.at - asked.from;
        found.add(sink, reached.byte, byte)?;
    }
    Ok(())
}

/// Adds the bytes of an event that are reached, each beside the bytes that reach it.
fn add_all(asked: Asked, sink: u64, reached: &[Pair], found: &mut Found) -> Result<(), NoMemory>
    ensures { OnOk result ((pair : Pair) → Contains found.new pair ↔ (Contains found.old pair ⊎ TurnsOne asked sink reached.now pair)) }
{
    for pair in reached {
        add_reached(asked, sink, *pair, found)?;
    }
    Ok(())
}

/// Adds the bytes of a write that are reached.
fn add_sink(
    alloc: Global,
    entries: &[Record],
    index: &Index,
    followed: &Followed<'_>,
    asked: Asked,
    sink: u64,
    found: &mut Found,
) -> Result<(), NoMemory>
    requires indexed { Indexes index.now entries.now }
    requires fit { AllFit entries.now (items_followed followed.now) }
    ensures { OnOk result ((pair : Pair) → Contains found.new pair ↔
        (Contains found.old pair ⊎ IsPairAt (reaches entries.now (items_followed followed.now)) asked sink (event_at entries.now sink) pair)) }
{
    let len = index.event_len(sink).unwrap_or(0);
    let demands = demands(alloc, sink, 0, len)?;
    let locals = FollowedLocals { followed };
    let reached = join(alloc, entries, index, &locals, demands.as_slice())?;
    add_all(asked, sink, reached.as_slice(), found)
}

/// Adds the bytes of an event that are reached, if it is a write of one of these groups to the outside.
fn add_event(
    alloc: Global,
    entries: &[Record],
    index: &Index,
    followed: &Followed<'_>,
    groups: &[u32],
    asked: Asked,
    event: u64,
    found: &mut Found,
) -> Result<(), NoMemory>
    requires indexed { Indexes index.now entries.now }
    requires fit { AllFit entries.now (items_followed followed.now) }
    ensures { OnOk result ((pair : Pair) → Contains found.new pair ↔
        (Contains found.old pair ⊎ IsOutPair (reaches entries.now (items_followed followed.now)) entries.now groups.now asked event pair)) }
{
    if goes_out(entries, index, groups, event) {
        add_sink(alloc, entries, index, followed, asked, event, found)?;
    }
    Ok(())
}

/// The bytes of all such writes that are reached.
fn sinks(
    alloc: Global,
    entries: &[Record],
    index: &Index,
    followed: &Followed<'_>,
    groups: &[u32],
    asked: Asked,
) -> Result<Found, NoMemory>
    requires indexed { Indexes index.now entries.now }
    requires fit { AllFit entries.now (items_followed followed.now) }
    ensures { IfOk result (λ found. (pair : Pair) → Contains found pair ↔
        IsOutBefore (reaches entries.now (items_followed followed.now)) entries.now groups.now asked (how_many entries.now) pair) }
{
    let mut found = Found::new(alloc);
    for event in 0..index.events() {
        add_event(
            alloc, entries, index, followed, groups, asked, event, &mut found,
        )?;
    }
    Ok(found)
}

/// The pairs that groups which were followed tell of bytes of an event: each byte of a write of one of
/// these groups to the outside that it reaches, beside it.
pub fn sink_pairs(
    alloc: Global,
    entries: &[Record],
    index: &Index,
    followed: &Followed<'_>,
    groups: &[u32],
    asked: Asked,
) -> Result<Pairs, NoMemory>
    requires indexed { Indexes index.now entries.now }
    requires fit { AllFit entries.now (items_followed followed.now) }
    ensures members { IfOk result (λ pairs. (pair : Pair) → Contains pairs pair ↔ IsOutBefore
        (leads entries.now followed.now) entries.now groups.now asked (how_many entries.now) pair) }
    ensures rising { IfOk result IsRising }
{
    let found = sinks(alloc, entries, index, followed, groups, asked)?;
    found.pairs(alloc)
}
