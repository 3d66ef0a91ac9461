// How a group begins: by the boot, or by a fork of another group.
ghost use Rattle.std.specs.Prelude.{◌≡◌, ◌+◌, [], ℕ, IfErr, IfSome, IsNone, OnErr, OnOk, Some, option_map};
ghost use Rattle.history_index.specs.Indexes.{Indexes};
ghost use Rattle.history_index.specs.Lookups as lookups;
ghost use Rattle.history_model.specs.Alone.{Makes, nothing_own};
ghost use Rattle.history_model.specs.Events.{event_at};
ghost use Rattle.history_model.specs.Groups.{group_of};
ghost use Rattle.replay_steps.specs.Notices.{Listener};
ghost use Rattle.replay_steps.specs.Standing.{Explains, GainsOnly, Reaches};
ghost use Rattle.replayer.specs.BySlices.{first_made, first_of};
ghost use Rattle.replayer.specs.Foundings as foundings;
ghost use Rattle.replayer.specs.Foundings.{Begins, event_behind};
ghost use Rattle.replayer.specs.Parts.{LivesIn};

use crate::ReplayError;
use acts_model::{Observer, child_told};
use arn_base::{Record, Start};
use guest_bodies::Bodies;
use history_index::Index;

// With what the group's first process begins, if a record tells it.
fn start_of(group: u32, entry: &Record) -> Option<&Start>
    ensures { option_map (λ start. start.now) result ≡ foundings.start_of group entry.now }
{
    match child_told(entry) {
        Some(child) if child.number == u64::from(group) => child.start,
        _ => None,
    }
}

// The record of an event.
fn record_of<'a>(entries: &'a [Record], index: &Index, event: u64) -> Option<&'a Record>
    requires indexed { Indexes index.now entries.now }
    ensures { option_map (λ e. e.now) result ≡ event_at entries.now event }
{
    let place = index.event_place(event)?;
    entries.get(place as usize)
}

// The event by which a group begins, if it comes before the moment, and its record.
fn founder<'a>(
    entries: &'a [Record],
    index: &Index,
    group: u32,
    until: u64,
) -> Option<(u64, &'a Record)>
    requires indexed { Indexes index.now entries.now }
    ensures begins { IfSome result (λ found. Begins group found.1.now) }
    ensures member { IfSome result (λ found. group_of entries.now group ≡ Some group) }
    ensures event { IfSome result (λ found.
        lookups.founding_event entries.now group ≡ Some found.0) }
    ensures made { IfSome result (λ found. first_made group found.0 found.1.now ≡
        first_of group until entries.now (lookups.founding_event entries.now group)) }
    ensures none { IsNone result → first_of group until entries.now
        (lookups.founding_event entries.now group) ≡ Makes nothing_own }
{
    let event = index.founding_event(group)?;
    let moment = index.event_moment(event)?;
    let entry = record_of(entries, index, event)?;
    if moment > until {
        return None;
    }
    Some((event, entry))
}

// Does what the record tells by which the group begins.
fn begin<O: Observer>(
    bodies: &mut Bodies,
    group: u32,
    event: u64,
    entry: &Record,
    observer: &mut O,
) -> Result<(), ReplayError>
    requires none { bodies.old ≡ [] }
    requires begins { Begins group entry.now }
    ensures ok { (count : ℕ) → OnOk result
        (Reaches (record { begins = O.begins; runs = O.runs; hears = O.hears })
        observer.old count nothing_own (first_made group event entry.now)
        bodies.new (event + 1) observer.new count) }
    ensures err { IfErr result (Explains (first_made group event entry.now)) }
    ensures lives { OnOk result (GainsOnly (Some group) bodies.old bodies.new) }
{
    match start_of(group, entry) {
        Some(start) => Ok(replay_steps::begin(bodies, group, event, start, observer)?),
        None => replay_steps::boot(bodies, event, entry, observer),
    }
}

/// Begins a group, if it begins before the moment.
pub fn begin_group<O: Observer>(
    bodies: &mut Bodies,
    entries: &[Record],
    index: &Index,
    group: u32,
    until: u64,
    observer: &mut O,
) -> Result<(), ReplayError>
    requires none { bodies.old ≡ [] }
    requires indexed { Indexes index.now entries.now }
    ensures ok { (count : ℕ) → OnOk result
        (Reaches (record { begins = O.begins; runs = O.runs; hears = O.hears })
        observer.old count nothing_own
        (first_of group until entries.now (lookups.founding_event entries.now group)) bodies.new
        (event_behind (lookups.founding_event entries.now group)) observer.new count) }
    ensures err { IfErr result (Explains
        (first_of group until entries.now (lookups.founding_event entries.now group))) }
    ensures lives { OnOk result (LivesIn entries.now (Some group) group bodies.new) }
{
    if let Some((event, entry)) = founder(entries, index, group, until) {
        begin(bodies, group, event, entry, observer)?;
    }
    Ok(())
}
