// The pairs that are asked for.
ghost use Rattle.std.specs.Prelude.{[], ◌∷◌, All, map, OnOk, IfOk};
ghost use Rattle.history_index.specs.Indexes.{Indexes};
ghost use Rattle.history_model.specs.Events.{event_at};
ghost use Rattle.lineage_join.specs.Added.{HasAdded};
ghost use Rattle.lineage_join.specs.Asked.{AreAsked};
ghost use Rattle.lineage_join.specs.Fits.{AllFit};
ghost use Rattle.lineage_join.specs.Laws.{reaches};
ghost use Rattle.lineage_join.specs.Rising.{IsRising};
ghost use Rattle.lineage_join.specs.Waits.{AreFound, HasAlso, IsNumbered, demanded, from_wait, kind_of, number_of};

use crate::demand::{Demand, Place};
use crate::found::Found;
use crate::locals::Locals;
use crate::step::{add_item, step};
use crate::wait::{Kind, Waiting};
use arn_base::{NoMemory, Pairs, Record};
use history_index::Index;
use std::alloc::Global;

/// Lets a byte of an event wait.
fn add_place(event: u64, place: Place, byte: u32, waiting: &mut Waiting) -> Result<(), NoMemory>
    ensures ok { OnOk result (HasAlso waiting.old (record { event = event; kind = kind_of place; at = number_of place; byte = byte }) waiting.new) }
    ensures numbered { All IsNumbered waiting.new }
{
    match place {
        Place::Byte(at) => waiting.add(event, Kind::Byte, at, byte),
        Place::Start(at) => waiting.add(event, Kind::Start, at, byte),
    }
}

/// Adds what is asked for.
fn add_demand(
    entries: &[Record],
    index: &Index,
    demand: Demand,
    waiting: &mut Waiting,
    found: &mut Found,
) -> Result<(), NoMemory>
    requires indexed { Indexes index.now entries.now }
    requires numbered { All IsNumbered waiting.old }
    ensures ok { OnOk result (HasAdded entries.now waiting.old found.old (demanded (event_at entries.now) demand ∷ []) waiting.new found.new) }
    ensures numbered { OnOk result (All IsNumbered waiting.new) }
{
    match demand {
        Demand::Event { event, place, byte } => add_place(event, place, byte, waiting),
        Demand::Item { item, byte } => add_item(entries, index, item, byte, waiting, found),
    }
}

/// Adds all that is asked for.
fn add_demands(
    entries: &[Record],
    index: &Index,
    demands: &[Demand],
    waiting: &mut Waiting,
    found: &mut Found,
) -> Result<(), NoMemory>
    requires indexed { Indexes index.now entries.now }
    requires numbered { All IsNumbered waiting.old }
    ensures ok { OnOk result (HasAdded entries.now waiting.old found.old (map (demanded (event_at entries.now)) demands.now) waiting.new found.new) }
    ensures numbered { OnOk result (All IsNumbered waiting.new) }
{
    for demand in demands {
        add_demand(entries, index, *demand, waiting, found)?;
    }
    Ok(())
}

/// Follows all that waits, the latest first: what waits then is of earlier events, or nearer to what its
/// own event received.
fn follow_all<P: Locals>(
    alloc: Global,
    entries: &[Record],
    index: &Index,
    locals: &P,
    waiting: &mut Waiting,
    found: &mut Found,
) -> Result<(), NoMemory>
    requires indexed { Indexes index.now entries.now }
    requires fit { AllFit entries.now (P.items locals.now) }
    requires numbered { All IsNumbered waiting.old }
    ensures { OnOk result (AreFound (from_wait (event_at entries.now) (reaches entries.now (P.items locals.now))) waiting.old found.old found.new) }
{
    while let Some(wait) = waiting.next() {
        step(alloc, entries, index, locals, wait, waiting, found)?;
    }
    Ok(())
}

/// The pairs that are asked for, rising. A source byte that reaches a byte of the target on several ways
/// stands once.
pub fn join<P: Locals>(
    alloc: Global,
    entries: &[Record],
    index: &Index,
    locals: &P,
    demands: &[Demand],
) -> Result<Pairs, NoMemory>
    requires indexed { Indexes index.now entries.now }
    requires fit { AllFit entries.now (P.items locals.now) }
    ensures asked { IfOk result (AreAsked (event_at entries.now) (reaches entries.now (P.items locals.now)) demands.now) }
    ensures rising { IfOk result IsRising }
{
    let mut waiting = Waiting::new(alloc);
    let mut found = Found::new(alloc);
    add_demands(entries, index, demands, &mut waiting, &mut found)?;
    follow_all(alloc, entries, index, locals, &mut waiting, &mut found)?;
    found.pairs(alloc)
}
