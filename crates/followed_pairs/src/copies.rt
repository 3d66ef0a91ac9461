// The groups that received copies of bytes of an event.
ghost use Rattle.std.specs.Prelude.{◌≡◌, ◌⊎◌, ◌↔◌, ℕ, Contains, IfOk, OnOk, Some, option_and_then};
ghost use Rattle.std.specs.List.{list_any};
ghost use Rattle.history_index.specs.Indexes.{Indexes};
ghost use Rattle.history_model.specs.Events.{event_at, how_many};
ghost use Rattle.history_model.specs.Exchanges.{received};
ghost use Rattle.followed_pairs.specs.Copies.{AreTakers, Takes};
ghost use Rattle.query_model.specs.Forth as model;

use crate::asked::Asked;
use arn_base::{NoMemory, Numbers, Origin, Record};
use exchange_graph::received;
use history_index::Index;
use lineage_join::record_at;
use std::alloc::Global;

/// Whether some of these bytes are copies of some of those that are asked.
fn is_copy(origin: &Origin, asked: Asked) -> bool
    ensures { result ≡ model.is_copy asked.event asked.from asked.len origin.now }
{
    let end = u64::from(origin.at) + u64::from(origin.len);
    let asked_end = u64::from(asked.from) + u64::from(asked.len);
    origin.event == asked.event && u64::from(origin.at.max(asked.from)) < end.min(asked_end)
}

fn has_copy(origins: &[Origin], asked: Asked) -> bool
    ensures { result ≡ list_any (model.is_copy asked.event asked.from asked.len) origins.now }
{
    for origin in origins {
        if is_copy(origin, asked) {
            return true;
        }
    }
    false
}

/// Whether an event received copies of what is asked.
fn takes(entries: &[Record], index: &Index, asked: Asked, event: u64) -> bool
    requires { Indexes index.now entries.now }
    ensures { result ≡ model.has_copy asked.event asked.from asked.len (option_and_then received (event_at entries.now event)) }
{
    match record_at(entries, index, event) {
        Some(entry) => match received(entry) {
            Some(give) => has_copy(give.origins.as_slice(), asked),
            None => false,
        },
        None => false,
    }
}

/// Adds a group, if there is one.
pub fn push_group(groups: &mut Numbers, group: Option<u32>) -> Result<(), NoMemory>
    ensures { OnOk result ((g : ℕ) → Contains groups.new g ↔ (Contains groups.old g ⊎ (group ≡ Some g))) }
{
    match group {
        Some(group) => groups.push(group),
        None => Ok(()),
    }
}

/// Adds the group of an event that received copies of what is asked.
fn push_taker(
    groups: &mut Numbers,
    entries: &[Record],
    index: &Index,
    asked: Asked,
    event: u64,
) -> Result<(), NoMemory>
    requires { Indexes index.now entries.now }
    ensures { OnOk result ((g : ℕ) → Contains groups.new g ↔ (Contains groups.old g ⊎ Takes entries.now asked event g)) }
{
    if takes(entries, index, asked, event) {
        push_group(groups, index.event_group(event))?;
    }
    Ok(())
}

/// The groups that received copies of what is asked, each as often as it did.
pub fn takers(
    alloc: Global,
    entries: &[Record],
    index: &Index,
    asked: Asked,
) -> Result<Numbers, NoMemory>
    requires { Indexes index.now entries.now }
    ensures { IfOk result (AreTakers entries.now asked (how_many entries.now)) }
{
    let mut groups = Numbers::new(alloc);
    for event in 0..index.events() {
        push_taker(&mut groups, entries, index, asked, event)?;
    }
    Ok(groups)
}
