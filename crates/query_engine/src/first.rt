// The groups that had bytes of an event first.
ghost use Rattle.std.specs.Prelude.{◌≡◌, IfOk, Some, true};
ghost use Rattle.exchange_graph.specs.Reach.{Rises};
ghost use Rattle.history_index.specs.Indexes.{AreCountable, Indexes};
ghost use Rattle.history_model.specs.Events.{event_at};
ghost use Rattle.lineage_model.specs.Joined as joined;
ghost use Rattle.query_engine.specs.Reached.{HaveSame};
ghost use Rattle.query_model.specs.Forth as model;

use crate::law_forth::laws_forth;
use arn_base::{NoMemory, Numbers, Record};
use exchange_graph::Graph;
use followed_pairs::{Asked, push_group, takers};
use history_index::Index;
use lineage_join::{is_source, record_at};
use std::alloc::Global;

/// The groups that had bytes of an event of the outside first: those that received copies, and that by
/// which the event was made.
fn first_of_source(
    alloc: Global,
    entries: &[Record],
    index: &Index,
    asked: Asked,
    entry: &Record,
) -> Result<Numbers, NoMemory>
    requires indexed { Indexes index.now entries.now }
    requires there { event_at entries.now asked.event ≡ Some entry.now }
    requires source { joined.is_source entry.now ≡ true }
    ensures { IfOk result (λ groups. HaveSame groups (model.first_groups entries.now asked.event asked.from asked.len)) }
{
    laws_forth();
    let mut groups = takers(alloc, entries, index, asked)?;
    if asked.len > 0 {
        push_group(&mut groups, index.event_group(asked.event))?;
    }
    Ok(groups)
}

/// The groups that had bytes of an event first. Bytes that didn't come from outside are no source bytes.
fn first_groups(
    alloc: Global,
    entries: &[Record],
    index: &Index,
    asked: Asked,
) -> Result<Numbers, NoMemory>
    requires { Indexes index.now entries.now }
    ensures { IfOk result (λ groups. HaveSame groups (model.first_groups entries.now asked.event asked.from asked.len)) }
{
    match record_at(entries, index, asked.event) {
        Some(entry) if is_source(entry) => first_of_source(alloc, entries, index, asked, entry),
        _ => Ok(Numbers::new(alloc)),
    }
}

/// The groups to which bytes of an event can have come.
pub fn forth_groups(
    alloc: Global,
    entries: &[Record],
    index: &Index,
    asked: Asked,
) -> Result<Numbers, NoMemory>
    requires countable { AreCountable entries.now }
    requires indexed { Indexes index.now entries.now }
    ensures ok { IfOk result (λ groups. groups ≡ model.forth_groups entries.now asked.event asked.from asked.len) }
    ensures rises { IfOk result Rises }
{
    laws_forth();
    let first = first_groups(alloc, entries, index, asked)?;
    let graph = Graph::build(alloc, entries, index)?;
    graph.forth(first.as_slice())
}
