// Bytes that a process holds at a moment.
ghost use Rattle.std.specs.Prelude.{◌≡◌, true, IfOk};
ghost use Rattle.rv64_model.specs.Carries.{operands};
ghost use Rattle.exchange_graph.specs.Reach.{Rises};
ghost use Rattle.history_index.specs.Indexes.{AreCountable, Indexes};
ghost use Rattle.followed_groups.specs.Following.{HasFollowed, IsOf};
ghost use Rattle.followed_pairs.specs.States.{is_held};
ghost use Rattle.query_model.specs.States.{process_groups};
ghost use Rattle.query_model.specs.States as model;

use crate::behind::behind;
use crate::law::{laws, laws_of_states};
use arn_base::{NoMemory, Numbers, Pairs, Record};
use exchange_graph::Graph;
use followed_groups::Followed;
use followed_pairs::{held_pairs, items_are_of_groups};
use history_index::Index;
use query_model::Held;
use rv64_model::Linkage;
use std::alloc::Global;
use window_laws::blocks_are_whole;

/// The groups that are asked about bytes of a process.
pub fn groups_of(
    alloc: Global,
    entries: &[Record],
    index: &Index,
    pid: u32,
) -> Result<Numbers, NoMemory>
    requires countable { AreCountable entries.now }
    requires indexed { Indexes index.now entries.now }
    ensures ok { IfOk result (λ groups. groups ≡ process_groups entries.now pid) }
    ensures rises { IfOk result Rises }
{
    laws();
    let graph = Graph::build(alloc, entries, index)?;
    behind(&graph, index.group_of(pid))
}

/// The pairs that answer of bytes that a process holds.
pub fn pairs(
    alloc: Global,
    entries: &[Record],
    index: &Index,
    linkage: Linkage,
    followed: &Followed<'_>,
    held: Held,
) -> Result<Pairs, NoMemory>
    requires indexed { Indexes index.now entries.now }
    requires there { is_held entries.now held ≡ true }
    requires of { IsOf entries.now linkage held.moment followed.now }
    requires has { HasFollowed followed.now (process_groups entries.now held.pid) }
    ensures { IfOk result (λ pairs. pairs ≡ model.held_pairs (operands linkage) entries.now held) }
{
    laws();
    laws_of_states();
    blocks_are_whole(entries);
    items_are_of_groups();
    held_pairs(alloc, entries, index, followed, held)
}
