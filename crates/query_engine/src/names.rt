// Bytes of a file at a moment.
ghost use Rattle.std.specs.Prelude.{◌≡◌, ◌≤◌, length, IfOk};
ghost use Rattle.rv64_model.specs.Carries.{operands};
ghost use Rattle.exchange_graph.specs.Reach.{Rises};
ghost use Rattle.history_index.specs.Indexes.{AreCountable, Indexes};
ghost use Rattle.parts_model.specs.declared.limits.TheConstants.{MOST_ASKED};
ghost use Rattle.followed_groups.specs.Following.{HasFollowed, IsOf};
ghost use Rattle.query_laws.specs.Names.{AreWritten};
ghost use Rattle.query_model.specs.Names.{written_groups};
ghost use Rattle.query_model.specs.Names as model;

use crate::law::{laws, laws_of_names};
use arn_base::{NoMemory, Numbers, Pairs, Record};
use exchange_graph::Graph;
use followed_groups::Followed;
use followed_pairs::{items_are_of_groups, writers, written_pairs};
use history_index::Index;
use parts_model::TaggedByte;
use rv64_model::Linkage;
use std::alloc::Global;
use window_laws::blocks_are_whole;

/// The groups that are asked about bytes that were written.
pub fn groups_of(
    alloc: Global,
    entries: &[Record],
    index: &Index,
    bytes: &[TaggedByte],
) -> Result<Numbers, NoMemory>
    requires countable { AreCountable entries.now }
    requires indexed { Indexes index.now entries.now }
    ensures ok { IfOk result (λ groups. groups ≡ written_groups entries.now bytes.now) }
    ensures rises { IfOk result Rises }
{
    laws();
    let graph = Graph::build(alloc, entries, index)?;
    let writers = writers(alloc, entries, index, bytes)?;
    graph.back(writers.as_slice())
}

/// The pairs that answer of bytes that were written by a moment.
pub fn pairs(
    alloc: Global,
    entries: &[Record],
    index: &Index,
    linkage: Linkage,
    followed: &Followed<'_>,
    _moment: u64,
    bytes: &[TaggedByte],
) -> Result<Pairs, NoMemory>
    requires indexed { Indexes index.now entries.now }
    requires few { length bytes.now ≤ MOST_ASKED }
    requires written { AreWritten entries.now bytes.now }
    requires of { IsOf entries.now linkage _moment followed.now }
    requires has { HasFollowed followed.now (written_groups entries.now bytes.now) }
    ensures { IfOk result (λ pairs. pairs ≡ model.written_pairs (operands linkage) entries.now _moment bytes.now) }
{
    laws();
    laws_of_names();
    blocks_are_whole(entries);
    items_are_of_groups();
    written_pairs(alloc, entries, index, followed, bytes)
}
