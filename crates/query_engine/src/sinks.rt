// The bytes that went out and are reached by bytes of an event.
ghost use Rattle.std.specs.Prelude.{◌≡◌, IfOk};
ghost use Rattle.rv64_model.specs.Carries.{operands};
ghost use Rattle.history_index.specs.Indexes.{Indexes};
ghost use Rattle.history_model.specs.Moments.{total};
ghost use Rattle.followed_groups.specs.Following.{HasFollowed, HasOnly, IsOf};
ghost use Rattle.query_model.specs.Sinks as model;

use crate::law::laws;
use crate::law_forth::laws_forth;
use arn_base::{NoMemory, Pairs, Record};
use followed_groups::Followed;
use followed_pairs::{Asked, items_are_of_groups, sink_pairs};
use history_index::Index;
use lineage_join::pairs_are_one;
use rv64_model::Linkage;
use std::alloc::Global;
use window_laws::blocks_are_whole;

/// The pairs that answer of bytes of an event, of these groups that were followed to the end.
pub fn pairs_among(
    alloc: Global,
    entries: &[Record],
    index: &Index,
    linkage: Linkage,
    followed: &Followed<'_>,
    groups: &[u32],
    asked: Asked,
) -> Result<Pairs, NoMemory>
    requires indexed { Indexes index.now entries.now }
    requires of { IsOf entries.now linkage (total entries.now) followed.now }
    requires has { HasFollowed followed.now groups.now }
    requires only { HasOnly followed.now groups.now }
    ensures { IfOk result (λ pairs. pairs ≡ model.pairs_among (operands linkage) entries.now groups.now asked.event asked.from asked.len) }
{
    laws();
    laws_forth();
    blocks_are_whole(entries);
    pairs_are_one();
    items_are_of_groups();
    sink_pairs(alloc, entries, index, followed, groups, asked)
}
