// Bytes of an event.
ghost use Rattle.std.specs.Prelude.{◌≡◌, IfOk, List};
ghost use Rattle.arn_base.specs.declared.records.Record.{Record};
ghost use Rattle.history_index.specs.Indexes.{Indexes};
ghost use Rattle.history_model.specs.Events.{event_at, is_range};
ghost use Rattle.lineage_join.specs.Fits.{AllFit};
ghost use Rattle.lineage_model.specs.Pairs.{pairs_from};
ghost use Rattle.followed_groups.specs.Following.{items_followed};
ghost use Rattle.followed_pairs.specs.Demands.{byte_demands};
ghost use Rattle.followed_pairs.specs.Leads.{event_leads};

use crate::asked::Asked;
use crate::told::FollowedLocals;
use arn_base::{NoMemory, Pairs, Record};
use followed_groups::Followed;
use history_index::Index;
use lineage_join::{Demand, Place, join, pairs_are_one};
use parts_model::limits::MOST_ASKED;
use std::alloc::Global;

/// Whether an event is there and has these bytes, and they aren't too many to be asked for.
pub fn has_range(index: &Index, event: u64, from: u32, len: u32) -> bool
    ensures { (entries : List Record) → Indexes index.now entries →
        result ≡ is_range (event_at entries event) from len }
{
    match index.event_len(event) {
        Some(bytes) => {
            u64::from(from) + u64::from(len) <= u64::from(bytes) && u64::from(len) <= MOST_ASKED
        }
        None => false,
    }
}

/// What is asked of bytes of an event.
pub fn demands(alloc: Global, event: u64, from: u32, len: u32) -> Result<Vec<Demand>, NoMemory>
    ensures { IfOk result (λ demands. demands.items ≡ byte_demands event from len) }
{
    let mut demands = Vec::new(alloc);
    for byte in 0..len {
        demands.push(Demand::Event {
            event,
            place: Place::Byte(u64::from(from) + u64::from(byte)),
            byte,
        })?;
    }
    Ok(demands)
}

/// The pairs that groups which were followed tell of bytes of an event.
pub fn event_pairs(
    alloc: Global,
    entries: &[Record],
    index: &Index,
    followed: &Followed<'_>,
    asked: Asked,
) -> Result<Pairs, NoMemory>
    requires indexed { Indexes index.now entries.now }
    requires fit { AllFit entries.now (items_followed followed.now) }
    ensures { IfOk result (λ pairs.
        pairs ≡ pairs_from (event_leads entries.now followed.now asked) 0 asked.len) }
{
    pairs_are_one();
    let demands = demands(alloc, asked.event, asked.from, asked.len)?;
    let locals = FollowedLocals { followed };
    join(alloc, entries, index, &locals, demands.as_slice())
}
