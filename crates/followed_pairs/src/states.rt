// Bytes that a process holds at a moment.
ghost use Rattle.std.specs.Prelude.{◌≡◌, ◌++◌, true, IfOk, OnOk, map};
ghost use Rattle.history_index.specs.Indexes.{Indexes};
ghost use Rattle.lineage_join.specs.Fits.{AllFit};
ghost use Rattle.lineage_model.specs.Pairs.{pairs_from};
ghost use Rattle.query_model.specs.States.{HasByte, part_len};
ghost use Rattle.followed_groups.specs.Following.{IsOf, items_followed};
ghost use Rattle.followed_pairs.specs.Leads.{held_leads};
ghost use Rattle.followed_pairs.specs.States as told;
ghost use Rattle.followed_pairs.specs.States.{AreItemsThere, IsOwnFollowed, IsPlaced, held_demands, item_demand, point_in};

use crate::told::FollowedLocals;
use arn_base::{NoMemory, Pairs, Record};
use followed_groups::Followed;
use history_index::Index;
use lineage_join::{Demand, join, numbers_stand, pairs_are_one};
use past_lives::{is_member, is_memory_range};
use query_model::{Held, Part};
use set_store::Item;
use std::alloc::Global;
use taint_tracker::Point;

/// How many registers there are, x0 among them.
const REGISTERS: u8 = 32;

/// How many bytes each has.
const REGISTER_LEN: u32 = 8;

/// Whether the process lives at the moment and has these bytes, and they aren't too many to be asked for.
pub fn is_held(entries: &[Record], index: &Index, held: Held) -> bool
    requires indexed { Indexes index.now entries.now }
    ensures { result ≡ told.is_held entries.now held }
{
    match held.part {
        Part::Register(reg) => {
            is_member(entries, index, held.moment, held.pid) && reg < REGISTERS
        }
        Part::Memory { at, len } => {
            is_memory_range(entries, index, held.moment, held.pid, at, len)
        }
    }
}

/// How many bytes are asked for.
fn len_of(part: Part) -> u32
    ensures { result ≡ part_len part }
{
    match part {
        Part::Register(_) => REGISTER_LEN,
        Part::Memory { at: _, len } => len,
    }
}

/// What to ask a tracker of byte `byte` of a part.
fn point(pid: u32, part: Part, byte: u32) -> Point
    requires below { HasByte part byte }
    requires placed { IsPlaced part }
    ensures { result ≡ point_in pid part byte }
{
    match part {
        Part::Register(reg) => Point::Reg {
            pid,
            reg,
            byte: byte as u8,
        },
        Part::Memory { at, len: _ } => Point::Mem {
            pid,
            at: at + u64::from(byte),
        },
    }
}

/// Adds that byte `byte` takes these items.
fn add_items(demands: &mut Vec<Demand>, items: &[Item], byte: u32) -> Result<(), NoMemory>
    ensures { OnOk result (demands.new.items ≡ demands.old.items ++ map (item_demand byte) items.now) }
{
    for item in items {
        demands.push(Demand::Item { item: *item, byte })?;
    }
    Ok(())
}

/// What is asked of bytes that a process holds: the items of each.
fn demands(
    alloc: Global,
    _entries: &[Record],
    followed: &Followed<'_>,
    held: Held,
) -> Result<Vec<Demand>, NoMemory>
    requires there { told.is_held _entries.now held ≡ true }
    ensures { IfOk result (λ demands. demands.items ≡ held_demands followed.now held (part_len held.part)) }
{
    let mut demands = Vec::new(alloc);
    for byte in 0..len_of(held.part) {
        let items = followed
            .held(held.pid, point(held.pid, held.part, byte))
            .to_vec(alloc)?;
        add_items(&mut demands, items.as_slice(), byte)?;
    }
    Ok(demands)
}

/// The pairs that groups which were followed tell of bytes that a process holds.
pub fn held_pairs(
    alloc: Global,
    entries: &[Record],
    index: &Index,
    followed: &Followed<'_>,
    held: Held,
) -> Result<Pairs, NoMemory>
    requires indexed { Indexes index.now entries.now }
    requires there { told.is_held entries.now held ≡ true }
    requires of { IsOf entries.now followed.now.linkage held.moment followed.now }
    requires own { IsOwnFollowed followed.now held.pid }
    requires items { AreItemsThere followed.now held }
    requires fit { AllFit entries.now (items_followed followed.now) }
    ensures { IfOk result (λ pairs. pairs ≡
        pairs_from (held_leads entries.now followed.now held) 0 (part_len held.part)) }
{
    pairs_are_one();
    numbers_stand();
    followed.are_followed();
    let demands = demands(alloc, entries, followed, held)?;
    let locals = FollowedLocals { followed };
    join(alloc, entries, index, &locals, demands.as_slice())
}
