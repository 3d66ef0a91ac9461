// Bytes of a file at a moment.
ghost use Rattle.std.specs.Prelude.{◌≡◌, ◌≤◌, length, IfErr, IfOk, MatchOption, None, Some};
ghost use Rattle.history_index.specs.Indexes.{AreCountable, Indexes};
ghost use Rattle.lineage_join.specs.Fits.{AllFit};
ghost use Rattle.lineage_model.specs.Pairs.{pairs_from};
ghost use Rattle.parts_model.specs.declared.limits.TheConstants.{MOST_ASKED};
ghost use Rattle.query_model.specs.Names.{part_of, version_of, writers};
ghost use Rattle.followed_groups.specs.Following.{items_followed};
ghost use Rattle.followed_pairs.specs.Leads.{written_leads};
ghost use Rattle.followed_pairs.specs.Names.{LacksVersion, writer_demands};

use crate::told::FollowedLocals;
use arn_base::{NoMemory, Pairs, Record};
use file_versions::{VersionError, Versions};
use followed_groups::Followed;
use history_index::Index;
use lineage_join::{Demand, Place, join, pairs_are_one};
use parts_model::TaggedByte;
use parts_model::limits::MOST_ASKED;
use replayer::QueryError;
use std::alloc::Global;

/// The bytes of the file that has a name at a moment, each with the event byte that last wrote it.
pub fn version(
    alloc: Global,
    entries: &[Record],
    index: &Index,
    moment: u64,
    name: &[u8],
) -> Result<Vec<TaggedByte>, QueryError>
    requires countable { AreCountable entries.now }
    requires indexed { Indexes index.now entries.now }
    ensures ok { IfOk result (λ held. version_of entries.now moment name.now ≡ Some held.items) }
    ensures err { IfErr result (LacksVersion (version_of entries.now moment name.now)) }
{
    let found = Versions::build(alloc, entries, index)?.tagged(name, moment);
    match found {
        Ok(held) => Ok(held),
        Err(VersionError::NoMoment) => Err(QueryError::NoPoint),
        Err(VersionError::NoFile) => Err(QueryError::NoPoint),
        Err(VersionError::NoMemory) => Err(QueryError::NoMemory),
    }
}

/// So many of them from a place on, if it has these, and they aren't too many to be asked for.
pub fn part(held: &[TaggedByte], from: u64, len: u32) -> Option<&[TaggedByte]>
    ensures some { MatchOption result (part_of from len held.now ≡ None) (λ part. part_of from len held.now ≡ Some part.now) }
    ensures few { MatchOption result (part_of from len held.now ≡ None) (λ part. length part.now ≤ MOST_ASKED) }
{
    let end = from.checked_add(u64::from(len))?;
    if end <= held.len() as u64 && u64::from(len) <= MOST_ASKED {
        let (_, behind) = held.split_at(from as usize);
        let (part, _) = behind.split_at(len as usize);
        Some(part)
    } else {
        None
    }
}

/// The groups of the events that last wrote bytes.
pub fn writers(
    alloc: Global,
    _entries: &[Record],
    index: &Index,
    bytes: &[TaggedByte],
) -> Result<Vec<u32>, NoMemory>
    requires indexed { Indexes index.now _entries.now }
    ensures { IfOk result (λ groups. groups.items ≡ writers _entries.now bytes.now) }
{
    let mut groups = Vec::new(alloc);
    for byte in bytes {
        if let Some(group) = index.event_group(byte.origin.event) {
            groups.push(group)?;
        }
    }
    Ok(groups)
}

/// What is asked of bytes that were written: the event byte that last wrote each.
fn demands(alloc: Global, bytes: &[TaggedByte]) -> Result<Vec<Demand>, NoMemory>
    requires few { length bytes.now ≤ MOST_ASKED }
    ensures { IfOk result (λ demands. demands.items ≡ writer_demands 0 bytes.now) }
{
    let mut demands = Vec::new(alloc);
    for (place, byte) in bytes.iter().enumerate() {
        demands.push(Demand::Event {
            event: byte.origin.event,
            place: Place::Byte(u64::from(byte.origin.at)),
            byte: place as u32,
        })?;
    }
    Ok(demands)
}

/// The pairs that groups which were followed tell of bytes that were written.
pub fn written_pairs(
    alloc: Global,
    entries: &[Record],
    index: &Index,
    followed: &Followed<'_>,
    bytes: &[TaggedByte],
) -> Result<Pairs, NoMemory>
    requires indexed { Indexes index.now entries.now }
    requires fit { AllFit entries.now (items_followed followed.now) }
    requires few { length bytes.now ≤ MOST_ASKED }
    ensures { IfOk result (λ pairs. pairs ≡
        pairs_from (written_leads entries.now followed.now bytes.now) 0 (length bytes.now)) }
{
    pairs_are_one();
    let demands = demands(alloc, bytes)?;
    let locals = FollowedLocals { followed };
    join(alloc, entries, index, &locals, demands.as_slice())
}
