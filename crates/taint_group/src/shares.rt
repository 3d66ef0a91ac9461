// A fresh segment.
ghost use Rattle.std.specs.Prelude.{◌≡◌, length, IfOk, OnOk};
ghost use Rattle.acts_model.specs.Transfers.{Holds, Shares};
ghost use Rattle.taint_group.specs.Groups.{IsSoundGroup};
ghost use Rattle.taint_group.specs.Moves.{IsFreshSegment, SharesAs};
ghost use Rattle.taint_group.specs.Turns.{ChangesEntry, ChangesIn, LivesAs, StepsFrom};

use crate::group::{Group, hear_empty};
use crate::memories::{MemoryKind, key_for, put_memory};
use arn_base::NoMemory;
use std::alloc::Global;
use taint_members::{Held, MemberSets};
use taint_pages::{SetNumbers, Unset};
use taint_state::shares_show;

/// How many pages a segment has.
const SEGMENT_PAGES: usize = 16;

/// A segment none of whose bytes has a set.
fn fresh_segment(alloc: Global) -> Result<SetNumbers, NoMemory>
    ensures { IfOk result IsFreshSegment }
{
    SetNumbers::new(alloc, SEGMENT_PAGES, Unset::Zero)
}

/// A member that may be there gets a fresh segment.
fn share_entry(entry: &mut Option<MemberSets>, held: Held)
    ensures { ChangesEntry (LivesAs (SharesAs held)) entry.old entry.new }
{
    if let Some(member) = entry {
        member.shares(held);
    }
}

/// The member of a number gets one, if there is such a member.
fn share_member(members: &mut [Option<MemberSets>], pid: u32, held: Held)
    ensures shares { ChangesIn (LivesAs (SharesAs held)) pid members.old members.new }
    ensures count { length members.new ≡ length members.old }
{
    let place = pid as usize;
    if place < members.len() {
        share_entry(&mut members[place], held);
    }
}

impl Group {
    /// A live member gets a fresh segment. After an error nothing is known of what is kept.
    pub fn shares(&mut self, pid: u32, event: u64, len: usize) -> Result<(), NoMemory>
        requires sound { IsSoundGroup self.old }
        ensures { OnOk result
            (StepsFrom (λ (holds : Holds). Shares pid event) pid event len self.old self.new) }
    {
        shares_show();
        let alloc = *self.members.allocator();
        let key = key_for(
            self.members.as_slice(),
            MemoryKind::Segment,
            self.memories.len(),
            event,
        );
        let segment = fresh_segment(alloc)?;
        put_memory(&mut self.memories, key, segment)?;
        share_member(self.members.as_mut_slice(), pid, Held { made: event, key });
        hear_empty(alloc, &mut self.heard, event, len)
    }
}
