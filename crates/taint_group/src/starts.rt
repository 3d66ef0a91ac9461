// Members that start from an image.
ghost use Rattle.std.specs.Prelude.{IfOk, IfSome, OnOk};
ghost use Rattle.acts_model.specs.Transfers.{Holds, Starts, place_of};
ghost use Rattle.parts_model.specs.Numbered.{nth};
ghost use Rattle.taint_members.specs.Access.{HoldsKeys};
ghost use Rattle.taint_members.specs.declared.member.MemberSets.{MemberSets};
ghost use Rattle.taint_group.specs.Groups.{IsSoundGroup};
ghost use Rattle.taint_group.specs.Turns.{StartsEntry, StepsFrom};

use crate::group::Group;
use crate::memories::may_seat;
use arn_base::NoMemory;
use std::alloc::Global;
use taint_events::{received, started};
use taint_members::{MemberSets, NewMember};
use taint_pages::SetNumbers;
use taint_state::{Layout, starts_show};

/// What a member that may be there is, started from an image.
fn start_entry(
    alloc: Global,
    entry: &Option<MemberSets>,
    memories: &[SetNumbers],
    numbers: &[u32],
    layout: Layout,
) -> Result<Option<NewMember>, NoMemory>
    requires held { IfSome entry.now (λ (old : MemberSets). HoldsKeys old memories.now) }
    ensures { IfOk result (StartsEntry memories.now layout.load
        numbers.now layout.block layout.block_len entry.now) }
{
    match entry {
        Some(member) => Ok(Some(started(
            alloc,
            member,
            memories,
            layout.load,
            numbers,
            layout.block,
            layout.block_len,
        )?)),
        None => Ok(None),
    }
}

/// What the member of a number is, started from an image, if there is one.
fn start_member(
    alloc: Global,
    members: &[Option<MemberSets>],
    memories: &[SetNumbers],
    pid: u32,
    numbers: &[u32],
    layout: Layout,
) -> Result<Option<NewMember>, NoMemory>
    requires held { IfSome (nth members.now pid)
        (λ (old : MemberSets). HoldsKeys old memories.now) }
    ensures { IfOk result (StartsEntry memories.now layout.load
        numbers.now layout.block layout.block_len (nth members.now pid)) }
{
    let place = pid as usize;
    if place < members.len() {
        start_entry(alloc, &members[place], memories, numbers, layout)
    } else {
        Ok(None)
    }
}

impl Group {
    /// A live member starts anew from an image whose file has so many bytes. After an error nothing
    /// is known of what is kept.
    pub fn starts(
        &mut self,
        pid: u32,
        event: u64,
        len: usize,
        layout: Layout,
    ) -> Result<(), NoMemory>
        requires sound { IsSoundGroup self.old }
        ensures { OnOk result (StepsFrom
            (λ (holds : Holds). Starts pid event layout.load len
            (place_of holds layout.block layout.block_len) layout.block_len)
            pid event len self.old self.new) }
    {
        starts_show();
        let alloc = *self.members.allocator();
        let numbers = received(alloc, &mut self.sets, event, len)?;
        let fresh = start_member(
            alloc,
            self.members.as_slice(),
            self.memories.as_slice(),
            pid,
            numbers.as_slice(),
            layout,
        )?;
        may_seat(&mut self.members, &mut self.memories, pid, event, fresh)?;
        self.heard.hear(event, numbers)
    }
}
