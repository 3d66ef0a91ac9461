// Bytes that members give.
ghost use Rattle.std.specs.Prelude.{IfOk, IfSome, OnOk};
ghost use Rattle.acts_model.specs.Transfers.{Gives, Holds, place_of};
ghost use Rattle.parts_model.specs.Numbered.{nth};
ghost use Rattle.taint_members.specs.Access.{HoldsKeys};
ghost use Rattle.taint_group.specs.Groups.{IsSoundGroup};
ghost use Rattle.taint_group.specs.Turns.{HasGiven, StepsFrom};

use crate::group::{Group, return_member};
use arn_base::NoMemory;
use std::alloc::Global;
use taint_events::{empty, given};
use taint_members::MemberSets;
use taint_pages::SetNumbers;
use taint_state::gives_show;

/// The bytes given by a member that may be there.
fn entry_given(
    alloc: Global,
    entry: &Option<MemberSets>,
    memories: &[SetNumbers],
    at: u64,
    len: usize,
) -> Result<Vec<u32>, NoMemory>
    requires held { IfSome entry.now (λ member. HoldsKeys member memories.now) }
    ensures { IfOk result (λ numbers. HasGiven entry.now memories.now at len numbers.items) }
{
    match entry {
        Some(member) => given(alloc, member, memories, at, len),
        None => empty(alloc, len),
    }
}

/// The bytes given by the member of a number, if there is one.
fn given_numbers(
    alloc: Global,
    members: &[Option<MemberSets>],
    pid: u32,
    memories: &[SetNumbers],
    at: u64,
    len: usize,
) -> Result<Vec<u32>, NoMemory>
    requires held { IfSome (nth members.now pid) (λ member. HoldsKeys member memories.now) }
    ensures { IfOk result (λ numbers.
        HasGiven (nth members.now pid) memories.now at len numbers.items) }
{
    let place = pid as usize;
    if place < members.len() {
        entry_given(alloc, &members[place], memories, at, len)
    } else {
        empty(alloc, len)
    }
}

impl Group {
    /// A live member gives bytes of its memory. 2^31 bytes or more count as want of memory. After
    /// an error nothing is known of what is kept.
    pub fn gives(&mut self, pid: u32, event: u64, at: u64, len: usize) -> Result<(), NoMemory>
        requires sound { IsSoundGroup self.old }
        ensures { OnOk result (StepsFrom
            (λ (holds : Holds). Gives pid (place_of holds at len) len)
            pid event len self.old self.new) }
    {
        gives_show();
        let numbers = given_numbers(
            *self.members.allocator(),
            self.members.as_slice(),
            pid,
            self.memories.as_slice(),
            at,
            len,
        )?;
        return_member(self.members.as_mut_slice(), pid);
        self.heard.hear(event, numbers)
    }
}
