// Ends of members.
ghost use Rattle.std.specs.Prelude.{◌≡◌, length, IfOk, OnOk};
ghost use Rattle.acts_model.specs.Transfers.{Dies, Exits, Faults};
ghost use Rattle.parts_model.specs.Numbered.{nth};
ghost use Rattle.taint_group.specs.Groups.{IsSoundGroup, StepsBy};
ghost use Rattle.taint_group.specs.Turns.{ChangesIn, Ends, HasStatus};

use crate::group::{Group, hear_empty};
use arn_base::NoMemory;
use std::alloc::Global;
use taint_events::{empty, status};
use taint_members::MemberSets;
use taint_state::{dies_show, exits_show, faults_show};

/// The bytes of an exit of a member that may be there.
fn entry_numbers(
    alloc: Global,
    entry: &Option<MemberSets>,
    len: usize,
) -> Result<Vec<u32>, NoMemory>
    ensures { IfOk result (λ numbers. HasStatus entry.now len numbers.items) }
{
    match entry {
        Some(member) => status(alloc, member, len),
        None => empty(alloc, len),
    }
}

/// The bytes of an exit of the member of a number, if there is one.
fn exit_numbers(
    alloc: Global,
    members: &[Option<MemberSets>],
    pid: u32,
    len: usize,
) -> Result<Vec<u32>, NoMemory>
    ensures { IfOk result (λ numbers. HasStatus (nth members.now pid) len numbers.items) }
{
    let place = pid as usize;
    if place < members.len() {
        entry_numbers(alloc, &members[place], len)
    } else {
        empty(alloc, len)
    }
}

/// The member of a number lives no more, if there is one.
fn end_member(members: &mut [Option<MemberSets>], pid: u32)
    ensures ends { ChangesIn Ends pid members.old members.new }
    ensures count { length members.new ≡ length members.old }
{
    let place = pid as usize;
    if place < members.len() {
        members[place] = None;
    }
}

impl Group {
    /// A live member ends by a call. After an error nothing is known of what is kept.
    pub fn exits(&mut self, pid: u32, event: u64, len: usize) -> Result<(), NoMemory>
        requires sound { IsSoundGroup self.old }
        ensures { OnOk result (StepsBy (Exits pid) pid event len self.old self.new) }
    {
        exits_show();
        let alloc = *self.members.allocator();
        let numbers = exit_numbers(alloc, self.members.as_slice(), pid, len)?;
        end_member(self.members.as_mut_slice(), pid);
        self.heard.hear(event, numbers)
    }

    /// A live member ends by a fault. After an error nothing is known of what is kept.
    pub fn faults(&mut self, pid: u32, event: u64, len: usize) -> Result<(), NoMemory>
        requires sound { IsSoundGroup self.old }
        ensures { OnOk result (StepsBy (Faults pid) pid event len self.old self.new) }
    {
        faults_show();
        let alloc = *self.members.allocator();
        end_member(self.members.as_mut_slice(), pid);
        hear_empty(alloc, &mut self.heard, event, len)
    }

    /// A live member ends by a signal. After an error nothing is known of what is kept.
    pub fn dies(&mut self, pid: u32, event: u64, len: usize) -> Result<(), NoMemory>
        requires sound { IsSoundGroup self.old }
        ensures { OnOk result (StepsBy (Dies pid) pid event len self.old self.new) }
    {
        dies_show();
        let alloc = *self.members.allocator();
        end_member(self.members.as_mut_slice(), pid);
        hear_empty(alloc, &mut self.heard, event, len)
    }
}
