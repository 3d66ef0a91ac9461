// Deliveries to handlers, and returns from them.
ghost use Rattle.std.specs.Prelude.{◌≡◌, length, OnOk};
ghost use Rattle.acts_model.specs.Transfers.{Delivers, Leaves};
ghost use Rattle.taint_group.specs.Groups.{IsSoundGroup, StepsBy};
ghost use Rattle.taint_group.specs.Turns.{ChangesEntry, ChangesIn, DeliversAs, LeavesAs, LivesAs};

use crate::group::{Group, hear_empty};
use arn_base::NoMemory;
use taint_members::MemberSets;
use taint_state::{delivers_show, leaves_show};

/// A handler of a member that may be there begins.
fn deliver_entry(entry: &mut Option<MemberSets>, cut: bool)
    ensures { ChangesEntry (LivesAs (DeliversAs cut)) entry.old entry.new }
{
    if let Some(member) = entry {
        member.delivers(cut);
    }
}

/// A handler of the member of a number begins, if there is one.
fn deliver_member(members: &mut [Option<MemberSets>], pid: u32, cut: bool)
    ensures delivers { ChangesIn (LivesAs (DeliversAs cut)) pid members.old members.new }
    ensures count { length members.new ≡ length members.old }
{
    let place = pid as usize;
    if place < members.len() {
        deliver_entry(&mut members[place], cut);
    }
}

/// A handler of a member that may be there ends.
fn leave_entry(entry: &mut Option<MemberSets>)
    ensures { ChangesEntry (LivesAs LeavesAs) entry.old entry.new }
{
    if let Some(member) = entry {
        member.leaves();
    }
}

/// A handler of the member of a number ends, if there is one.
fn leave_member(members: &mut [Option<MemberSets>], pid: u32)
    ensures leaves { ChangesIn (LivesAs LeavesAs) pid members.old members.new }
    ensures count { length members.new ≡ length members.old }
{
    let place = pid as usize;
    if place < members.len() {
        leave_entry(&mut members[place]);
    }
}

impl Group {
    /// A handler of a live member begins, which may have cut off a call. After an error nothing is
    /// known of what is kept.
    pub fn delivers(&mut self, pid: u32, cut: bool, event: u64, len: usize) -> Result<(), NoMemory>
        requires sound { IsSoundGroup self.old }
        ensures { OnOk result (StepsBy (Delivers pid cut) pid event len self.old self.new) }
    {
        delivers_show();
        let alloc = *self.members.allocator();
        deliver_member(self.members.as_mut_slice(), pid, cut);
        hear_empty(alloc, &mut self.heard, event, len)
    }

    /// A handler of a live member ends. After an error nothing is known of what is kept.
    pub fn leaves(&mut self, pid: u32, event: u64, len: usize) -> Result<(), NoMemory>
        requires sound { IsSoundGroup self.old }
        ensures { OnOk result (StepsBy (Leaves pid) pid event len self.old self.new) }
    {
        leaves_show();
        let alloc = *self.members.allocator();
        leave_member(self.members.as_mut_slice(), pid);
        hear_empty(alloc, &mut self.heard, event, len)
    }
}
