// Bytes that come to a member.
ghost use Rattle.std.specs.Prelude.{◌≡◌, length, IfSome, OnOk};
ghost use Rattle.acts_model.specs.Transfers.{Holds, Receives, place_of};
ghost use Rattle.parts_model.specs.Numbered.{nth};
ghost use Rattle.taint_members.specs.Access.{HoldsKeys};
ghost use Rattle.taint_group.specs.Groups.{IsSoundGroup};
ghost use Rattle.taint_group.specs.Moves.{ReceivesEntry, ReceivesIn};
ghost use Rattle.taint_group.specs.Turns.{StepsFrom};

use crate::group::Group;
use arn_base::NoMemory;
use taint_events::{received, receives};
use taint_members::MemberSets;
use taint_pages::SetNumbers;
use taint_state::receives_show;

/// Bytes of these sets come to a member that may be there.
fn receive_entry(
    entry: &mut Option<MemberSets>,
    memories: &mut [SetNumbers],
    at: u64,
    numbers: &[u32],
) -> Result<(), NoMemory>
    requires held { IfSome entry.old (λ member. HoldsKeys member memories.old) }
    ensures receives { OnOk result
        (ReceivesEntry at numbers.now entry.old entry.new memories.old memories.new) }
    ensures keys { length memories.new ≡ length memories.old }
{
    match entry {
        Some(member) => receives(member, memories, at, numbers),
        None => Ok(()),
    }
}

/// Bytes of these sets come to the member of a number, if there is one.
fn receive_member(
    members: &mut [Option<MemberSets>],
    memories: &mut [SetNumbers],
    pid: u32,
    at: u64,
    numbers: &[u32],
) -> Result<(), NoMemory>
    requires held { IfSome (nth members.old pid) (λ member. HoldsKeys member memories.old) }
    ensures receives { OnOk result (ReceivesIn pid at numbers.now members.old members.new
        memories.old memories.new) }
    ensures count { length members.new ≡ length members.old }
    ensures keys { length memories.new ≡ length memories.old }
{
    let place = pid as usize;
    if place < members.len() {
        receive_entry(&mut members[place], memories, at, numbers)
    } else {
        Ok(())
    }
}

impl Group {
    /// A live member receives bytes at an address, as many as the event has. After an error nothing
    /// is known of what is kept.
    pub fn receives(&mut self, pid: u32, event: u64, at: u64, len: usize) -> Result<(), NoMemory>
        requires sound { IsSoundGroup self.old }
        ensures { OnOk result (StepsFrom
            (λ (holds : Holds). Receives pid (place_of holds at len) len)
            pid event len self.old self.new) }
    {
        receives_show();
        let numbers = received(*self.members.allocator(), &mut self.sets, event, len)?;
        receive_member(
            self.members.as_mut_slice(),
            self.memories.as_mut_slice(),
            pid,
            at,
            &numbers,
        )?;
        self.heard.hear(event, numbers)
    }
}
