// A child that joins the group.
ghost use Rattle.std.specs.Prelude.{◌≡◌, None, IfOk, IfSome, OnOk};
ghost use Rattle.acts_model.specs.Transfers.{Forks, Holds};
ghost use Rattle.parts_model.specs.Numbered.{nth};
ghost use Rattle.taint_members.specs.Access.{HoldsKeys};
ghost use Rattle.taint_members.specs.declared.member.MemberSets.{MemberSets};
ghost use Rattle.taint_group.specs.Groups.{IsSoundGroup};
ghost use Rattle.taint_group.specs.Moves.{HasChild};
ghost use Rattle.taint_group.specs.Turns.{StepsFrom};

use crate::group::{Group, hear_empty, return_member};
use crate::memories::may_seat;
use arn_base::NoMemory;
use taint_members::{MemberSets, NewMember};
use taint_pages::SetNumbers;
use taint_state::forks_show;

/// The child of a member that may be there.
fn entry_child(
    entry: &Option<MemberSets>,
    memories: &mut [SetNumbers],
) -> Result<Option<NewMember>, NoMemory>
    requires held { IfSome entry.now (λ (m : MemberSets). HoldsKeys m memories.old) }
    ensures child { IfOk result (HasChild memories.old entry.now) }
    ensures none { IfOk result (λ child. entry.now ≡ None → child ≡ None) }
    ensures same { memories.new ≡ memories.old }
{
    match entry {
        Some(member) => Ok(Some(member.child(memories)?)),
        None => Ok(None),
    }
}

/// The child of the member of a number, if there is one.
pub fn child_of(
    members: &[Option<MemberSets>],
    memories: &mut [SetNumbers],
    pid: u32,
) -> Result<Option<NewMember>, NoMemory>
    requires held { IfSome (nth members.now pid) (λ (m : MemberSets). HoldsKeys m memories.old) }
    ensures child { IfOk result (HasChild memories.old (nth members.now pid)) }
    ensures none { IfOk result (λ child. nth members.now pid ≡ None → child ≡ None) }
    ensures same { memories.new ≡ memories.old }
{
    let place = pid as usize;
    if place < members.len() {
        entry_child(&members[place], memories)
    } else {
        Ok(None)
    }
}

impl Group {
    /// A live member makes a child in the group, in the place of a member that may be there. After
    /// an error nothing is known of what is kept.
    pub fn forks(&mut self, pid: u32, child: u32, event: u64, len: usize) -> Result<(), NoMemory>
        requires sound { IsSoundGroup self.old }
        ensures { OnOk result (StepsFrom (λ (holds : Holds). Forks pid child holds.window event)
            pid event len self.old self.new) }
    {
        forks_show();
        let alloc = *self.members.allocator();
        let kid = child_of(self.members.as_slice(), self.memories.as_mut_slice(), pid)?;
        return_member(self.members.as_mut_slice(), pid);
        may_seat(&mut self.members, &mut self.memories, child, event, kid)?;
        hear_empty(alloc, &mut self.heard, event, len)
    }
}
