// Forks that start a group.
ghost use Rattle.std.specs.Prelude.{◌≡◌, ℕ, IfOk, IfSome, OnOk};
ghost use Rattle.acts_model.specs.Transfers.{Founds, Holds};
ghost use Rattle.parts_model.specs.Numbered.{nth};
ghost use Rattle.taint_members.specs.Access.{HoldsKeys};
ghost use Rattle.taint_members.specs.declared.member.MemberSets.{MemberSets};
ghost use Rattle.taint_group.specs.Groups.{IsSoundGroup};
ghost use Rattle.taint_group.specs.Turns.{StartsChild, StepsFrom};

use crate::forks::child_of;
use crate::group::{Group, return_member};
use arn_base::NoMemory;
use std::alloc::Global;
use taint_events::empty;
use taint_members::{MemberSets, NewMember};
use taint_pages::SetNumbers;
use taint_state::{ChildStart, founds_show};

/// What a child began with.
fn start_of(child: NewMember) -> ChildStart
    ensures registers { result.registers ≡ child.registers }
    ensures slot { result.slot ≡ child.slot }
    ensures window { result.window ≡ child.window }
{
    ChildStart {
        registers: child.registers,
        slot: child.slot,
        window: child.window,
    }
}

/// What the child of the member of a number begins with, if there is one.
fn child_start(
    alloc: Global,
    members: &[Option<MemberSets>],
    memories: &mut [SetNumbers],
    pid: u32,
) -> Result<Option<Box<ChildStart>>, NoMemory>
    requires held { IfSome (nth members.now pid) (λ (m : MemberSets). HoldsKeys m memories.old) }
    ensures start { IfOk result (StartsChild memories.old (nth members.now pid)) }
    ensures same { memories.new ≡ memories.old }
{
    match child_of(members, memories, pid)? {
        Some(child) => Ok(Some(Box::new(alloc, start_of(child))?)),
        None => Ok(None),
    }
}

impl Group {
    /// A live member makes a child that starts a group of its own. After an error nothing is known
    /// of what is kept.
    pub fn founds(&mut self, pid: u32, event: u64, len: usize) -> Result<(), NoMemory>
        requires sound { IsSoundGroup self.old }
        ensures { OnOk result ((child : ℕ) →
            StepsFrom (λ (holds : Holds). Founds pid child holds.window event)
            pid event len self.old self.new) }
    {
        founds_show();
        let alloc = *self.members.allocator();
        let numbers = empty(alloc, len)?;
        let start = child_start(
            alloc,
            self.members.as_slice(),
            self.memories.as_mut_slice(),
            pid,
        )?;
        return_member(self.members.as_mut_slice(), pid);
        self.heard.hear_child(event, numbers, start)
    }
}
