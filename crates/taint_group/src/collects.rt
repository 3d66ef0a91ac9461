// Sets that nobody names go.
ghost use Rattle.std.specs.Prelude.{◌≡◌, ℕ, OnOk};
ghost use Rattle.parts_model.specs.Numbered.{nth};
ghost use Rattle.taint_members.specs.Carried.{CarriesMember};
ghost use Rattle.taint_spans.specs.Carried.{CarriesOn};
ghost use Rattle.taint_group.specs.Carried.{CarriesMemories};
ghost use Rattle.taint_group.specs.Groups.{IsSoundGroup, kept_of};
ghost use Rattle.taint_state.specs.Carried.{CarriesEvents, IfBoth};
ghost use Rattle.taint_state.specs.Heard.{heard_in};
ghost use Rattle.taint_state.specs.Kept.{shown};

use crate::group::{Group, MEMO};
use crate::places::put;
use arn_base::NoMemory;
use std::mem;
use taint_members::MemberSets;
use taint_pages::SetNumbers;
use taint_spans::{Carrying, SpanSets};
use taint_state::{HeardEvents, carries_show};

/// Gives each byte of a member that may be there the number that its set has from now on.
fn carry_entry(carrying: &mut Carrying, entry: &mut Option<MemberSets>) -> Result<(), NoMemory>
    ensures carried { OnOk result (IfBoth (CarriesMember carrying.new) entry.old entry.new) }
    ensures on { CarriesOn carrying.old carrying.new }
{
    match entry {
        Some(member) => member.carry(carrying),
        None => Ok(()),
    }
}

/// The same of each member.
fn carry_members(
    carrying: &mut Carrying,
    members: &mut Vec<Option<MemberSets>>,
) -> Result<(), NoMemory>
    ensures carried { OnOk result ((p : ℕ) →
        IfBoth (CarriesMember carrying.new) (nth members.old.items p) (nth members.new.items p)) }
    ensures on { CarriesOn carrying.old carrying.new }
{
    for place in 0..members.len() {
        carry_entry(carrying, &mut members[place])?;
    }
    Ok(())
}

/// The same of each memory.
fn carry_memories(carrying: &mut Carrying, memories: &mut Vec<SetNumbers>) -> Result<(), NoMemory>
    ensures carried { OnOk result
        (CarriesMemories carrying.new memories.old.items memories.new.items) }
    ensures on { CarriesOn carrying.old carrying.new }
{
    for key in 0..memories.len() {
        memories[key].carry(carrying)?;
    }
    Ok(())
}

/// The same of all that is kept.
fn carry_all(
    carrying: &mut Carrying,
    members: &mut Vec<Option<MemberSets>>,
    memories: &mut Vec<SetNumbers>,
    heard: &mut HeardEvents,
) -> Result<(), NoMemory>
    ensures members { OnOk result ((p : ℕ) →
        IfBoth (CarriesMember carrying.new) (nth members.old.items p) (nth members.new.items p)) }
    ensures memories { OnOk result
        (CarriesMemories carrying.new memories.old.items memories.new.items) }
    ensures events { OnOk result
        (CarriesEvents carrying.new (heard_in heard.old) (heard_in heard.new)) }
    ensures on { OnOk result (CarriesOn carrying.old carrying.new) }
{
    carry_members(carrying, members)?;
    carry_memories(carrying, memories)?;
    heard.carry(carrying)
}

impl Group {
    /// Carries the sets that are named over into fresh tables, and lets go of all others. After an
    /// error nothing is known of what is kept.
    #[inline(never)]
    fn collect(&mut self) -> Result<(), NoMemory>
        requires sound { IsSoundGroup self.old }
        ensures same { OnOk result (shown (kept_of self.new) ≡ shown (kept_of self.old)) }
        ensures sound { OnOk result (IsSoundGroup self.new) }
    {
        carries_show();
        let alloc = *self.members.allocator();
        let empty = SpanSets::new(alloc, 0)?;
        let sets = mem::replace(&mut self.sets, empty);
        let mut carrying = Carrying::new(alloc, sets, MEMO)?;
        carrying.keeps();
        let all = carry_all(
            &mut carrying,
            &mut self.members,
            &mut self.memories,
            &mut self.heard,
        );
        put(&mut self.sets, carrying.done());
        all
    }

    /// Lets go of the sets that nobody names, where there are many. After an error nothing is known
    /// of what is kept.
    #[inline(always)]
    pub(crate) fn tidy(&mut self) -> Result<(), NoMemory>
        requires sound { IsSoundGroup self.old }
        ensures same { OnOk result (shown (kept_of self.new) ≡ shown (kept_of self.old)) }
        ensures sound { OnOk result (IsSoundGroup self.new) }
    {
        if self.sets.are_many() {
            self.collect()
        } else {
            Ok(())
        }
    }
}
