// What is kept of a group.
ghost use Rattle.std.specs.Prelude.{◌≡◌, ℕ, length, IfOk, List, OnOk};
ghost use Rattle.acts_model.specs.Transfers.{Returns};
ghost use Rattle.taint_events.specs.Bytes.{AreEmpty};
ghost use Rattle.taint_state.specs.Events.{Hears, plain_heard};
ghost use Rattle.taint_state.specs.Heard.{heard_in};
ghost use Rattle.taint_state.specs.Goes.{TakesInstr, nothing_tracked};
ghost use Rattle.taint_group.specs.Groups.{IsSoundGroup, ReturnsEntry, ReturnsIn, StepsBy, kept_of};
ghost use Rattle.taint_state.specs.Kept.{shown};

use arn_base::{Cpu, NoMemory};
use rv64_isa::Instr;
use rv64_model::Linkage;
use std::alloc::Global;
use taint_events::empty;
use taint_members::MemberSets;
use taint_pages::SetNumbers;
use taint_spans::SpanSets;
use taint_state::{HeardEvents, returns_show, runs_keep, runs_show};
use taint_steps::run_member;

/// How many unions are remembered at most.
pub(crate) const MEMO: u32 = 65_536;

/// What is kept of a group: of its members by number, of memories by key, and of its events in
/// order.
#[derive(Drop)]
pub struct Group {
    pub linkage: Linkage,
    pub sets: SpanSets,
    pub members: Vec<Option<MemberSets>>,
    pub memories: Vec<SetNumbers>,
    pub heard: HeardEvents,
}

/// An event is heard none of whose bytes has a set.
pub fn hear_empty(
    alloc: Global,
    heard: &mut HeardEvents,
    event: u64,
    len: usize,
) -> Result<(), NoMemory>
    ensures { OnOk result ((numbers : List ℕ) × AreEmpty len numbers
        × Hears (plain_heard event numbers) (heard_in heard.old) (heard_in heard.new)) }
{
    let numbers = empty(alloc, len)?;
    heard.hear(event, numbers)
}

/// A call returns to a member that may be there.
fn return_entry(entry: &mut Option<MemberSets>)
    ensures { ReturnsEntry entry.old entry.new }
{
    if let Some(member) = entry {
        member.returns();
    }
}

/// A call returns to the member of a number, if there is one.
pub fn return_member(members: &mut [Option<MemberSets>], pid: u32)
    ensures returns { ReturnsIn pid members.old members.new }
    ensures count { length members.new ≡ length members.old }
{
    let place = pid as usize;
    if place < members.len() {
        return_entry(&mut members[place]);
    }
}

impl Group {
    /// Nothing is kept.
    pub fn new(alloc: Global, linkage: Linkage) -> Result<Group, NoMemory>
        ensures sound { IfOk result IsSoundGroup }
        ensures nothing { IfOk result (λ group. shown (kept_of group) ≡ nothing_tracked linkage) }
    {
        Ok(Group {
            linkage,
            sets: SpanSets::new(alloc, MEMO)?,
            members: Vec::new(alloc),
            memories: Vec::new(alloc),
            heard: HeardEvents::new(alloc),
        })
    }

    /// A member runs an instruction that the next one follows. Where there are many sets, those that
    /// nobody names go first. After an error nothing is known of what is kept.
    #[inline(always)]
    pub fn instruction(&mut self, pid: u32, instr: &Instr, before: &Cpu) -> Result<(), NoMemory>
        requires sound { IsSoundGroup self.old }
        ensures takes { OnOk result
            (TakesInstr (shown (kept_of self.old)) pid instr.now before.now
            (shown (kept_of self.new))) }
        ensures sound { OnOk result (IsSoundGroup self.new) }
    {
        self.tidy()?;
        self.run(pid, instr, before)
    }

    /// The same, with the sets that there are.
    #[inline(always)]
    fn run(&mut self, pid: u32, instr: &Instr, before: &Cpu) -> Result<(), NoMemory>
        requires sound { IsSoundGroup self.old }
        ensures takes { OnOk result
            (TakesInstr (shown (kept_of self.old)) pid instr.now before.now
            (shown (kept_of self.new))) }
        ensures sound { OnOk result (IsSoundGroup self.new) }
    {
        runs_show();
        runs_keep();
        run_member(
            &mut self.sets,
            self.linkage,
            instr,
            before,
            pid,
            self.members.as_mut_slice(),
            self.memories.as_mut_slice(),
        )
    }

    /// A call of a live member returns that moves no bytes. After an error nothing is known of what
    /// is kept.
    pub fn returns(&mut self, pid: u32, event: u64, len: usize) -> Result<(), NoMemory>
        requires sound { IsSoundGroup self.old }
        ensures { OnOk result (StepsBy (Returns pid) pid event len self.old self.new) }
    {
        returns_show();
        let alloc = *self.members.allocator();
        return_member(self.members.as_mut_slice(), pid);
        hear_empty(alloc, &mut self.heard, event, len)
    }
}
