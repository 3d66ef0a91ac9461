// Events of a group.
ghost use Rattle.std.specs.Prelude.{◌≡◌, IfOk, OnOk, is_some};
ghost use Rattle.parts_model.specs.Numbered.{nth};
ghost use Rattle.acts_model.specs.Acts.{Forks};
ghost use Rattle.acts_model.specs.Deeds.{deed_as};
ghost use Rattle.taint_group.specs.Does.{DoesStep, may_free_memory};
ghost use Rattle.taint_state.specs.Goes.{TakesEvent};
ghost use Rattle.taint_group.specs.Groups.{IsSoundGroup, kept_of};
ghost use Rattle.taint_state.specs.Kept.{shown};
ghost use Rattle.taint_state.specs.Lens.{HasLen};

use crate::group::Group;
use crate::memories::release;
use acts_model::{Deed, deed_of, event_len, process_of};
use arn_base::{Cpu, NoMemory, Record};
use taint_state::{Layout, acts_have_len};

/// The number of a process. 2^32 or more count as want of memory.
fn narrow_pid(number: u64) -> Result<u32, NoMemory>
    ensures { IfOk result (λ pid. pid ≡ number) }
{
    if number < 1 << 32 {
        Ok(number as u32)
    } else {
        Err(NoMemory)
    }
}

/// Whether a process may let go of a memory: where it starts anew, gets a segment or ends.
fn lets_go(deed: &Deed<'_>) -> bool
    ensures { result ≡ may_free_memory (deed_as deed.now) }
{
    match *deed {
        Deed::Starts { .. } | Deed::Shares => true,
        Deed::Exits | Deed::Faults { .. } | Deed::Dies { .. } => true,
        _ => false,
    }
}

impl Group {
    /// Whether a member of this number lives.
    fn is_live(&self, pid: u32) -> bool
        ensures { result ≡ is_some (nth self.now.members.items pid) }
    {
        matches!(self.members.get(pid as usize), Some(Some(_)))
    }

    /// A live member makes a child in the group. A number of a process that is 2^32 or more counts
    /// as want of memory.
    fn joins(&mut self, pid: u32, child: u64, event: u64, len: usize) -> Result<(), NoMemory>
        requires sound { IsSoundGroup self.old }
        ensures { OnOk result (DoesStep (Forks child) pid event len self.old self.new) }
    {
        let child = narrow_pid(child)?;
        self.forks(pid, child, event, len)
    }

    /// A live member does this at an event of so many bytes.
    fn step(&mut self, pid: u32, event: u64, deed: &Deed<'_>, len: usize) -> Result<(), NoMemory>
        requires sound { IsSoundGroup self.old }
        requires len { HasLen len (deed_as deed.now) }
        ensures { OnOk result
            (DoesStep (deed_as deed.now) pid event len self.old self.new) }
    {
        match *deed {
            Deed::Returns { .. } => self.returns(pid, event, len),
            Deed::Receives { at, .. } => self.receives(pid, event, at, len),
            Deed::Gives { at, .. } => self.gives(pid, event, at, len),
            Deed::Starts {
                file,
                block,
                block_len,
            } => self.starts(pid, event, len, Layout::new(file, block, block_len)),
            Deed::Forks { child } => self.joins(pid, child, event, len),
            Deed::Founds { .. } => self.founds(pid, event, len),
            Deed::Shares => self.shares(pid, event, len),
            Deed::Leaves => self.leaves(pid, event, len),
            Deed::Delivers { cut, .. } => self.delivers(pid, cut, event, len),
            Deed::Exits => self.exits(pid, event, len),
            Deed::Faults { .. } => self.faults(pid, event, len),
            Deed::Dies { .. } => self.dies(pid, event, len),
        }
    }

    /// An event happens, with the registers before it. One of no live member changes nothing. Where
    /// there are many sets, those that nobody names go first. Memories that no member holds any
    /// more are let go of. After an error nothing is known of what is kept.
    pub fn happened(&mut self, event: u64, entry: &Record, before: &Cpu) -> Result<(), NoMemory>
        requires sound { IsSoundGroup self.old }
        ensures takes { OnOk result (TakesEvent (shown (kept_of self.old))
            event entry.now before.now (shown (kept_of self.new))) }
        ensures sound { OnOk result (IsSoundGroup self.new) }
    {
        self.tidy()?;
        self.hears(event, entry, before)
    }

    /// Lets go of the memories that no member holds, if what a member did may have left one so.
    /// After an error nothing is known of what is kept.
    fn release(&mut self, deed: &Deed<'_>) -> Result<(), NoMemory>
        requires sound { IsSoundGroup self.old }
        ensures same { OnOk result (shown (kept_of self.new) ≡ shown (kept_of self.old)) }
        ensures sound { OnOk result (IsSoundGroup self.new) }
    {
        if !lets_go(deed) {
            return Ok(());
        }
        let alloc = *self.members.allocator();
        release(alloc, self.members.as_slice(), &mut self.memories)
    }

    /// The same, where all sets are kept: the member does what the record tells, and then memories
    /// that no member holds any more are let go of.
    fn hears(&mut self, event: u64, entry: &Record, before: &Cpu) -> Result<(), NoMemory>
        requires sound { IsSoundGroup self.old }
        ensures takes { OnOk result (TakesEvent (shown (kept_of self.old))
            event entry.now before.now (shown (kept_of self.new))) }
        ensures sound { OnOk result (IsSoundGroup self.new) }
    {
        acts_have_len();
        let Some(pid) = process_of(entry) else {
            return Ok(());
        };
        let Some(deed) = deed_of(before, entry) else {
            return Ok(());
        };
        if !self.is_live(pid) {
            return Ok(());
        }
        self.step(pid, event, &deed, event_len(entry) as usize)?;
        self.release(&deed)
    }
}
