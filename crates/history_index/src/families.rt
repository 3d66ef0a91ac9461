// What is kept of processes and groups.
ghost use Rattle.std.specs.Prelude.{◌≡◌, ◌≢◌, ◌+◌, ◌<◌, ◌≤◌, ◌^◌, ℕ, length, Some, OnOk, OnErr, IfOk, IfSome, IfNone};
ghost use Rattle.replay_groups.specs.Groups as groups;
ghost use Rattle.history_index.specs.Families as families;
ghost use Rattle.parts_model.specs.Numbered.{nth};
ghost use Rattle.acts_model.specs.Records.{life_told};
ghost use Rattle.acts_model.specs.Seen.{child_seen};
ghost use Rattle.history_index.specs.After as after;
ghost use Rattle.history_index.specs.Runs.{no_run};

use crate::runs::Run;
use crate::{SliceAt, told};
use acts_model::{ChildTold, child_called};
use arn_base::{NoMemory, Record};
use replay_groups::Groups;
use std::alloc::Global;
use std::marker::Model;

/// The group of each process and whether it lives, the groups, and what each has run.
#[derive(Drop)]
pub struct Families {
    groups: Groups,
    founders: Vec<u32>,
    lives: Vec<bool>,
    runs: Vec<Run>,
    foundings: Vec<Option<u64>>,
}

impl Model for Families {
    ghost use Rattle.history_index.specs.Families.{Families};

    ghost Value = { Families };

    ghost use Rattle.history_index.specs.Bounds.{AreAligned};

    ghost view = { λ s. record {
      groups = s.groups.groups;
      lives = s.lives.items;
      runs = s.runs.items;
      foundings = s.foundings.items;
      founders = s.founders.items;
    } };

    ghost invariant = { λ s. AreAligned s.groups.groups s.lives.items };
}

/// The run of a group.
fn run_of(runs: &[Run], group: u32) -> Option<&Run>
    ensures some { IfSome result (λ run. run.now ≡ families.run_in runs.now group) }
    ensures none { IfNone result (families.run_in runs.now group ≡ no_run) }
{
    if group as usize >= runs.len() {
        return None;
    }
    Some(&runs[group as usize])
}

/// Adds a slice to the run of a group.
fn add_to(runs: &mut [Run], group: u32, slice: SliceAt) -> Result<(), NoMemory>
    requires few { (families.run_in runs.old group).count + slice.ran < 2 ^ 64 }
    ensures ok { OnOk result (runs.new ≡ families.runs_after runs.old (Some group) slice) }
    ensures err { OnErr result (runs.new ≡ runs.old) }
{
    if group as usize >= runs.len() {
        return Ok(());
    }
    runs[group as usize].add(slice)
}

impl Families {
    pub fn new(alloc: Global) -> Result<Families, NoMemory>
        ensures { IfOk result (λ made. made ≡ families.no_families) }
    {
        let mut lives = Vec::new(alloc);
        lives.push(false)?;
        let mut runs = Vec::new(alloc);
        runs.push(Run::new(alloc))?;
        let mut foundings = Vec::new(alloc);
        foundings.push(None)?;
        Ok(Families {
            groups: Groups::new(alloc),
            founders: Vec::new(alloc),
            lives,
            runs,
            foundings,
        })
    }

    pub fn group_of(&self, pid: u32) -> Option<u32>
        ensures group { result ≡ groups.group_at self.now.groups pid }
        ensures started { IfSome result (groups.IsStarted self.now.groups) }
    {
        self.groups.of(pid)
    }

    pub fn members(&self, group: u32) -> &[u32]
        ensures { result.now ≡ groups.members_of self.now.groups group }
    {
        self.groups.members(group)
    }

    pub fn founders(&self) -> &[u32]
        ensures { result.now ≡ self.now.founders }
    {
        self.founders.as_slice()
    }

    /// The event by which a group begins.
    pub fn founding(&self, group: u32) -> Option<u64>
        ensures { result ≡ nth self.now.foundings group }
    {
        match self.foundings.get(group as usize) {
            Some(founding) => *founding,
            None => None,
        }
    }

    /// The number of the next process.
    pub fn next(&self) -> usize
        ensures { result ≡ length self.now.lives }
    {
        self.lives.len()
    }

    pub fn is_live(&self, pid: u32) -> bool
        ensures { result ≡ families.lives_in self.now.lives pid }
    {
        self.lives.get(pid as usize).copied().unwrap_or(false)
    }

    /// How many instructions a group has run.
    pub fn count(&self, group: u32) -> u64
        ensures { result ≡ (families.run_in self.now.runs group).count }
    {
        match run_of(&self.runs, group) {
            Some(run) => run.count(),
            None => 0,
        }
    }

    /// The slices of a group.
    pub fn slices(&self, group: u32) -> &[SliceAt]
        ensures { result.now ≡ (families.run_in self.now.runs group).slices }
    {
        match run_of(&self.runs, group) {
            Some(run) => run.slices(),
            None => &[],
        }
    }

    /// Adds a slice to the run of its process's group.
    pub fn add_slice(&mut self, slice: SliceAt) -> Result<(), NoMemory>
        requires few { (group : ℕ) → (families.run_in self.old.runs group).count + slice.ran < 2 ^ 64 }
        ensures ok { OnOk result (self.new ≡ record self.old {
          runs =
              families.runs_after self.old.runs (groups.group_at self.old.groups slice.pid) slice;
        }) }
        ensures err { OnErr result (self.new ≡ self.old) }
    {
        match self.groups.of(slice.pid) {
            Some(group) => add_to(&mut self.runs, group, slice),
            None => Ok(()),
        }
    }

    /// Ends a process.
    pub fn end(&mut self, pid: u32)
        ensures ended { self.new ≡ record self.old { lives = families.with_ended self.old.lives pid } }
        ensures as_many { length self.new.lives ≡ length self.old.lives }
    {
        if (pid as usize) < self.lives.len() {
            self.lives[pid as usize] = false;
        }
    }

    /// Adds a process that an event makes, which starts the group where that has its number.
    fn add(&mut self, event: u64, pid: u32, group: u32) -> Result<(), NoMemory>
        requires next { pid ≡ length self.old.lives }
        requires started { group ≢ pid → groups.IsStarted self.old.groups group }
        ensures ok { OnOk result (self.new ≡ families.with_process self.old event group) }
        ensures err { OnErr result (self.new ≡ self.old) }
        ensures grows { length self.new.lives ≤ length self.old.lives + 1 }
    {
        self.groups.reserve(group)?;
        self.founders.reserve(1)?;
        self.lives.reserve(1)?;
        self.runs.reserve(1)?;
        self.foundings.reserve(1)?;
        self.lives.push_reserved(true);
        self.runs.push_reserved(Run::new(*self.runs.allocator()));
        if group == pid {
            self.groups.start(pid)?;
            self.founders.push_reserved(pid);
            self.foundings.push_reserved(Some(event));
        } else {
            self.groups.join(pid, group)?;
            self.foundings.push_reserved(None);
        }
        Ok(())
    }

    /// The group of a child of a process.
    fn child_group(&self, pid: u32, child: ChildTold<'_>) -> Option<u32>
        requires few { length self.now.lives < 2 ^ 32 }
        ensures group { result ≡ after.child_group_in self.now pid (child_seen child.entry) }
        ensures started { IfSome result (λ group. group ≢ length self.now.lives
            → groups.IsStarted self.now.groups group) }
    {
        match child.start {
            Some(_) => Some(self.next() as u32),
            None => self.group_of(pid),
        }
    }

    /// The group of the process that a record makes, if it makes one.
    fn born(&self, entry: &Record) -> Option<u32>
        requires few { length self.now.lives < 2 ^ 32 }
        ensures group { result ≡ after.born_group self.now entry.now }
        ensures started { IfSome result (λ group. group ≢ length self.now.lives
            → groups.IsStarted self.now.groups group) }
    {
        match entry {
            Record::Boot { .. } => Some(self.next() as u32),
            Record::Call {
                pid,
                number,
                result,
                extra,
            } => self.child_group(*pid, child_called(*number, *result, extra)?),
            _ => None,
        }
    }

    /// Makes the process that the record of an event makes.
    fn bear(&mut self, event: u64, entry: &Record) -> Result<(), NoMemory>
        requires few { length self.old.lives < 2 ^ 32 }
        ensures ok { OnOk result (self.new ≡ after.with_born self.old event
            (after.born_group self.old entry.now)) }
        ensures err { OnErr result (self.new ≡ self.old) }
        ensures grows { length self.new.lives ≤ length self.old.lives + 1 }
    {
        match self.born(entry) {
            Some(group) => self.add(event, self.next() as u32, group),
            None => Ok(()),
        }
    }

    /// Takes what an event does to processes and groups.
    pub fn tell(&mut self, event: u64, entry: &Record) -> Result<(), NoMemory>
        requires few { length self.old.lives < 2 ^ 32 }
        ensures ok { OnOk result (self.new ≡ after.with_end (after.with_born self.old event
            (after.born_group self.old entry.now)) (after.ended_by (life_told entry.now))) }
        ensures err { OnErr result (self.new ≡ self.old) }
        ensures grows { length self.new.lives ≤ length self.old.lives + 1 }
    {
        self.bear(event, entry)?;
        if let Some(pid) = told::ended(entry) {
            self.end(pid);
        }
        Ok(())
    }
}
