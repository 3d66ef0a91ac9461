// The processes by their numbers.
ghost use Rattle.std.specs.Prelude.{◌≡◌, ◌-◌, ◌++◌, ◌∷◌, [], length, take, map, option_copied, option_and_then, IfSome, IsSome, Some, None, OnOk, OnErr, ◌<◌};
ghost use Rattle.guest_procs.specs.Answers.{ended_by};
ghost use Rattle.guest_procs.specs.Shown.{process_of, shown};
ghost use Rattle.guest_procs.specs.Sound.{is_any, present, holds, is_ended_child};
ghost use Rattle.guest_procs.specs.Status.{status_byte};
ghost use Rattle.parts_model.specs.Processes.{process, with_process, is_live, is_child_of, orphan, with_end, status_of, with_change, with_descriptor};

use crate::answers::Ended;
use crate::process::Process;
use crate::slots;
use arn_base::NoMemory;
use parts_model::limits::MOST_DESCRIPTORS;
use std::alloc::Global;
use std::marker::Model;

/// The processes that were made, the first being 1.
#[derive(Drop)]
pub struct Table {
    all: Vec<Option<Process>>,
}

impl Model for Table {
    ghost use Rattle.parts_model.specs.Processes.{Processes};

    ghost Value = { Processes };

    ghost use Rattle.guest_procs.specs.Shown.{shown_all};

    ghost view = { λ s. shown_all s.all.items };
}

impl Table {
    pub fn new(alloc: Global) -> Table
        ensures { result ≡ [] }
    {
        Table {
            all: Vec::new(alloc),
        }
    }

    /// How many processes were made.
    pub fn len(&self) -> usize
        ensures { result ≡ length self.now }
    {
        self.all.len()
    }

    pub fn push(&mut self, process: Process) -> Result<(), NoMemory>
        ensures ok { OnOk result (self.new ≡ self.old ++ Some (process_of process) ∷ []) }
        ensures err { OnErr result (self.new ≡ self.old) }
    {
        Ok(self.all.push(Some(process))?)
    }

    /// Takes the last process back.
    pub fn pop(&mut self)
        ensures { self.new ≡ take (length self.old - 1) self.old }
    {
        let _ = self.all.pop();
    }

    /// The process of this number, if it isn't gone.
    pub fn find(&self, pid: u32) -> Option<&Process>
        ensures { shown (option_copied result) ≡ process self.now pid }
    {
        slots::find(&self.all, pid)
    }

    /// Puts another process in the place of one that isn't gone, or none.
    pub fn put(&mut self, pid: u32, state: Option<Process>)
        requires { IsSome (process self.old pid) }
        ensures { self.new ≡ with_process self.old pid (shown state) }
    {
        slots::put(&mut self.all, pid, state);
    }

    pub fn is_there(&self, pid: u32) -> bool
        ensures { result ≡ holds is_any (process self.now pid) }
    {
        self.find(pid).is_some()
    }

    /// Whether a process is there and lives.
    pub fn is_live(&self, pid: u32) -> bool
        ensures { result ≡ holds is_live (process self.now pid) }
    {
        match self.find(pid) {
            Some(process) => process.is_live(),
            None => false,
        }
    }

    /// Whether a process is there and is this one's child.
    pub fn is_child(&self, pid: u32, parent: u32) -> bool
        ensures { result ≡ holds (is_child_of parent) (process self.now pid) }
    {
        match self.find(pid) {
            Some(process) => process.is_child_of(parent),
            None => false,
        }
    }

    /// Whether a process has ended and is this one's child.
    pub fn is_ended_child(&self, pid: u32, parent: u32) -> bool
        ensures { result ≡ holds (is_ended_child parent) (process self.now pid) }
    {
        match self.find(pid) {
            Some(process) => process.is_child_of(parent) && !process.is_live(),
            None => false,
        }
    }

    /// How a process has ended, if it has.
    pub fn ended(&self, pid: u32) -> Option<Ended>
        ensures answer { result ≡ ended_by self.now pid }
        ensures told { IfSome result (λ e.
            status_of self.now e.pid ≡ Some (status_byte e.status e.event)) }
    {
        self.find(pid)?.ended_as(pid)
    }

    /// Takes the parent away from a process, if that is this one.
    fn orphan(&mut self, pid: u32, parent: u32)
        ensures { self.new ≡ with_process self.old pid
            (option_and_then (orphan parent) (process self.old pid)) }
    {
        if let Some(process) = self.find(pid) {
            let orphaned = process.orphaned(parent);
            self.put(pid, orphaned);
        }
    }

    /// Takes the parent away from each child of a process.
    pub fn orphan_all(&mut self, pids: &[u32], parent: u32)
        requires { pids.now ≡ present self.old }
        ensures { self.new ≡ map (option_and_then (orphan parent)) self.old }
    {
        for pid in pids {
            self.orphan(*pid, parent);
        }
    }

    /// Ends a process with a status, by an event.
    pub fn end(&mut self, pid: u32, status: u8, event: u64)
        ensures { self.new ≡ with_process self.old pid
            (option_and_then (with_end (status_byte status event)) (process self.old pid)) }
    {
        if let Some(process) = self.find(pid) {
            let ended = process.ended(status, event);
            self.put(pid, ended);
        }
    }

    /// Drops a process.
    pub fn remove(&mut self, pid: u32)
        ensures { self.new ≡ with_process self.old pid None }
    {
        if self.is_there(pid) {
            self.put(pid, None);
        }
    }

    /// Changes what a descriptor of a process stands for.
    pub fn set_descriptor(&mut self, pid: u32, number: u8, found: Option<u32>)
        requires { number < MOST_DESCRIPTORS }
        ensures { self.new ≡ with_change self.old pid (with_descriptor number found) }
    {
        if let Some(process) = self.find(pid) {
            let changed = process.with_descriptor(number, found);
            self.put(pid, Some(changed));
        }
    }
}
