// The table of processes.
ghost use Rattle.std.specs.Prelude.{◌≡◌, ◌-◌, ◌<◌, ◌^◌, ◌++◌, ◌∷◌, [], length, take, unwrap_or, Ok, Err, Some, None, IfOk, IfErr, OnOk, OnErr, IsTrue, IsOk, IsSome, IsNone, option_and_then, option_map, ◌↔◌};
ghost use Rattle.std.specs.Result.{result_ok};
ghost use Rattle.parts_model.specs.Processes.{process, live_process, live, is_live, is_full, next_process, booted, forked, ended, reaped, status_of, descriptor, free_descriptors, lowest_free, placed, with_change, with_descriptor};
ghost use Rattle.guest_procs.specs.Answers.{MakeFails, WaitFails, lowest_ended};
ghost use Rattle.guest_procs.specs.Shown.{process_of};
ghost use Rattle.guest_procs.specs.Status.{status_byte};
ghost use Rattle.guest_procs.specs.declared.answers.ProcError.TheVariants as error;

use crate::answers::{Ended, ProcError};
use crate::lists::{self, Lists};
use crate::process::Process;
use std::alloc::Global;
use std::marker::Model;

/// The processes by number, the first being 1. A number isn't given again.
#[derive(Drop)]
pub struct Procs {
    lists: Lists,
}

impl Model for Procs {
    ghost use Rattle.parts_model.specs.Processes.{Processes};

    ghost Value = { Processes };

    ghost use Rattle.guest_procs.specs.Sound.{IsSound};

    ghost view = { λ s. s.lists.table };

    ghost invariant = { λ s. IsSound s.lists.table s.lists.present.items s.lists.live.items };
}

impl Procs {
    /// No process was made.
    pub fn new(alloc: Global) -> Procs
        ensures { result ≡ [] }
    {
        Procs {
            lists: Lists::new(alloc),
        }
    }

    /// Adds a process that lives.
    fn add(&mut self, process: Process) -> Result<u32, ProcError>
        requires few { length self.old < 2 ^ 31 }
        requires lives { IsTrue (is_live (process_of process)) }
        ensures ok { OnOk result (self.new ≡ self.old ++ Some (process_of process) ∷ []) }
        ensures number { IfOk result (λ pid. pid ≡ next_process self.old) }
        ensures full { IsTrue (is_full self.old) → result ≡ Err error.TooMany }
        ensures why { IfErr result (MakeFails self.old) }
        ensures err { OnErr result (self.new ≡ self.old) }
    {
        if self.lists.is_full() {
            return Err(ProcError::TooMany);
        }
        Ok(self.lists.add(process)?)
    }

    /// Makes a process without a parent and without open descriptors, and answers its number.
    pub fn boot(&mut self) -> Result<u32, ProcError>
        requires { length self.old < 2 ^ 31 }
        ensures ok { OnOk result (self.new ≡ booted self.old) }
        ensures number { IfOk result (λ pid. pid ≡ next_process self.old) }
        ensures full { IsTrue (is_full self.old) → result ≡ Err error.TooMany }
        ensures why { IfErr result (MakeFails self.old) }
        ensures err { OnErr result (self.new ≡ self.old) }
    {
        self.add(Process::first())
    }

    /// Makes a child with its parent's descriptors, and answers its number.
    pub fn fork(&mut self, parent: u32) -> Result<u32, ProcError>
        requires few { length self.old < 2 ^ 31 }
        requires parent { IsSome (process self.old parent) }
        ensures ok { OnOk result (self.new ≡ forked self.old parent) }
        ensures number { IfOk result (λ pid. pid ≡ next_process self.old) }
        ensures full { IsTrue (is_full self.old) → result ≡ Err error.TooMany }
        ensures why { IfErr result (MakeFails self.old) }
        ensures err { OnErr result (self.new ≡ self.old) }
    {
        match self.lists.table.find(parent) {
            Some(process) => {
                let child = process.child(parent);
                self.add(child)
            }
            None => Err(ProcError::NoProcess),
        }
    }

    /// Takes back the process that was made last, which lives. Its number is that of the next one.
    pub fn take_back(&mut self)
        requires { IsSome (live_process self.old (length self.old)) }
        ensures { self.new ≡ take (length self.old - 1) self.old }
    {
        self.lists.pop();
    }

    /// Whether there are as many processes as there may be.
    pub fn is_full(&self) -> bool
        ensures { result ≡ is_full self.now }
    {
        self.lists.is_full()
    }

    /// Ends a live process with a status, by an event. Its children have no parent from then on. NoProcess says that it
    /// doesn't live.
    pub fn end(&mut self, pid: u32, status: u8, event: u64) -> Result<(), ProcError>
        ensures ok { OnOk result (self.new ≡ ended self.old pid (status_byte status event)) }
        ensures lives { IsOk result ↔ IsSome (live_process self.old pid) }
        ensures why { IfErr result (λ e. e ≡ error.NoProcess) }
        ensures err { OnErr result (self.new ≡ self.old) }
    {
        if !self.lists.table.is_live(pid) {
            return Err(ProcError::NoProcess);
        }
        self.lists.end(pid, status, event);
        Ok(())
    }

    /// How the lowest child of a process that has ended did so. NoChild says that there is no child, NotReady that none
    /// has ended.
    pub fn next_ended(&self, parent: u32) -> Result<Ended, ProcError>
        ensures answer { result_ok result ≡ lowest_ended self.now parent }
        ensures told { IfOk result (λ e.
            status_of self.now e.pid ≡ Some (status_byte e.status e.event)) }
        ensures why { IfErr result (WaitFails self.now parent) }
    {
        lists::next_ended(&self.lists.present, &self.lists.table, parent)
    }

    /// The same, and that child is gone from then on.
    pub fn reap(&mut self, parent: u32) -> Result<Ended, ProcError>
        ensures answer { result_ok result ≡ lowest_ended self.old parent }
        ensures told { IfOk result (λ e.
            status_of self.old e.pid ≡ Some (status_byte e.status e.event)) }
        ensures why { IfErr result (WaitFails self.old parent) }
        ensures ok { IfOk result (λ child. self.new ≡ reaped self.old child.pid) }
        ensures err { OnErr result (self.new ≡ self.old) }
    {
        let child = self.next_ended(parent)?;
        self.lists.remove(child.pid);
        Ok(child)
    }

    /// How many processes were made, those that are gone among them.
    pub fn count_made(&self) -> usize
        ensures { result ≡ length self.now }
    {
        self.lists.table.len()
    }

    /// The numbers of the processes that live, in order.
    pub fn live(&self) -> &[u32]
        ensures { result.now ≡ live self.now }
    {
        self.lists.live.as_slice()
    }

    /// The process of a number that a program gives, if it lives.
    pub fn live_number(&self, number: u64) -> Option<u32>
        ensures { result ≡ option_map (λ _. number) (live_process self.now number) }
    {
        self.lists.live_number(number)
    }

    /// How many more descriptors a process may open.
    pub fn free(&self, pid: u32) -> u32
        requires { IsSome (process self.now pid) }
        ensures { Some result ≡ option_map free_descriptors (process self.now pid) }
    {
        match self.lists.table.find(pid) {
            Some(process) => process.free(),
            None => 0,
        }
    }

    /// Opens the lowest free descriptor of a process, and answers its number. TooMany says that none is free.
    pub fn place(&mut self, pid: u32, description: u32) -> Result<u8, ProcError>
        requires { IsSome (process self.old pid) }
        ensures number { result_ok result ≡ option_and_then lowest_free (process self.old pid) }
        ensures ok { OnOk result (self.new ≡ with_change self.old pid (placed description)) }
        ensures why { IfErr result (λ e. e ≡ error.TooMany) }
        ensures err { OnErr result (self.new ≡ self.old) }
    {
        match self.lists.place(pid, description) {
            Some(number) => Ok(number),
            None => Err(ProcError::TooMany),
        }
    }

    /// What a descriptor of a process stands for, if it is open.
    pub fn descriptor(&self, pid: u32, number: u64) -> Option<u32>
        requires { IsSome (process self.now pid) }
        ensures { result ≡ option_and_then (λ p. descriptor p number) (process self.now pid) }
    {
        self.lists.table.find(pid)?.descriptor(number)
    }

    /// What all descriptors of a process stand for, none of one that isn't there.
    pub fn descriptors(&self, pid: u32) -> &[Option<u32>]
        ensures { result.now ≡
            unwrap_or (option_map (λ p. p.descriptors) (process self.now pid)) [] }
    {
        match self.lists.table.find(pid) {
            Some(process) => process.descriptors.as_slice(),
            None => &[],
        }
    }

    /// Closes a descriptor of a process, and answers what it stood for. None says that it isn't open.
    pub fn lift(&mut self, pid: u32, number: u64) -> Option<u32>
        requires { IsSome (process self.old pid) }
        ensures found { result ≡ option_and_then (λ p. descriptor p number) (process self.old pid) }
        ensures closed { IsSome result →
            self.new ≡ with_change self.old pid (with_descriptor number None) }
        ensures none { IsNone result → self.new ≡ self.old }
    {
        self.lists.lift(pid, number)
    }
}
