// The numbers of the processes that are there, and of those that live.
ghost use Rattle.std.specs.Prelude.{◌≡◌, ◌==◌, ◌-◌, ◌<◌, ◌^◌, ◌++◌, ◌∷◌, [], length, take, filter, find, Some, None, IfOk, IfErr, OnOk, OnErr, IsTrue, IfSome, IsSome, IsNone, option_and_then, option_map};
ghost use Rattle.std.specs.List.{list_any};
ghost use Rattle.std.specs.Result.{result_ok};
ghost use Rattle.guest_procs.specs.Answers.{WaitFails, lowest_ended};
ghost use Rattle.guest_procs.specs.Shown.{process_of};
ghost use Rattle.guest_procs.specs.Sound.{is_any, present, holds, is_ended_child, IsSound};
ghost use Rattle.guest_procs.specs.Status.{status_byte};
ghost use Rattle.parts_model.specs.Processes.{process, with_process, next_process, is_full, is_live, is_child_of, live_process, ended, status_of, with_change, with_descriptor, descriptor, lowest_free, placed};

use crate::answers::{Ended, ProcError};
use crate::process::Process;
use crate::table::Table;
use arn_base::NoMemory;
use parts_model::limits::{MOST_DESCRIPTORS, MOST_PROCESSES};
use std::alloc::Global;

/// The processes, and in order the numbers of those that are there and of those that live.
#[derive(Drop)]
pub struct Lists {
    pub table: Table,
    pub present: Vec<u32>,
    pub live: Vec<u32>,
}

/// Keeps the numbers of the processes that are there.
pub fn keep_present(pids: &mut Vec<u32>, table: &Table)
    ensures { pids.new.items ≡ filter (λ pid. holds is_any (process table.now pid)) pids.old.items }
{
    pids.retain(|pid| table.is_there(*pid));
}

/// Keeps the numbers of the processes that live.
pub fn keep_live(pids: &mut Vec<u32>, table: &Table)
    ensures { pids.new.items ≡ filter (λ pid. holds is_live (process table.now pid)) pids.old.items }
{
    pids.retain(|pid| table.is_live(*pid));
}

/// The lowest child of a process that has ended, of the processes that are there.
fn first_ended(pids: &[u32], table: &Table, parent: u32) -> Option<u32>
    ensures { result ≡ find (λ pid. holds (is_ended_child parent) (process table.now pid)) pids.now }
{
    pids.iter()
        .copied()
        .find(|pid| table.is_ended_child(*pid, parent))
}

/// Whether a process has a child among those that are there.
fn has_child(pids: &[u32], table: &Table, parent: u32) -> bool
    ensures { result ≡ list_any (λ pid. holds (is_child_of parent) (process table.now pid)) pids.now }
{
    pids.iter().any(|pid| table.is_child(*pid, parent))
}

/// How the lowest child of a process that has ended did so.
fn lowest_ended(pids: &[u32], table: &Table, parent: u32) -> Option<Ended>
    requires { pids.now ≡ present table.now }
    ensures answer { result ≡ lowest_ended table.now parent }
    ensures told { IfSome result (λ e.
        status_of table.now e.pid ≡ Some (status_byte e.status e.event)) }
{
    let pid = first_ended(pids, table, parent)?;
    table.ended(pid)
}

/// Why no child was found that has ended.
fn not_ended(pids: &[u32], table: &Table, parent: u32) -> ProcError
    requires present { pids.now ≡ present table.now }
    requires none { lowest_ended table.now parent ≡ None }
    ensures { WaitFails table.now parent result }
{
    if has_child(pids, table, parent) {
        ProcError::NotReady
    } else {
        ProcError::NoChild
    }
}

/// How the lowest child of a process that has ended did so, or why there is none.
pub fn next_ended(pids: &[u32], table: &Table, parent: u32) -> Result<Ended, ProcError>
    requires { pids.now ≡ present table.now }
    ensures answer { result_ok result ≡ lowest_ended table.now parent }
    ensures told { IfOk result (λ e.
        status_of table.now e.pid ≡ Some (status_byte e.status e.event)) }
    ensures why { IfErr result (WaitFails table.now parent) }
{
    match lowest_ended(pids, table, parent) {
        Some(ended) => Ok(ended),
        None => Err(not_ended(pids, table, parent)),
    }
}

/// A number, if it is one of these.
fn found_in(pids: &[u32], number: u64) -> Option<u32>
    ensures { result ≡ find (λ pid. pid == number) pids.now }
{
    pids.iter().copied().find(|pid| *pid as u64 == number)
}

impl Lists {
    pub fn new(alloc: Global) -> Lists
        ensures table { result.table ≡ [] }
        ensures sound { IsSound result.table result.present.items result.live.items }
    {
        Lists {
            table: Table::new(alloc),
            present: Vec::new(alloc),
            live: Vec::new(alloc),
        }
    }

    /// Whether there are as many processes as there may be.
    pub fn is_full(&self) -> bool
        requires { IsSound self.now.table self.now.present.items self.now.live.items }
        ensures { result ≡ is_full self.now.table }
    {
        self.present.len() as u64 >= MOST_PROCESSES
    }

    /// The process of a number, if it lives.
    pub fn live_number(&self, number: u64) -> Option<u32>
        requires { IsSound self.now.table self.now.present.items self.now.live.items }
        ensures { result ≡ option_map (λ _. number) (live_process self.now.table number) }
    {
        found_in(&self.live, number)
    }

    /// Adds a process that lives, and answers its number.
    pub fn add(&mut self, process: Process) -> Result<u32, NoMemory>
        requires few { length self.old.table < 2 ^ 31 }
        requires lives { IsTrue (is_live (process_of process)) }
        requires sound { IsSound self.old.table self.old.present.items self.old.live.items }
        ensures number { IfOk result (λ pid. pid ≡ next_process self.old.table) }
        ensures ok { OnOk result (self.new.table ≡ self.old.table ++ Some (process_of process) ∷ []) }
        ensures err { OnErr result (self.new.table ≡ self.old.table) }
        ensures sound { IsSound self.new.table self.new.present.items self.new.live.items }
    {
        let pid = self.table.len() as u32 + 1;
        self.present.reserve(1)?;
        self.live.reserve(1)?;
        self.table.push(process)?;
        self.present.push(pid)?;
        self.live.push(pid)?;
        Ok(pid)
    }

    /// Takes the last process back, which lives.
    pub fn pop(&mut self)
        requires lives { IsSome (live_process self.old.table (length self.old.table)) }
        requires sound { IsSound self.old.table self.old.present.items self.old.live.items }
        ensures table { self.new.table ≡ take (length self.old.table - 1) self.old.table }
        ensures sound { IsSound self.new.table self.new.present.items self.new.live.items }
    {
        self.table.pop();
        let _ = self.present.pop();
        let _ = self.live.pop();
    }

    /// Keeps the numbers of the processes that are still there, and of those that still live.
    fn keep(&mut self)
        ensures table { self.new.table ≡ self.old.table }
        ensures present { self.new.present.items ≡
            filter (λ pid. holds is_any (process self.old.table pid)) self.old.present.items }
        ensures live { self.new.live.items ≡
            filter (λ pid. holds is_live (process self.old.table pid)) self.old.live.items }
    {
        keep_present(&mut self.present, &self.table);
        keep_live(&mut self.live, &self.table);
    }

    /// Ends a process with a status, by an event. Its children have no parent from then on.
    pub fn end(&mut self, pid: u32, status: u8, event: u64)
        requires { IsSound self.old.table self.old.present.items self.old.live.items }
        ensures table { self.new.table ≡ ended self.old.table pid (status_byte status event) }
        ensures sound { IsSound self.new.table self.new.present.items self.new.live.items }
    {
        self.table.orphan_all(&self.present, pid);
        self.table.end(pid, status, event);
        self.keep();
    }

    /// Drops a process.
    pub fn remove(&mut self, pid: u32)
        requires { IsSound self.old.table self.old.present.items self.old.live.items }
        ensures table { self.new.table ≡ with_process self.old.table pid None }
        ensures sound { IsSound self.new.table self.new.present.items self.new.live.items }
    {
        self.table.remove(pid);
        self.keep();
    }

    /// What a descriptor of a process stands for is changed.
    fn set_descriptor(&mut self, pid: u32, number: u8, found: Option<u32>)
        requires sound { IsSound self.old.table self.old.present.items self.old.live.items }
        requires number { number < MOST_DESCRIPTORS }
        ensures table { self.new.table ≡ with_change self.old.table pid (with_descriptor number found) }
        ensures sound { IsSound self.new.table self.new.present.items self.new.live.items }
    {
        self.table.set_descriptor(pid, number, found);
    }

    /// Opens the lowest free descriptor of a process, and answers its number.
    pub fn place(&mut self, pid: u32, description: u32) -> Option<u8>
        requires { IsSound self.old.table self.old.present.items self.old.live.items }
        ensures number { result ≡ option_and_then lowest_free (process self.old.table pid) }
        ensures table { IsSome result → self.new.table ≡ with_change self.old.table pid (placed description) }
        ensures none { IsNone result → self.new.table ≡ self.old.table }
        ensures sound { IsSound self.new.table self.new.present.items self.new.live.items }
    {
        let number = self.table.find(pid)?.lowest_free()?;
        self.set_descriptor(pid, number, Some(description));
        Some(number)
    }

    /// Closes a descriptor of a process, and answers what it stood for.
    pub fn lift(&mut self, pid: u32, number: u64) -> Option<u32>
        requires { IsSound self.old.table self.old.present.items self.old.live.items }
        ensures found { result ≡ option_and_then (λ p. descriptor p number) (process self.old.table pid) }
        ensures table { IsSome result →
            self.new.table ≡ with_change self.old.table pid (with_descriptor number None) }
        ensures none { IsNone result → self.new.table ≡ self.old.table }
        ensures sound { IsSound self.new.table self.new.present.items self.new.live.items }
    {
        let found = self.table.find(pid)?.descriptor(number)?;
        self.set_descriptor(pid, number as u8, None);
        Some(found)
    }
}
