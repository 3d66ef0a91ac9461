// What is seen at a moment.
ghost use Rattle.std.specs.Prelude.{◌≡◌, ◌≤◌, ◌+◌, length, option_and_then, true, IfErr, IfOk, OnOk};
ghost use Rattle.acts_model.specs.Views.{bytes_in};
ghost use Rattle.guest_bodies.specs.Shown.{seen_in};
ghost use Rattle.history_index.specs.Indexes.{AreCountable, Indexes};
ghost use Rattle.past_lives.specs.Members.{is_member, is_memory_range, is_moment, live_at as live_at_of};
ghost use Rattle.state_viewer.specs.Views.{Explains, HasMemory, HasRegisters, Refuses, RunsNothing, made_of, ran_of};

use crate::replays::group_at;
use arn_base::{Bytes, Cpu, NoMemory, Numbers, Record, Steps};
use file_versions::VersionError;
use history_index::Index;
use past_lives::{
    is_member as lives_at, is_memory_range as has_range, live_at, lives_have_groups,
    members_are_seen, windows_are_whole,
};
use replayer::{GroupState, QueryError};
use std::alloc::Global;
use std::sync::ledger::Ledger;

// So many zeros.
fn zeros(alloc: Global, len: u32) -> Result<Vec<u8>, NoMemory>
    ensures { IfOk result (λ made. length made.items ≡ len) }
{
    Ok(vec![in alloc; 0; len as usize]?)
}

// So many bytes at an address of a process, where they lie whole in one of its windows.
fn bytes_of(
    alloc: Global,
    group: &GroupState,
    pid: u32,
    at: u64,
    len: u32,
) -> Result<Option<Bytes>, NoMemory>
    ensures { IfOk result (λ bytes. bytes ≡
        option_and_then (λ v. bytes_in v at len) (seen_in group.now pid)) }
{
    let mut bytes = zeros(alloc, len)?;
    let buf = bytes.as_mut_slice();
    match group.read_into(pid, at, buf) {
        Ok(()) => Ok(Some(Bytes::from_slice(alloc, buf)?)),
        Err(_) => Ok(None),
    }
}

/// The registers of a process at a moment.
pub fn registers<L: Ledger>(
    alloc: Global,
    entries: &[Record],
    index: &Index,
    moment: u64,
    pid: u32,
    steps: &mut Steps<L>,
) -> Result<Cpu, QueryError>
    requires countable { AreCountable entries.now }
    requires indexed { Indexes index.now entries.now }
    ensures ok { IfOk result (HasRegisters entries.now moment pid) }
    ensures err { IfErr result
        (Explains (is_member entries.now moment pid) (made_of entries.now moment pid)) }
    ensures counted { OnOk result (steps.new ≡ steps.old + ran_of entries.now moment pid) }
    ensures unasked { IfErr result (λ error. RunsNothing error steps.old steps.new) }
    ensures bounded { steps.new ≤ steps.old + ran_of entries.now moment pid }
{
    lives_have_groups();
    members_are_seen();
    if !lives_at(entries, index, moment, pid) {
        return Err(QueryError::NoPoint);
    }
    let group = group_at(alloc, entries, index, moment, pid, steps)?;
    match group.cpu(pid) {
        Some(cpu) => Ok(*cpu),
        None => Err(QueryError::NoPoint),
    }
}

/// So many bytes at an address of a process at a moment.
pub fn memory<L: Ledger>(
    alloc: Global,
    entries: &[Record],
    index: &Index,
    moment: u64,
    pid: u32,
    at: u64,
    len: u32,
    steps: &mut Steps<L>,
) -> Result<Bytes, QueryError>
    requires countable { AreCountable entries.now }
    requires indexed { Indexes index.now entries.now }
    ensures ok { IfOk result (HasMemory entries.now moment pid at len) }
    ensures err { IfErr result (Explains
        (is_memory_range entries.now moment pid at len) (made_of entries.now moment pid)) }
    ensures counted { OnOk result (steps.new ≡ steps.old + ran_of entries.now moment pid) }
    ensures unasked { IfErr result (λ error. RunsNothing error steps.old steps.new) }
    ensures bounded { steps.new ≤ steps.old + ran_of entries.now moment pid }
{
    lives_have_groups();
    members_are_seen();
    windows_are_whole(entries);
    if !has_range(entries, index, moment, pid, at, len) {
        return Err(QueryError::NoPoint);
    }
    let group = group_at(alloc, entries, index, moment, pid, steps)?;
    let found = bytes_of(alloc, &group, pid, at, len)?;
    match found {
        Some(bytes) => Ok(bytes),
        None => Err(QueryError::NoPoint),
    }
}

/// The processes that live at a moment, in order of number.
pub fn processes(
    alloc: Global,
    entries: &[Record],
    index: &Index,
    moment: u64,
) -> Result<Numbers, VersionError>
    requires countable { AreCountable entries.now }
    requires indexed { Indexes index.now entries.now }
    ensures moment { IfOk result (λ _. is_moment entries.now moment ≡ true) }
    ensures ok { IfOk result (λ live. live ≡ live_at_of entries.now moment) }
    ensures err { IfErr result (Refuses (is_moment entries.now moment)) }
{
    if moment > index.total() {
        return Err(VersionError::NoMoment);
    }
    Ok(live_at(alloc, entries, index, moment)?)
}
