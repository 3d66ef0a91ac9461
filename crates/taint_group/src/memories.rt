// Memories by key, windows and segments alike. Several members may hold one.
ghost use Rattle.std.specs.Prelude.{◌≡◌, ◌≤◌, false, length, IfSome, OnOk};
ghost use Rattle.taint_group.specs.Moves.{AreHeldOnce, HasNoKey, IsFree, IsKeyBy, MaySeat, PutsMemory, Releases, Seats, held_key};
ghost use Rattle.taint_group.specs.Tables.{held_of};
ghost use Rattle.taint_members.specs.declared.member.NewMember.{NewMember};

use crate::places::{place, put};
use arn_base::NoMemory;
use std::alloc::Global;
use taint_members::{Held, MemberSets, NewMember};
use taint_pages::{SetNumbers, Unset};

/// Which memory of a member: its window, or its segment.
#[derive(Clone, Copy)]
pub enum MemoryKind {
    Window,
    Segment,
}

/// The memory of a kind that a member holds.
fn held_memory(member: &MemberSets, kind: MemoryKind) -> Option<Held>
    ensures { result ≡ held_of kind member.now }
{
    match kind {
        MemoryKind::Window => Some(member.window),
        MemoryKind::Segment => member.segment,
    }
}

/// The key of the memory of a kind that an event made, if a member that may be there holds it.
fn key_in(entry: &Option<MemberSets>, kind: MemoryKind, event: u64) -> Option<usize>
    ensures { result ≡ held_key kind event entry.now }
{
    match entry {
        Some(member) => match held_memory(member, kind) {
            Some(held) if held.made == event => Some(held.key),
            _ => None,
        },
        None => None,
    }
}

/// Whether a member that may be there holds the memory of a key.
fn holds_key(entry: &Option<MemberSets>, key: usize) -> bool
    ensures free { result ≡ false → HasNoKey key entry.now }
    ensures holds { HasNoKey key entry.now → result ≡ false }
{
    match entry {
        Some(member) => match member.segment {
            Some(held) => member.window.key == key || held.key == key,
            None => member.window.key == key,
        },
        None => false,
    }
}

/// Whether a member does. Those with the latest numbers come first: where a group has had many
/// processes, few of the early ones live.
fn is_held(members: &[Option<MemberSets>], key: usize) -> bool
    ensures free { result ≡ false → IsFree key members.now }
    ensures held { IsFree key members.now → result ≡ false }
{
    for place in (0..members.len()).rev() {
        if holds_key(&members[place], key) {
            return true;
        }
    }
    false
}

/// A key that no member holds: the first that is free, or the next.
fn free_key(members: &[Option<MemberSets>], count: usize) -> usize
    requires once { AreHeldOnce count members.now }
    ensures free { IsFree result members.now }
    ensures most { result ≤ count }
{
    for key in 0..count {
        if !is_held(members, key) {
            return key;
        }
    }
    count
}

/// The key for a memory of a kind that an event makes: that of one that it made already, or a
/// free one.
pub fn key_for(members: &[Option<MemberSets>], kind: MemoryKind, count: usize, event: u64) -> usize
    requires once { AreHeldOnce count members.now }
    ensures own { IsKeyBy kind event result members.now }
    ensures most { result ≤ count }
{
    for member in members {
        if let Some(key) = key_in(member, kind, event) {
            return key;
        }
    }
    free_key(members, count)
}

/// A memory has a key from now on.
pub fn put_memory(
    memories: &mut Vec<SetNumbers>,
    key: usize,
    memory: SetNumbers,
) -> Result<(), NoMemory>
    requires { key ≤ length memories.old.items }
    ensures { OnOk result (PutsMemory key memory memories.old.items memories.new.items) }
{
    if key < memories.len() {
        put(&mut memories[key], memory);
    } else {
        memories.push(memory)?;
    }
    Ok(())
}

/// A member begins at a number, with a window that an event makes, in the place of one that may
/// be there.
pub fn seat(
    members: &mut Vec<Option<MemberSets>>,
    memories: &mut Vec<SetNumbers>,
    pid: u32,
    event: u64,
    member: NewMember,
) -> Result<(), NoMemory>
    requires once { AreHeldOnce (length memories.old.items) members.old.items }
    ensures { OnOk result (Seats pid event member members.old.items members.new.items
        memories.old.items memories.new.items) }
{
    let key = key_for(
        members.as_slice(),
        MemoryKind::Window,
        memories.len(),
        event,
    );
    put_memory(memories, key, member.window)?;
    let seated = MemberSets {
        registers: member.registers,
        slot: member.slot,
        window: Held { made: event, key },
        segment: member.segment,
    };
    place(members, pid, seated)
}

/// One that may begin does.
pub fn may_seat(
    members: &mut Vec<Option<MemberSets>>,
    memories: &mut Vec<SetNumbers>,
    pid: u32,
    event: u64,
    member: Option<NewMember>,
) -> Result<(), NoMemory>
    requires once { IfSome member (λ (m : NewMember).
        AreHeldOnce (length memories.old.items) members.old.items) }
    ensures { OnOk result (MaySeat pid event member members.old.items members.new.items
        memories.old.items memories.new.items) }
{
    match member {
        Some(member) => seat(members, memories, pid, event, member),
        None => Ok(()),
    }
}

/// Memories that no member holds are let go of.
pub fn release(
    alloc: Global,
    members: &[Option<MemberSets>],
    memories: &mut Vec<SetNumbers>,
) -> Result<(), NoMemory>
    ensures { OnOk result (Releases members.now memories.old.items memories.new.items) }
{
    for key in 0..memories.len() {
        let held = is_held(members, key);
        if !held {
            let nothing = SetNumbers::new(alloc, 0, Unset::Zero)?;
            put(&mut memories[key], nothing);
        }
    }
    Ok(())
}
