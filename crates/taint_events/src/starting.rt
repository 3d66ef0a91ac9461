// Bytes that come to a member.
ghost use Rattle.std.specs.Prelude.{◌≡◌, ◌<◌, ◌≤◌, ℕ, length, None, IfOk, IfSome, OnOk};
ghost use Rattle.parts_model.specs.declared.limits.TheConstants as limits;
ghost use Rattle.acts_model.specs.Moved as moved;
ghost use Rattle.taint_events.specs.Starting as spec;
ghost use Rattle.taint_events.specs.Starting.{IsStarted, window_len};
ghost use Rattle.taint_members.specs.Access.{HoldsKeys, Writes, number_at};
ghost use Rattle.taint_members.specs.Rows.{AreZero, ClearsResult};

use crate::bytes::few;
use arn_base::NoMemory;
use guest_image::HEADER_LEN;
use parts_model::limits::{WINDOW_END, WINDOW_LEN, WINDOW_START};
use std::alloc::Global;
use taint_members::{MemberSets, NewMember, number, write};
use taint_pages::SetNumbers;

/// A member receives bytes of these sets from an address on, as far as they lie in the same memory. The call's result
/// takes nothing. 2^31 bytes or more count as want of memory.
pub fn receives(
    member: &mut MemberSets,
    memories: &mut [SetNumbers],
    at: u64,
    numbers: &[u32],
) -> Result<(), NoMemory>
    requires held { HoldsKeys member.old memories.old }
    ensures memory { OnOk result (Writes at numbers.now member.old memories.old memories.new) }
    ensures result { OnOk result (ClearsResult member.old.registers member.new.registers) }
    ensures others { member.new ≡ record member.old { registers = member.new.registers } }
    ensures keys { length memories.new ≡ length memories.old }
{
    few(numbers.len())?;
    write(member, memories, at, numbers)?;
    member.returns();
    Ok(())
}

/// Which of so many addresses from the first on an address is.
fn within(first: u64, len: u64, at: u64) -> Option<usize>
    ensures place { result ≡ moved.within first len at }
    ensures small { IfSome result (λ place. place ≤ at) }
{
    if first <= at && at - first < len {
        Some((at - first) as usize)
    } else {
        None
    }
}

/// The number of the byte of an image's body that stands at an address, 0 where none does.
fn body_number(load: u64, numbers: &[u32], at: u64) -> u32
    ensures { result ≡ spec.body_number load numbers.now at }
{
    match within(load, numbers.len().saturating_sub(HEADER_LEN) as u64, at) {
        Some(place) => numbers[HEADER_LEN + place],
        None => 0,
    }
}

/// The number of an address of a window in which an image was started, whose argument block stands at the end.
fn started_number(
    old: &MemberSets,
    memories: &[SetNumbers],
    load: u64,
    numbers: &[u32],
    block: u64,
    block_len: u64,
    at: u64,
) -> u32
    requires below { at < limits.WINDOW_END }
    requires held { HoldsKeys old.now memories.now }
    ensures { result ≡
        spec.started_number load numbers.now (number_at old.now memories.now block) block_len at }
{
    match within(WINDOW_END.saturating_sub(block_len), block_len, at) {
        Some(place) => number(old, memories, block, place),
        None => body_number(load, numbers, at),
    }
}

/// The numbers of a window in which an image was started.
fn start_window(
    window: &mut SetNumbers,
    old: &MemberSets,
    memories: &[SetNumbers],
    load: u64,
    numbers: &[u32],
    block: u64,
    block_len: u64,
) -> Result<(), NoMemory>
    requires len { length window.old ≡ window_len }
    requires held { HoldsKeys old.now memories.now }
    ensures { OnOk result
        (IsStarted load numbers.now (number_at old.now memories.now block) block_len window.new) }
{
    for place in 0..WINDOW_LEN {
        let at = WINDOW_START + place;
        let number = started_number(old, memories, load, numbers, block, block_len, at);
        window.set(place as usize, number)?;
    }
    Ok(())
}

/// A process that starts from an image, whose bytes have these sets, with an argument block from its old memory.
pub fn started(
    alloc: Global,
    old: &MemberSets,
    memories: &[SetNumbers],
    load: u64,
    numbers: &[u32],
    block: u64,
    block_len: u64,
) -> Result<NewMember, NoMemory>
    requires held { HoldsKeys old.now memories.now }
    ensures registers { IfOk result (λ member. AreZero member.registers) }
    ensures slot { IfOk result (λ member. AreZero member.slot) }
    ensures window { IfOk result (λ member. IsStarted load numbers.now
        (number_at old.now memories.now block) block_len member.window) }
    ensures segment { IfOk result (λ member. member.segment ≡ None) }
{
    let mut member = NewMember::fresh(alloc)?;
    start_window(
        &mut member.window,
        old,
        memories,
        load,
        numbers,
        block,
        block_len,
    )?;
    Ok(member)
}
