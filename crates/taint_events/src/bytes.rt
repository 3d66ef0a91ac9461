// The numbers of the sets of the bytes of an event.
ghost use Rattle.std.specs.Prelude.{◌≡◌, ◌<◌, ◌^◌, IfOk, OnOk};
ghost use Rattle.taint_spans.specs.Numbered.{StandAsBefore};
ghost use Rattle.taint_events.specs.Bytes.{AreEmpty, AreGiven, AreReceived, IsStatus};
ghost use Rattle.taint_members.specs.Access.{HoldsKeys, number_at};

use arn_base::NoMemory;
use rv64_isa::Reg;
use std::alloc::Global;
use taint_members::{MemberSets, number};
use taint_pages::SetNumbers;
use taint_spans::SpanSets;

/// How many bytes an event moves at most: there is no memory for more.
const MOST: usize = 0x7fff_ffff;

/// That an event moves no more bytes than there is memory for.
pub fn few(len: usize) -> Result<(), NoMemory>
    ensures { OnOk result (len < 2 ^ 31) }
{
    if len > MOST {
        return Err(NoMemory);
    }
    Ok(())
}

/// So many bytes that take nothing.
pub fn empty(alloc: Global, len: usize) -> Result<Vec<u32>, NoMemory>
    ensures { IfOk result (λ numbers. AreEmpty len numbers.items) }
{
    let mut numbers = Vec::new(alloc);
    for _ in 0..len {
        numbers.push(0)?;
    }
    Ok(numbers)
}

/// So many received bytes, each of which is an item by itself.
pub fn received(
    alloc: Global,
    sets: &mut SpanSets,
    event: u64,
    len: usize,
) -> Result<Vec<u32>, NoMemory>
    ensures received { IfOk result (λ numbers. AreReceived sets.new event len numbers.items) }
    ensures before { StandAsBefore sets.old sets.new }
{
    let first = sets.receive(event, 0, len)?;
    let mut numbers = Vec::new(alloc);
    for k in 0..len {
        numbers.push(first + k as u32)?;
    }
    Ok(numbers)
}

/// So many bytes that a member gave from an address on. 2^31 bytes or more count as want of memory.
pub fn given(
    alloc: Global,
    member: &MemberSets,
    memories: &[SetNumbers],
    at: u64,
    len: usize,
) -> Result<Vec<u32>, NoMemory>
    requires held { HoldsKeys member.now memories.now }
    ensures { IfOk result (λ numbers.
        AreGiven (number_at member.now memories.now at) len numbers.items) }
{
    few(len)?;
    let mut numbers = Vec::new(alloc);
    for k in 0..len {
        numbers.push(number(member, memories, at, k))?;
    }
    Ok(numbers)
}

/// The bytes of an exit: the first is the status, the lowest byte of x10.
pub fn status(alloc: Global, member: &MemberSets, len: usize) -> Result<Vec<u32>, NoMemory>
    ensures { IfOk result (λ numbers. IsStatus member.now.registers len numbers.items) }
{
    let mut numbers = empty(alloc, len)?;
    if let (Some(result), true) = (Reg::new(10), len > 0) {
        numbers[0] = member.registers.get(result, 0);
    }
    Ok(numbers)
}
