// The numbers of a member's bytes by address.
ghost use Rattle.std.specs.Prelude.{◌≡◌, ◌≤◌, ◌<◌, ◌^◌, IsTrue, false, length, IfSome, IsOk, OnOk};
ghost use Rattle.taint_members.specs.Access.{AreRead, HoldsKeys, Memories, PutsRead, Writes, in_memory, number_at, place_in};

use crate::member::MemberSets;
use arn_base::NoMemory;
use parts_model::limits::{SEGMENT_END, SEGMENT_START, WINDOW_END, WINDOW_START};
use rv64_isa::Reg;
use taint_pages::SetNumbers;

/// Where a byte lies: in the memory of a key, so far behind its start.
#[derive(Clone, Copy)]
pub struct KeyOffset {
    pub key: usize,
    pub offset: usize,
}

/// Where an address lies in the memories of a member, if it does.
#[inline(always)]
fn place_of(member: &MemberSets, at: u64) -> Option<KeyOffset>
    ensures place { result ≡ place_in member.now at }
    ensures small { IfSome result (λ place. place.offset < 262144) }
    ensures there { (memories : Memories) → HoldsKeys member.now memories →
        IfSome result (λ place. place.key < length memories) }
{
    if WINDOW_START <= at && at < WINDOW_END {
        return Some(KeyOffset {
            key: member.window.key,
            offset: (at - WINDOW_START) as usize,
        });
    }
    match member.segment {
        Some(held) if SEGMENT_START <= at && at < SEGMENT_END => Some(KeyOffset {
            key: held.key,
            offset: (at - SEGMENT_START) as usize,
        }),
        _ => None,
    }
}

/// The number of byte `k` from an address on, in the memory in which the address lies, and 0 behind its end. An address
/// outside the member's memories has 0.
pub fn number(member: &MemberSets, memories: &[SetNumbers], at: u64, k: usize) -> u32
    requires small { k < 2 ^ 32 }
    requires held { HoldsKeys member.now memories.now }
    ensures { result ≡ number_at member.now memories.now at k }
{
    match place_of(member, at) {
        Some(place) => memories[place.key].find(place.offset + k),
        None => 0,
    }
}

/// The numbers of so many bytes from an address on, at most eight, and zeros behind them. An address outside the
/// member's memories has zeros.
#[inline(always)]
pub fn read(member: &MemberSets, memories: &[SetNumbers], at: u64, len: usize) -> [u32; 8]
    requires few { len ≤ 8 }
    requires held { HoldsKeys member.now memories.now }
    ensures { AreRead member.now memories.now at len result }
{
    match place_of(member, at) {
        Some(place) => memories[place.key].eight(place.offset, len),
        None => [0; 8],
    }
}

/// Sets the numbers of a register that isn't x0 to those of so many bytes, at most eight, from an
/// address on, and zeros behind them. False says that the address lies outside the member's
/// memories: then nothing changes. It isn't compiled into its
/// caller, so that the loop there stays small.
#[inline(never)]
pub fn load_register(
    member: &mut MemberSets,
    memories: &[SetNumbers],
    at: u64,
    len: usize,
    reg: Reg,
) -> bool
    requires few { len ≤ 8 }
    requires above { 0 < reg }
    requires held { HoldsKeys member.old memories.now }
    ensures told { result ≡ in_memory member.old.segment at }
    ensures puts { IsTrue result → PutsRead member.old memories.now at len reg
        member.old.registers member.new.registers }
    ensures others { member.new ≡ record member.old { registers = member.new.registers } }
    ensures kept { result ≡ false → member.new ≡ member.old }
{
    match place_of(member, at) {
        Some(place) => {
            memories[place.key].move_to(place.offset, len, &mut member.registers, reg);
            true
        }
        None => false,
    }
}

/// Sets the numbers of several bytes from an address on, as far as they lie in the same memory: all
/// that hold it have them from now on. At an address outside the member's memories nothing is set.
/// Nor is this one compiled into its caller.
#[inline(never)]
pub fn write(
    member: &MemberSets,
    memories: &mut [SetNumbers],
    at: u64,
    numbers: &[u32],
) -> Result<(), NoMemory>
    requires few { length numbers.now < 2 ^ 31 }
    requires held { HoldsKeys member.now memories.old }
    ensures memory { OnOk result (Writes at numbers.now member.now memories.old memories.new) }
    ensures outside { in_memory member.now.segment at ≡ false → IsOk result }
    ensures keys { length memories.new ≡ length memories.old }
{
    match place_of(member, at) {
        Some(place) => memories[place.key].put(place.offset, numbers),
        None => Ok(()),
    }
}
