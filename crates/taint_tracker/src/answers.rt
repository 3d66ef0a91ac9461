// The items of bytes of which one may ask.
ghost use Rattle.std.specs.Prelude.{◌≡◌, ◌<◌, ◌+◌, ◌-◌, ◌/◌, ◌%◌, ◌==◌, ◌&&◌, nat_lt, length, slice_index, if◌then◌else◌, Option, Some, None, option_map, option_and_then};
ghost use Rattle.acts_model.specs.Transfers.{is_private, is_shared};
ghost use Rattle.parts_model.specs.declared.limits.TheConstants as limits;
ghost use Rattle.parts_model.specs.Numbered.{nth};
ghost use Rattle.taint_members.specs.Access.{HoldsKey, HoldsKeys, held_numbers};
ghost use Rattle.taint_members.specs.declared.member.Held.{Held};
ghost use Rattle.taint_pages.specs.Rows.{byte_in};
ghost use Rattle.taint_state.specs.Asked.{answer, where_true};
ghost use Rattle.taint_group.specs.Groups.{IsSoundGroup, heard_of, kept_of};
ghost use Rattle.taint_state.specs.RunsShow.{kept_member};
ghost use Rattle.taint_tracker.specs.Items.{listed};
ghost use Rattle.taint_state.specs.Heard.{kept_child, kept_heard, kept_start};
ghost use Rattle.taint_state.specs.Kept.{heard_among, shown};
ghost use Rattle.taint_tracker.specs.Numbered as numbers;

use crate::items::KeptItems;
use parts_model::limits::{SEGMENT_END, SEGMENT_START, WINDOW_END, WINDOW_START};
use rv64_isa::Reg;
use taint_group::Group;
use taint_members::{Held, MemberSets};
use taint_pages::{Row, SetNumbers};
use taint_state::{ChildStart, HeardEvent, Point};

/// How many bytes 31 registers have.
const REGISTER_BYTES: u64 = 248;

/// The number at a place, if there is one.
fn number_at(numbers: &[u32], place: usize) -> Option<u32>
    ensures { result ≡
        where_true (nat_lt place (length numbers.now)) (slice_index numbers.now place) }
{
    if place < numbers.len() {
        Some(numbers[place])
    } else {
        None
    }
}

/// The number of a byte of an event.
fn event_number(heard: &HeardEvent, at: u32) -> Option<u32>
    ensures { result ≡ numbers.event_number at (kept_heard heard.now) }
{
    match &heard.moved {
        Some(moved) => number_at(moved.numbers.as_slice(), at as usize),
        None => None,
    }
}

/// The number of a byte of registers, by its place from the first of x1 on.
fn row_number(row: &Row, at: u64) -> u32
    requires { at < 248 }
    ensures { result ≡ byte_in row.now (at / 8 + 1) (at % 8) }
{
    match Reg::new((at / 8) as u8 + 1) {
        Some(reg) => row.get(reg, (at % 8) as u8),
        None => unreachable!(),
    }
}

/// The number of a byte of a private window.
fn window_number(window: &SetNumbers, at: u64) -> Option<u32>
    ensures { result ≡
        where_true (is_private at) (slice_index window.now (at - limits.WINDOW_START)) }
{
    if WINDOW_START <= at && at < WINDOW_END {
        Some(window.find((at - WINDOW_START) as usize))
    } else {
        None
    }
}

/// The number of a byte with which a child began.
fn start_number(start: &ChildStart, at: u64) -> Option<u32>
    ensures { result ≡ numbers.start_number at (kept_start start.now) }
{
    if at < REGISTER_BYTES {
        Some(row_number(&start.registers, at))
    } else if at < 2 * REGISTER_BYTES {
        Some(row_number(&start.slot, at - REGISTER_BYTES))
    } else {
        window_number(&start.window, at)
    }
}

/// The number of a byte with which a child began that may be there.
fn child_number(child: &Option<Box<ChildStart>>, at: u64) -> Option<u32>
    ensures { result ≡ option_and_then (numbers.start_number at) (option_map kept_child child.now) }
{
    match child {
        Some(start) => start_number(start, at),
        None => None,
    }
}

/// The number of a byte with which the child of a fork began, if the fork started a group.
fn fork_number(heard: &HeardEvent, at: u64) -> Option<u32>
    ensures { result ≡ numbers.fork_number at (kept_heard heard.now) }
{
    match &heard.moved {
        Some(moved) => child_number(&moved.start, at),
        None => None,
    }
}

/// The number of a byte of a segment that may be held.
fn segment_number(segment: Option<Held>, memories: &[SetNumbers], at: u64) -> Option<u32>
    requires held { HoldsKey segment memories.now }
    ensures { result ≡ if is_shared at
        then option_map (λ (held : Held).
        slice_index (held_numbers segment memories.now) (at - limits.SEGMENT_START)) segment
        else None }
{
    match segment {
        Some(held) if SEGMENT_START <= at && at < SEGMENT_END => Some(memories[held.key].find(
            (at - SEGMENT_START) as usize,
        )),
        _ => None,
    }
}

/// The number of a byte of a member's memories.
fn memory_number(member: &MemberSets, memories: &[SetNumbers], at: u64) -> Option<u32>
    requires held { HoldsKeys member.now memories.now }
    ensures { result ≡ numbers.memory_number at (kept_member memories.now member.now) }
{
    match window_number(&memories[member.window.key], at) {
        Some(number) => Some(number),
        None => segment_number(member.segment, memories, at),
    }
}

/// The number of a byte of a register.
fn register_number(row: &Row, reg: u8, byte: u8) -> Option<u32>
    ensures { result ≡ where_true (nat_lt reg 32 && nat_lt byte 8)
        (if reg == 0 then 0 else byte_in row.now reg byte) }
{
    match Reg::new(reg) {
        Some(reg) if byte < 8 => Some(row.get(reg, byte)),
        _ => None,
    }
}

/// The member of a number.
fn member(group: &Group, pid: u32) -> Option<&MemberSets>
    ensures { option_map (λ member. member.now) result ≡ nth group.now.members.items pid }
{
    match group.members.get(pid as usize) {
        Some(Some(member)) => Some(member),
        _ => None,
    }
}

/// The number of a byte of an event of a member.
fn event_byte(group: &Group, event: u64, at: u32) -> Option<u32>
    ensures { result ≡ option_and_then (numbers.event_number at)
        (heard_among (heard_of group.now) event) }
{
    match group.heard.find(event) {
        Some(heard) => event_number(heard, at),
        None => None,
    }
}

/// The number of a byte with which the child of a member's fork began.
fn start_byte(group: &Group, event: u64, at: u64) -> Option<u32>
    ensures { result ≡ option_and_then (numbers.fork_number at)
        (heard_among (heard_of group.now) event) }
{
    match group.heard.find(event) {
        Some(heard) => fork_number(heard, at),
        None => None,
    }
}

/// The number of a byte of a member's memories.
fn memory_byte(group: &Group, pid: u32, at: u64) -> Option<u32>
    requires sound { IsSoundGroup group.now }
    ensures { result ≡ option_and_then (numbers.memory_number at)
        (option_map (kept_member group.now.memories.items) (nth group.now.members.items pid)) }
{
    match member(group, pid) {
        Some(member) => memory_number(member, group.memories.as_slice(), at),
        None => None,
    }
}

/// The number of a byte of a member's registers.
fn register_byte(group: &Group, pid: u32, reg: u8, byte: u8) -> Option<u32>
    ensures { result ≡ option_and_then (numbers.register_number reg byte)
        (option_map (kept_member group.now.memories.items) (nth group.now.members.items pid)) }
{
    match member(group, pid) {
        Some(member) => register_number(&member.registers, reg, byte),
        None => None,
    }
}

/// The number of a byte, if the group has such a byte.
fn number(group: &Group, point: Point) -> Option<u32>
    requires sound { IsSoundGroup group.now }
    ensures { result ≡ numbers.point_number (kept_of group.now) point }
{
    match point {
        Point::Event { event, at } => event_byte(group, event, at),
        Point::Start { event, at } => start_byte(group, event, at),
        Point::Mem { pid, at } => memory_byte(group, pid, at),
        Point::Reg { pid, reg, byte } => register_byte(group, pid, reg, byte),
    }
}

/// The items of a byte, none where the group has no such byte.
pub fn local(group: &Group, point: Point) -> Option<KeptItems<'_>>
    requires sound { IsSoundGroup group.now }
    ensures { option_map listed result ≡ answer (shown (kept_of group.now)) point }
{
    match number(group, point) {
        Some(set) => Some(KeptItems::Set {
            sets: &group.sets,
            set,
        }),
        None => None,
    }
}
