// Look-ups in the records of two groups.
use crate::fixtures::{booted, call, give, signal, slice, start, typed, with};
use crate::same::assert_same;
use arn_base::{Extra, NoMemory, Record};
use history_index::{Index, IndexError, SliceAt, are_countable};
use parts_model::calls::{EXIT, FORK, READ, WRITE};
use std::alloc::Global;
use std::process::Abort;
use std::test::Fail;

// Process 1 reads two typed bytes, takes a signal and forks process 2, which starts a group.
fn one_group(alloc: Global) -> Result<Vec<Record>, NoMemory> {
    let entries = booted(alloc, b"12")?;
    let entries = with(entries, typed(alloc, b"ab")?)?;
    let entries = with(entries, slice(1, 5))?;
    let entries = with(
        entries,
        call(1, READ, 2, Extra::Give(give(alloc, b"ab", 2)?)),
    )?;
    let entries = with(entries, slice(1, 3))?;
    let entries = with(entries, signal(1, 0x10040))?;
    with(entries, call(1, FORK, 2, start(alloc, 0x10004)?))
}

// Then process 2 writes, and forks process 3, which joins its group and exits.
fn history(alloc: Global) -> Result<Vec<Record>, NoMemory> {
    let entries = one_group(alloc)?;
    let entries = with(entries, slice(2, 4))?;
    let entries = with(entries, call(2, WRITE, 7, Extra::Nothing))?;
    let entries = with(entries, slice(2, 1))?;
    let entries = with(entries, call(2, FORK, 3, Extra::Nothing))?;
    let entries = with(entries, slice(3, 2))?;
    with(entries, call(3, EXIT, 0, Extra::Nothing))
}

// The index of records that 32 bits count.
fn index_of(rt: &impl Abort, entries: Vec<Record>) -> Result<Index, IndexError> {
    assert!(rt; are_countable(entries.as_slice()));
    Index::build(*entries.allocator(), entries.as_slice())
}

#[test]
fn groups_are_told(rt: HostRuntime) -> Result<(), Fail> {
    let index = index_of(&rt, history(rt.alloc())?)?;
    assert_same(&rt, index.groups(), [1, 2].as_slice());
    assert_same(&rt, index.members(2), [2, 3].as_slice());
    assert_same(&rt, index.group_of(3), Some(2));
    assert_same(&rt, index.group_of(4), None);
    let counts = (index.count(1), index.count(2), index.count(3));
    assert_same(&rt, counts, (8, 7, 0));
    Ok(())
}

#[test]
fn slices_are_told(rt: HostRuntime) -> Result<(), Fail> {
    let index = index_of(&rt, history(rt.alloc())?)?;
    let slice = SliceAt {
        place: 12,
        event: 8,
        moment: 13,
        pid: 3,
        ran: 2,
    };
    let slices = index.slices(2);
    assert_same(&rt, slices.len(), 3);
    assert_same(&rt, slices.last(), Some(&slice));
    Ok(())
}

// An event: the number of its record, its moment, its group and its length.
#[derive(Clone, Copy, Debug, PartialEq, Eq)]
struct Told {
    place: Option<u64>,
    moment: Option<u64>,
    group: Option<u32>,
    len: Option<u32>,
}

fn event_of(index: &Index, event: u64) -> Told {
    Told {
        place: index.event_place(event),
        moment: index.event_moment(event),
        group: index.event_group(event),
        len: index.event_len(event),
    }
}

#[test]
fn events_are_told(rt: HostRuntime) -> Result<(), Fail> {
    let index = index_of(&rt, history(rt.alloc())?)?;
    assert_same(&rt, (index.events(), index.total()), (9, 15));
    // The read, the signal, which comes before its slice, the write of process 2 and the exit of process 3.
    for (event, place, moment, group, len) in [
        (3, 4, 5, 1, 2),
        (4, 6, 5, 1, 0),
        (6, 9, 12, 2, 7),
        (8, 13, 15, 2, 1),
    ] {
        let wanted = Told {
            place: Some(place),
            moment: Some(moment),
            group: Some(group),
            len: Some(len),
        };
        assert_same(&rt, event_of(&index, event), wanted);
    }
    assert_same(&rt, index.event_group(2), None);
    assert_same(&rt, index.event_place(9), None);
    Ok(())
}

#[test]
fn a_record_breaks(rt: HostRuntime) -> Result<(), Fail> {
    let entries = history(rt.alloc())?;
    let entries = with(entries, slice(3, 1))?;
    let refused = index_of(&rt, entries).err();
    assert_same(&rt, refused, Some(IndexError::Broken { place: 14 }));
    Ok(())
}
