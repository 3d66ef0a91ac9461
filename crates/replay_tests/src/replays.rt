// Replays of groups up to a moment, from their records alone.
use crate::fixtures::{
    Heard, LOOP, NOTHING_HEARD, call, forked, group_at, replayed, signal, slice, started, with,
};
use crate::same::assert_same;
use arn_base::{Extra, NoMemory, Record};
use history_index::IndexError;
use replayer::{Disagrees, GroupState, ReplayError};
use std::alloc::Global;
use std::process::Abort;
use std::test::Fail;

// addi x5, x0, 7, and ecall.
const ASKS: &[u8; 8] = b"\x93\x02\x70\0\x73\0\0\0";

// addi x17, x0, 2, and ecall, then LOOP's two.
const FORKS: &[u8; 16] = b"\x93\x08\x20\0s\0\0\0\x93\x82\x12\0o\xf0\xdf\xff";

// Process 1 runs its first instruction, and then takes a signal whose handler is the program's begin.
fn history(alloc: Global) -> Result<Vec<Record>, NoMemory> {
    let entries = with(started(alloc, ASKS)?, slice(1, 1))?;
    let entries = with(entries, slice(1, 1))?;
    with(entries, signal(1, 0x1_0000))
}

// The program counter and x10 of a process.
fn pc_and_x10(state: &GroupState, pid: u32) -> Option<(u64, u64)> {
    let cpu = state.cpu(pid)?;
    Some((cpu.pc, cpu.x[9]))
}

// The four bytes at an address of process 1.
fn word_at(state: &GroupState, at: u64) -> Option<[u8; 4]> {
    let mut word = [0; 4];
    match state.read_into(1, at, &mut word) {
        Ok(()) => Some(word),
        Err(_) => None,
    }
}

// What is seen of a replay: what its observer heard, registers of processes 1 and 2, and two words.
#[derive(Clone, Copy, Debug, PartialEq, Eq)]
struct Seen {
    heard: Heard,
    parent: Option<(u64, u64)>,
    child: Option<(u64, u64)>,
    code: Option<[u8; 4]>,
    outside: Option<[u8; 4]>,
}

fn shown(state: &GroupState, heard: Heard) -> Seen {
    Seen {
        heard,
        parent: pc_and_x10(state, 1),
        child: pc_and_x10(state, 2),
        code: word_at(state, 0x1_0004),
        outside: word_at(state, 0x4_fffd),
    }
}

// What is seen at a moment of process 1 with a signal.
fn seen_at(rt: &impl Abort, entries: &Vec<Record>, until: u64) -> Result<Seen, Fail> {
    let mut heard = NOTHING_HEARD;
    let state = replayed(rt, entries, 1, until, &mut heard)??;
    Ok(shown(&state, heard))
}

#[test]
fn a_delivery_comes_before_its_slice(rt: HostRuntime) -> Result<(), Fail> {
    let entries = history(rt.alloc())?;
    // The moment, where it stands then, and how many instructions ran.
    for (until, pc, instructions) in [(1, 0x1_0000, 1), (2, 0x1_0004, 2)] {
        let heard = Heard {
            begins: 1,
            instructions,
            events: 2,
        };
        let wanted = Seen {
            heard,
            parent: Some((pc, 2)),
            child: None,
            code: Some([0x73, 0, 0, 0]),
            outside: None,
        };
        assert_same(&rt, seen_at(&rt, &entries, until)?, wanted);
    }
    Ok(())
}

#[test]
fn a_delivery_to_come_is_not_seen(rt: HostRuntime) -> Result<(), Fail> {
    let entries = history(rt.alloc())?;
    let state = group_at(&rt, &entries, 1, 0)?;
    assert_same(&rt, pc_and_x10(&state, 1), Some((0x1_0000, 0x5_0000)));
    Ok(())
}

// The program counter of the only process that lives, where it has this number.
fn pc_alone(state: GroupState, pid: u32) -> Option<u64> {
    if state.live() != [pid].as_slice() {
        return None;
    }
    Some(state.cpu(pid)?.pc)
}

// Where a group's only process stands at a moment, if it has the group's number.
fn stands_at(
    rt: &impl Abort,
    entries: &Vec<Record>,
    group: u32,
    until: u64,
) -> Result<Option<u64>, Fail> {
    Ok(pc_alone(group_at(rt, entries, group, until)?, group))
}

#[test]
fn a_moment_lies_in_a_slice(rt: HostRuntime) -> Result<(), Fail> {
    let entries = with(started(rt.alloc(), LOOP)?, slice(1, 4))?;
    let stands = stands_at(&rt, &entries, 1, 3)?;
    assert_same(&rt, stands, Some(0x1_0004));
    Ok(())
}

#[test]
fn a_child_begins_as_its_fork_tells(rt: HostRuntime) -> Result<(), Fail> {
    let entries = forked(rt.alloc(), ASKS, 2)?;
    let stands = stands_at(&rt, &entries, 2, 2)?;
    assert_same(&rt, stands, Some(0x1_0040));
    Ok(())
}

#[test]
fn a_child_to_come_does_not_live(rt: HostRuntime) -> Result<(), Fail> {
    let entries = forked(rt.alloc(), ASKS, 2)?;
    let state = group_at(&rt, &entries, 2, 1)?;
    assert_same(&rt, state.live().len(), 0);
    Ok(())
}

// Both groups run in turn, and process 2 takes a signal at moment 4, and dies by one at moment 8.
fn in_turn(alloc: Global) -> Result<Vec<Record>, NoMemory> {
    let entries = with(forked(alloc, FORKS, 2)?, slice(1, 2))?;
    let entries = with(entries, slice(2, 0))?;
    let entries = with(entries, signal(2, 0x1_0100))?;
    let entries = with(entries, slice(1, 4))?;
    let entries = with(entries, slice(2, 0))?;
    with(entries, signal(2, 0))
}

#[test]
fn groups_run_in_turn(rt: HostRuntime) -> Result<(), Fail> {
    let entries = in_turn(rt.alloc())?;
    // The group, the moment, and where its only process stands then.
    for (group, until, pc) in [
        (1, 5, Some(0x1_000c)),
        (2, 3, Some(0x1_0040)),
        (2, 5, Some(0x1_0100)),
        (2, 8, None),
    ] {
        assert_same(&rt, stands_at(&rt, &entries, group, until)?, pc);
    }
    Ok(())
}

// Why a replay of group 1 fails up to a moment.
fn refusal(
    rt: &impl Abort,
    entries: Vec<Record>,
    until: u64,
) -> Result<Option<ReplayError>, IndexError> {
    let mut heard = NOTHING_HEARD;
    Ok(replayed(rt, &entries, 1, until, &mut heard)?.err())
}

fn disagrees(event: u64, said: u64, found: u64) -> Option<ReplayError> {
    Some(ReplayError::Disagrees(Disagrees { event, said, found }))
}

#[test]
fn a_slice_runs_no_call(rt: HostRuntime) -> Result<(), Fail> {
    let entries = with(history(rt.alloc())?, slice(1, 2))?;
    let refused = refusal(&rt, entries, 4)?;
    assert_same(&rt, refused, disagrees(3, 2, 0));
    Ok(())
}

// Process 1 runs so many instructions, behind which this record stands.
fn ended(alloc: Global, ran: u32, last: Record) -> Result<Vec<Record>, NoMemory> {
    with(with(started(alloc, ASKS)?, slice(1, ran))?, last)
}

#[test]
fn a_call_stands_at_an_ecall(rt: HostRuntime) -> Result<(), Fail> {
    let entries = ended(rt.alloc(), 1, call(1, 9, 0, Extra::Nothing))?;
    let refused = refusal(&rt, entries, 1)?;
    assert_same(&rt, refused, disagrees(2, 9, u64::MAX));
    Ok(())
}

#[test]
fn a_call_has_the_number_of_its_register(rt: HostRuntime) -> Result<(), Fail> {
    let entries = ended(rt.alloc(), 2, call(1, 9, 0, Extra::Nothing))?;
    let refused = refusal(&rt, entries, 2)?;
    assert_same(&rt, refused, disagrees(2, 9, 0));
    Ok(())
}

#[test]
fn an_end_stands_at_a_fault(rt: HostRuntime) -> Result<(), Fail> {
    let entries = ended(rt.alloc(), 1, Record::End { pid: 1, status: 5 })?;
    let refused = refusal(&rt, entries, 1)?;
    assert_same(&rt, refused, disagrees(2, 5, 256));
    Ok(())
}
