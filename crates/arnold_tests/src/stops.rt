// Disks that fail at each call of a session in turn, and then at each call of the session that follows.
use crate::same::assert_same;
use crate::streams::TYPED;
use arn_base::{Bytes, NoMemory, Numbers, Record};
use arn_session::Status;
use log_disk::{FuseDisk, MemDisk};
use log_store::{OpenError, Store};
use session_trials::{Ended, Script, run_on};
use std::alloc::Global;
use std::process::Abort;
use std::test::Fail;

/// A stop: what the bytes become that it may change, which is what is read there or one byte, and
/// whether it leaves the shortest log that it may leave.
type Stop = (Option<u8>, bool);

const STOPS: [Stop; 8] = [
    (None, false),
    (None, true),
    (Some(0), false),
    (Some(0), true),
    (Some(1), false),
    (Some(1), true),
    (Some(0xff), false),
    (Some(0xff), true),
];

/// What is printed for `TYPED`. The first three commits print a line each, and the fourth two.
const TYPED_PRINTS: &str = "\
    event 0\n\
    event 1\n\
    event 2\n\
    out 4 1 616263\n\
    ran 11 done\n\
    pair 2 0 0\n\
    pair 2 1 1\n\
    pair 2 2 2\n\
    back pairs 3 instructions 11 groups 1\n";

/// A client sends what was typed to a server, which writes it to a file and to the console.
const SERVED: &str = "\
    asm p\n\
    li a7, 18; li a0, 80; ecall\n\
    li a7, 2; ecall; beq a0, zero, client\n\
    li a7, 20; li a0, 3; ecall\n\
    li a7, 11; li a0, 4; addi a1, sp, -16; li a2, 3; ecall\n\
    la a0, path; li a1, 3; li a2, 1; li a7, 9; ecall\n\
    li a7, 12; li a0, 5; addi a1, sp, -16; li a2, 3; ecall\n\
    li a0, 1; ecall\n\
    quit: ; li a7, 1; li a0, 0; ecall\n\
    client: ; li a7, 19; li a0, 80; ecall\n\
    li a7, 11; li a0, 0; addi a1, sp, -16; li a2, 3; ecall\n\
    li a7, 12; li a0, 4; ecall; j quit\n\
    path: ; .byte 108, 111, 103\n\
    end\n\
    boot p\n\
    type 616263\n\
    run 1000\n\
    forth copy 2 0 3\n\
    back copy name 46 log 0 3\n";

const SERVED_PRINTS: &str = "\
    event 0\n\
    event 1\n\
    event 2\n\
    out 13 1 616263\n\
    ran 46 done\n\
    pair 12 0 0\n\
    pair 13 0 0\n\
    pair 12 1 1\n\
    pair 13 1 1\n\
    pair 12 2 2\n\
    pair 13 2 2\n\
    forth pairs 6 instructions 46 groups 1 2\n\
    pair 2 0 0\n\
    pair 2 1 1\n\
    pair 2 2 2\n\
    back pairs 3 instructions 46 groups 1 2\n";

/// Sessions of four commits, and what is printed for each.
const SESSIONS: &[(&str, &str)] = &[(TYPED, TYPED_PRINTS), (SERVED, SERVED_PRINTS)];

/// The first three commits have one record each, and the fourth has all the others.
fn count_in(commits: usize, all: usize) -> usize {
    if commits < 4 { commits } else { all }
}

/// A disk of these bytes of which one call fails.
fn failing_disk(alloc: Global, bytes: &[u8], call: u32) -> Result<FuseDisk, NoMemory> {
    let mut fails = Numbers::new(alloc);
    fails.push(call)?;
    Ok(FuseDisk::new(alloc, Bytes::from_slice(alloc, bytes)?, fails))
}

/// No session makes so many calls of its disk.
const NO_CALL: u32 = u32::MAX;

/// How a session ended, and its disk.
#[derive(Drop)]
struct Trial {
    ended: Ended,
    disk: FuseDisk,
}

/// Runs a session over these bytes, on a disk of which this call fails.
fn tried(alloc: Global, bytes: &[u8], text: &str, call: u32) -> Result<Trial, NoMemory> {
    let mut disk = failing_disk(alloc, bytes, call)?;
    let ended = run_on(alloc, &["log"], &Script::of(text.as_bytes()), &mut disk)?;
    Ok(Trial { ended, disk })
}

/// A session ended so, and printed this.
fn assert_ended(rt: &impl Abort, call: u32, ended: &Ended, status: Status, printed: &str) {
    assert_same(
        rt,
        (call, ended.status, ended.sink.bytes()),
        (call, status, printed.as_bytes()),
    );
}

/// The log that a session leaves where no call fails.
fn recorded(alloc: Global, text: &str) -> Result<Store, OpenError> {
    let mut disk = MemDisk::new(alloc, Bytes::new(alloc));
    let _ended = run_on(alloc, &["log"], &Script::of(text.as_bytes()), &mut disk)?;
    Store::open_log(alloc, &mut disk)
}

/// How many records there are, where they are the first ones of these.
fn count_first(found: &[Record], whole: &[Record]) -> Option<usize> {
    if whole.get(..found.len())? == found {
        Some(found.len())
    } else {
        None
    }
}

/// How many records the log of these bytes has, where they are the first ones of these.
fn count(alloc: Global, bytes: &[u8], whole: &[Record]) -> Result<Option<usize>, OpenError> {
    let mut disk = MemDisk::new(alloc, Bytes::from_slice(alloc, bytes)?);
    let log = Store::open_log(alloc, &mut disk)?;
    Ok(count_first(log.entries(), whole))
}

/// The bytes that a stop leaves of a disk.
fn left(alloc: Global, disk: &FuseDisk, stop: Stop) -> Result<Bytes, NoMemory> {
    let (fill, short) = stop;
    disk.crash_with(alloc, fill, short)
}

/// Each stop leaves so many records on this disk, the first ones of these.
fn assert_stays(
    rt: &(impl Abort + AllocGlobal),
    disk: &FuseDisk,
    whole: &[Record],
    records: Option<usize>,
) -> Result<(), OpenError> {
    for stop in STOPS {
        let bytes = left(rt.alloc(), disk, stop)?;
        let found = count(rt.alloc(), bytes.as_slice(), whole)?;
        assert_same(rt, (stop, found), (stop, records));
    }
    Ok(())
}

/// Whether a session over these bytes is answered where this call of the disk fails. Each stop leaves
/// as many records then as there were.
fn opens(
    rt: &(impl Abort + AllocGlobal),
    bytes: &[u8],
    whole: &[Record],
    records: Option<usize>,
    call: u32,
) -> Result<bool, OpenError> {
    let next = tried(rt.alloc(), bytes, "verify\n", call)?;
    let is_open = next.ended.status == Status::Done;
    let (status, printed) = if is_open {
        (Status::Done, "verify run\n")
    } else {
        (Status::Disk, "")
    };
    assert_ended(rt, call, &next.ended, status, printed);
    assert_stays(rt, &next.disk, whole, records)?;
    Ok(is_open)
}

/// The records stay, whichever call of the next session's opening fails.
fn assert_opens(
    rt: &(impl Abort + AllocGlobal),
    bytes: &[u8],
    whole: &[Record],
    records: Option<usize>,
) -> Result<(), OpenError> {
    let mut is_open = false;
    for call in 0..MOST_CALLS {
        if !is_open {
            is_open = opens(rt, bytes, whole, records, call)?;
        }
    }
    assert_same(rt, is_open, true);
    Ok(())
}

/// The log of these bytes, which a stop left behind so many printed lines, has the records of what
/// these answer, and perhaps those of one commit more. It stays so, and a session goes on with it.
fn assert_holds(
    rt: &(impl Abort + AllocGlobal),
    bytes: &[u8],
    whole: &[Record],
    lines: usize,
) -> Result<(), OpenError> {
    let found = count(rt.alloc(), bytes, whole)?;
    let more = Some(count_in(lines.saturating_add(1), whole.len()));
    if found != more {
        assert_same(rt, found, Some(count_in(lines, whole.len())));
    }
    let next = tried(rt.alloc(), bytes, "run 0\n", NO_CALL)?;
    assert_same(rt, next.ended.status, Status::Done);
    assert_opens(rt, bytes, whole, found)
}

/// Each log holds that a stop leaves on this disk behind so many printed lines.
fn assert_all_hold(
    rt: &(impl Abort + AllocGlobal),
    disk: &FuseDisk,
    whole: &[Record],
    lines: usize,
) -> Result<(), OpenError> {
    for stop in STOPS {
        let bytes = left(rt.alloc(), disk, stop)?;
        assert_holds(rt, bytes.as_slice(), whole, lines)?;
    }
    Ok(())
}

/// The first lines of a text, each with its LF.
fn first_lines(alloc: Global, text: &str, count: usize) -> Result<String, NoMemory> {
    let mut first = String::new(alloc);
    for line in text.lines().take(count) {
        first.push_str(line)?;
        first.push('\n')?;
    }
    Ok(first)
}

/// Whether a session is answered to its end where this call of the disk fails. The opening takes four
/// calls, and so does each commit, of which the first three print a line each.
fn ends(
    rt: &(impl Abort + AllocGlobal),
    session: (&str, &str),
    whole: &[Record],
    call: u32,
) -> Result<bool, OpenError> {
    let (text, prints) = session;
    let first = tried(rt.alloc(), b"", text, call)?;
    let is_done = first.ended.status == Status::Done;
    let (status, lines) = if is_done {
        (Status::Done, usize::MAX)
    } else {
        (Status::Disk, (call / 4).saturating_sub(1) as usize)
    };
    let printed = first_lines(rt.alloc(), prints, lines)?;
    assert_ended(rt, call, &first.ended, status, printed.as_str());
    assert_all_hold(rt, &first.disk, whole, lines)?;
    Ok(is_done)
}

/// The opening and three commits take so many calls of the disk at least, and no session here takes
/// as many as the other number.
const LEAST_CALLS: u32 = 16;

const MOST_CALLS: u32 = 1_000;

/// The first call of the disk whose failure doesn't end a session, since it isn't made.
fn disk_calls(
    rt: &(impl Abort + AllocGlobal),
    session: (&str, &str),
    whole: &[Record],
) -> Result<u32, OpenError> {
    let mut calls = MOST_CALLS;
    for call in 0..MOST_CALLS {
        if calls == MOST_CALLS && ends(rt, session, whole, call)? {
            calls = call;
        }
    }
    Ok(calls)
}

/// Each call of the disk fails in turn, the machine stops, and then each call of the next opening fails.
/// A disk that failed isn't asked again.
fn assert_stops(rt: &(impl Abort + AllocGlobal), session: (&str, &str)) -> Result<(), OpenError> {
    let (text, _) = session;
    let whole = recorded(rt.alloc(), text)?;
    let calls = disk_calls(rt, session, whole.entries())?;
    assert_same(rt, LEAST_CALLS <= calls && calls < MOST_CALLS, true);
    Ok(())
}

fn assert_all_stop(rt: &(impl Abort + AllocGlobal)) -> Result<(), OpenError> {
    for session in SESSIONS {
        assert_stops(rt, *session)?;
    }
    Ok(())
}

#[test]
fn a_failing_disk_keeps_what_was_printed(rt: HostRuntime) -> Result<(), Fail> {
    Ok(assert_all_stop(&rt)?)
}

/// Writes 65,536 zeros to the console five times, and exits.
const WRITES: &str = "\
    asm p\n\
    li s0, 5\n\
    again: ; li a7, 12; li a0, 1; lui a1, 32; lui a2, 16; ecall\n\
    addi s0, s0, -1; bne s0, zero, again\n\
    li a7, 1; li a0, 0; ecall\n\
    end\n\
    boot p\n\
    run 100\n";

const WRITTEN: usize = 65_536;

/// What is printed for a write.
fn push_write(text: &mut String, event: u32) -> Result<(), NoMemory> {
    write!(text, "out {event} 1 ")?;
    for _ in 0..WRITTEN {
        text.push_str("00")?;
    }
    Ok(text.push('\n')?)
}

/// What is printed before, for the writes of these events, and behind them.
fn told_writes(
    alloc: Global,
    before: &str,
    events: &[u32],
    behind: &str,
) -> Result<String, NoMemory> {
    let mut text = String::from_str(alloc, before)?;
    for event in events {
        push_write(&mut text, *event)?;
    }
    text.push_str(behind)?;
    Ok(text)
}

/// The opening takes four calls of the disk, and so does each commit: the file, the boot, the leg of
/// four writes and that of the fifth, which fails at its first call.
const FIFTH_WRITE: u32 = 16;

/// What a stop leaves where the second leg's commit fails: the first leg, which was printed.
fn first_leg(rt: &(impl Abort + AllocGlobal)) -> Result<Bytes, NoMemory> {
    let printed = told_writes(rt.alloc(), "event 0\nevent 1\n", &[2, 3, 4, 5], "")?;
    let first = tried(rt.alloc(), b"", WRITES, FIFTH_WRITE)?;
    assert_ended(
        rt,
        FIFTH_WRITE,
        &first.ended,
        Status::Disk,
        printed.as_str(),
    );
    left(rt.alloc(), &first.disk, (Some(1), false))
}

/// The next session runs the second leg: 12 instructions, of which the seventh is the write.
fn assert_second_leg(rt: &(impl Abort + AllocGlobal), bytes: &[u8]) -> Result<(), NoMemory> {
    let printed = told_writes(rt.alloc(), "", &[6], "ran 12 done\n")?;
    let next = tried(rt.alloc(), bytes, "run 100\n", NO_CALL)?;
    assert_ended(rt, NO_CALL, &next.ended, Status::Done, printed.as_str());
    Ok(())
}

/// The records of the first leg are a slice and a call for each write, behind the file and the boot.
fn assert_first_leg(rt: &(impl Abort + AllocGlobal), bytes: &[u8]) -> Result<(), OpenError> {
    let whole = recorded(rt.alloc(), WRITES)?;
    let records = count(rt.alloc(), bytes, whole.entries())?;
    assert_same(rt, records, Some(10));
    Ok(())
}

fn assert_legs(rt: &(impl Abort + AllocGlobal)) -> Result<(), OpenError> {
    let bytes = first_leg(rt)?;
    assert_first_leg(rt, bytes.as_slice())?;
    Ok(assert_second_leg(rt, bytes.as_slice())?)
}

#[test]
fn a_leg_is_kept_where_the_next_one_fails(rt: HostRuntime) -> Result<(), Fail> {
    Ok(assert_legs(&rt)?)
}
