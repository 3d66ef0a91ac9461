// Sessions whose words, sources and sinks are refused or fail.
use crate::same::assert_same;
use arn_base::{Bytes, Disk, NoMemory};
use arn_session::Status;
use log_disk::MemDisk;
use session_trials::{Script, run, run_on};
use std::alloc::Global;
use std::process::Abort;
use std::test::Fail;

/// A line or a block, without its last LF, and what is printed for it.
type Exchange = (&'static str, &'static str);

/// A session in which lines and blocks are refused, a machine stalls, goes on, spends a budget and
/// ends, and queries ask about each of its events.
///
/// The program in `good` reads three bytes from the console, writes them to it and exits.
const EXCHANGES: &[Exchange] = &[
    ("# nothing is booted yet", ""),
    ("", ""),
    ("run 5", "no boot\n"),
    ("back copy event 0 0 0", "no point\n"),
    ("type 61", "no boot\n"),
    ("boot bad", "no name\n"),
    ("file bad 00", "event 0\n"),
    ("file bad 00", "no name\n"),
    ("asm bad\n ecall\nend", "no name\n"),
    ("asm bad\n ecall\nfile good 00\nend", "no asm 2\n"),
    ("boot bad", "no image\n"),
    ("hello", "no line\n"),
    (
        "file good 41524e494d473031000001000000000000000100000000009308b00013050000930501ff\
        13063000730000009308c0001305100073000000930810001305000073000000",
        "event 1\n",
    ),
    ("boot good", "event 2\n"),
    ("boot good", "no booted\n"),
    ("file other 00", "no booted\n"),
    ("asm other\n bogus\nend", "no booted\n"),
    ("run 0", "ran 0 budget\n"),
    ("run 100", "ran 4 stalled\n"),
    ("type 616263", "event 3\n"),
    ("run 3", "ran 3 budget\n"),
    ("run 100", "out 5 1 616263\nran 4 done\n"),
    ("run 5", "ran 0 done\n"),
    (
        "back copy event 5 0 3",
        "pair 3 0 0\npair 3 1 1\npair 3 2 2\nback pairs 3 instructions 11 groups 1\n",
    ),
    (
        "back copy event 4 1 1",
        "pair 3 1 0\nback pairs 1 instructions 11 groups 1\n",
    ),
    (
        "back copy event 3 1 2",
        "pair 3 1 0\npair 3 2 1\nback pairs 2 instructions 0 groups -\n",
    ),
    (
        "back copy event 2 24 1",
        "pair 1 24 0\nback pairs 1 instructions 11 groups 1\n",
    ),
    (
        "back copy event 6 0 1",
        "back pairs 0 instructions 11 groups 1\n",
    ),
    (
        "back copy event 5 3 0",
        "back pairs 0 instructions 11 groups 1\n",
    ),
    ("back copy event 5 0 4", "no point\n"),
    ("back copy event 5 4 0", "no point\n"),
    ("back copy event 7 0 0", "no point\n"),
    ("back copy event 7 0", "no line\n"),
];

/// A session that types before it runs, then asks where the output came from.
pub const TYPED: &str = "\
    file p 41524e494d473031000001000000000000000100000000009308b00013050000930501ff1306300073000000\
    9308c0001305100073000000930810001305000073000000\n\
    boot p\n\
    type 616263\n\
    run 100\n\
    back copy event 4 0 3\n";

/// How many bytes a failing source gives at once, so that it is called often.
const PIECE: usize = 7;

/// All the lines and blocks, each with its last LF.
fn text_of(alloc: Global, exchanges: &[Exchange]) -> Result<String, NoMemory> {
    let mut text = String::new(alloc);
    for (line, _) in exchanges {
        text.push_str(line)?;
        text.push('\n')?;
    }
    Ok(text)
}

/// What is printed for the lines and blocks that lie with their last LF in so many bytes of the text.
fn printed_within(alloc: Global, exchanges: &[Exchange], len: usize) -> Result<String, NoMemory> {
    let mut printed = String::new(alloc);
    let mut left = len;
    for (line, answer) in exchanges {
        if left <= line.len() {
            break;
        }
        left -= line.len() + 1;
        printed.push_str(answer)?;
    }
    Ok(printed)
}

/// A session with these words over the log of a disk ends so, and prints this.
fn assert_ends<D: Disk>(
    rt: &(impl Abort + AllocGlobal),
    disk: &mut D,
    words: &[&str],
    script: &Script,
    wanted: (Status, &str),
) -> Result<(), NoMemory> {
    let ended = run_on(rt.alloc(), words, script, disk)?;
    let (status, printed) = wanted;
    assert_same(
        rt,
        (script.source_fails, ended.status, ended.sink.bytes()),
        (script.source_fails, status, printed.as_bytes()),
    );
    Ok(())
}

/// A session over a fresh log ends so, and prints this.
fn assert_fresh(
    rt: &(impl Abort + AllocGlobal),
    script: &Script,
    wanted: (Status, &str),
) -> Result<(), NoMemory> {
    let mut disk = MemDisk::new(rt.alloc(), Bytes::new(rt.alloc()));
    assert_ends(rt, &mut disk, &["log"], script, wanted)
}

/// How many bytes a source gives at once.
const PIECES: [usize; 5] = [1, 2, 3, 7, 4_096];

/// This is printed for the text, whatever pieces the source gives it in.
fn assert_prints(
    rt: &(impl Abort + AllocGlobal),
    text: &str,
    printed: &str,
) -> Result<(), NoMemory> {
    for piece in PIECES {
        let script = Script {
            piece,
            ..Script::of(text.as_bytes())
        };
        assert_fresh(rt, &script, (Status::Done, printed))?;
    }
    Ok(())
}

fn assert_each_line(rt: &(impl Abort + AllocGlobal)) -> Result<(), NoMemory> {
    let text = text_of(rt.alloc(), EXCHANGES)?;
    let printed = printed_within(rt.alloc(), EXCHANGES, text.len())?;
    assert_prints(rt, text.as_str(), printed.as_str())
}

#[test]
fn prints_the_answer_to_each_line(rt: HostRuntime) -> Result<(), Fail> {
    Ok(assert_each_line(&rt)?)
}

/// Words that aren't accepted.
const REFUSED: [&[&str]; 3] = [&[], &["--log"], &["log", "log"]];

/// Neither the source nor the sink is asked for anything, and the disk is left alone.
fn assert_refused(
    rt: &(impl Abort + AllocGlobal),
    disk: &mut MemDisk,
    words: &[&str],
) -> Result<(), NoMemory> {
    let script = Script {
        source_fails: &[0],
        sink_fails: &[0],
        ..Script::of(TYPED.as_bytes())
    };
    assert_ends(rt, disk, words, &script, (Status::Usage, ""))?;
    assert_same(rt, (words, disk.bytes()), (words, b"junk".as_slice()));
    Ok(())
}

fn assert_other_words(rt: &(impl Abort + AllocGlobal)) -> Result<(), NoMemory> {
    let junk = Bytes::from_slice(rt.alloc(), b"junk")?;
    let mut disk = MemDisk::new(rt.alloc(), junk);
    for words in REFUSED {
        assert_refused(rt, &mut disk, words)?;
    }
    Ok(())
}

#[test]
fn refuses_other_words(rt: HostRuntime) -> Result<(), Fail> {
    Ok(assert_other_words(&rt)?)
}

/// Where this call of the source fails, the lines are answered that the calls before gave. The call behind
/// the last bytes says that the text has ended, and none is made behind it.
fn assert_given(rt: &(impl Abort + AllocGlobal), text: &str, call: u32) -> Result<(), NoMemory> {
    let given = call as usize * PIECE;
    let status = if given.saturating_sub(PIECE) >= text.len() {
        Status::Done
    } else {
        Status::Source
    };
    let printed = printed_within(rt.alloc(), EXCHANGES, given)?;
    let script = Script {
        piece: PIECE,
        source_fails: &[call],
        ..Script::of(text.as_bytes())
    };
    assert_fresh(rt, &script, (status, printed.as_str()))
}

fn assert_all_given(rt: &(impl Abort + AllocGlobal)) -> Result<(), NoMemory> {
    let text = text_of(rt.alloc(), EXCHANGES)?;
    let pieces = u32::try_from(text.len() / PIECE).unwrap_or(u32::MAX);
    for call in 0..pieces.saturating_add(3) {
        assert_given(rt, text.as_str(), call)?;
    }
    Ok(())
}

#[test]
fn answers_what_a_failing_source_gave(rt: HostRuntime) -> Result<(), Fail> {
    Ok(assert_all_given(&rt)?)
}

/// The source gives ten bytes at once: a line with its LF, and then parts of a block.
fn assert_block(rt: &(impl Abort + AllocGlobal), call: u32) -> Result<(), NoMemory> {
    let script = Script {
        piece: 10,
        source_fails: &[call],
        ..Script::of(b"file q 00\nasm p\nli a0, 0\nend")
    };
    assert_fresh(rt, &script, (Status::Source, "event 0\n"))
}

#[test]
fn a_source_fails_within_a_block(rt: HostRuntime) -> Result<(), Fail> {
    for call in 1..4 {
        assert_block(&rt, call)?;
    }
    Ok(())
}

/// Whether the text was answered to its end where this call of the sink fails. Else the sink holds
/// the first bytes of what is printed, and at least one for each call before.
fn ends_at_sink(
    rt: &(impl Abort + AllocGlobal),
    text: &str,
    printed: &[u8],
    call: u32,
) -> Result<bool, NoMemory> {
    let script = Script {
        sink_fails: &[call],
        ..Script::of(text.as_bytes())
    };
    let ended = run(rt.alloc(), &["log"], &script)?;
    let held = ended.sink.bytes();
    let is_done = held == printed;
    let status = if is_done { Status::Done } else { Status::Sink };
    assert_same(
        rt,
        (
            call,
            ended.status,
            held.len() >= call as usize,
            printed.starts_with(held),
        ),
        (call, status, true, true),
    );
    Ok(is_done)
}

/// No session here asks its sink so often.
const MOST_CALLS: u32 = 1_000;

/// The first call of the sink whose failure doesn't end the session, since it isn't made.
fn sink_calls(
    rt: &(impl Abort + AllocGlobal),
    text: &str,
    printed: &[u8],
) -> Result<u32, NoMemory> {
    let mut calls = MOST_CALLS;
    for call in 0..MOST_CALLS {
        if calls == MOST_CALLS && ends_at_sink(rt, text, printed, call)? {
            calls = call;
        }
    }
    Ok(calls)
}

/// A sink that failed isn't asked again.
fn assert_held(rt: &(impl Abort + AllocGlobal)) -> Result<(), NoMemory> {
    let text = text_of(rt.alloc(), EXCHANGES)?;
    let printed = printed_within(rt.alloc(), EXCHANGES, text.len())?;
    let calls = sink_calls(rt, text.as_str(), printed.as_bytes())?;
    assert_same(rt, 0 < calls && calls < MOST_CALLS, true);
    Ok(())
}

#[test]
fn a_failing_sink_holds_what_came_before(rt: HostRuntime) -> Result<(), Fail> {
    Ok(assert_held(&rt)?)
}

/// A source that fails at its first call leaves a fresh log.
fn assert_unread(rt: &(impl Abort + AllocGlobal)) -> Result<(), NoMemory> {
    let mut disk = MemDisk::new(rt.alloc(), Bytes::new(rt.alloc()));
    let script = Script {
        source_fails: &[0],
        ..Script::of(TYPED.as_bytes())
    };
    assert_ends(rt, &mut disk, &["log"], &script, (Status::Source, ""))?;
    assert_same(rt, disk.bytes(), b"ARNLOG01\0".as_slice());
    Ok(())
}

#[test]
fn a_source_that_fails_at_once_leaves_a_fresh_log(rt: HostRuntime) -> Result<(), Fail> {
    Ok(assert_unread(&rt)?)
}

/// What is asked of the log that a sink leaves which fails at its first call: the file is there whose
/// answer was lost, and nothing else.
const LOST: &str = "verify\nevents\nshow 0 file p\n";

const LOST_PRINTS: &str = "\
    verify run\n\
    event 0 0 - file 68\n\
    events 1\n\
    file 41524e494d473031000001000000000000000100000000009308b00013050000930501ff1306300073000000\
    9308c0001305100073000000930810001305000073000000\n";

fn assert_lost(rt: &(impl Abort + AllocGlobal)) -> Result<(), NoMemory> {
    let mut disk = MemDisk::new(rt.alloc(), Bytes::new(rt.alloc()));
    let script = Script {
        sink_fails: &[0],
        ..Script::of(TYPED.as_bytes())
    };
    assert_ends(rt, &mut disk, &["log"], &script, (Status::Sink, ""))?;
    let asked = Script::of(LOST.as_bytes());
    let wanted = (Status::Done, LOST_PRINTS);
    assert_ends(rt, &mut disk, &["log"], &asked, wanted)
}

#[test]
fn a_sink_that_fails_at_once_leaves_the_first_record(rt: HostRuntime) -> Result<(), Fail> {
    Ok(assert_lost(&rt)?)
}
