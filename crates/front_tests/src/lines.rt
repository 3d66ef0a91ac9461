use crate::same::assert_same;
use arn_base::{NoMemory, Pair};
use arn_lines::{
    Aspect, Line, LineReading, MOST_LINE, Question, Refusal, RunEnd, Sought, block_name, push_back,
    push_damaged, push_event, push_forth, push_out, push_pair, push_ran, push_refusal, read_line,
};
use rv64_model::Linkage;
use std::alloc::{AllocError, Global};
use std::process::Abort;

// A reading as text, with the bytes of words as lists of numbers.
fn shown(alloc: Global, reading: &LineReading) -> Result<String, AllocError> {
    match reading {
        LineReading::PassedOver => format!(in alloc; "passed over"),
        LineReading::TooLong => format!(in alloc; "too long"),
        LineReading::Unreadable => format!(in alloc; "unreadable"),
        LineReading::Says { line } => shown_line(alloc, line),
        LineReading::Generates { seed, processes } => {
            format!(in alloc; "generates {seed} {processes}")
        }
    }
}

fn shown_line(alloc: Global, line: &Line) -> Result<String, AllocError> {
    match line {
        Line::File { name, bytes } => {
            format!(in alloc; "file {:?} {:?}", name.as_slice(), bytes.as_slice())
        }
        Line::Boot { name } => format!(in alloc; "boot {:?}", name.as_slice()),
        Line::Type { bytes } => format!(in alloc; "type {:?}", bytes.as_slice()),
        Line::Run { count } => format!(in alloc; "run {count}"),
        Line::Unplug { device } => format!(in alloc; "unplug {device}"),
        Line::Asks { question } => shown_question(alloc, question),
    }
}

fn shown_question(alloc: Global, question: &Question) -> Result<String, AllocError> {
    match question {
        Question::Show { moment, aspect } => {
            let aspect = shown_aspect(alloc, aspect)?;
            format!(in alloc; "show {moment} {aspect}")
        }
        Question::Back { linkage, sought } => {
            let linkage = linkage_word(*linkage);
            let sought = shown_sought(alloc, sought)?;
            format!(in alloc; "back {linkage} {sought}")
        }
        Question::Forth {
            linkage,
            event,
            from,
            len,
        } => {
            let linkage = linkage_word(*linkage);
            format!(in alloc; "forth {linkage} {event} {from} {len}")
        }
        Question::Groups => format!(in alloc; "groups"),
        Question::Events => format!(in alloc; "events"),
        Question::Verify => format!(in alloc; "verify"),
    }
}

fn shown_aspect(alloc: Global, aspect: &Aspect) -> Result<String, AllocError> {
    match aspect {
        Aspect::Registers { pid } => format!(in alloc; "registers of {pid}"),
        Aspect::Memory { pid, at, len } => format!(in alloc; "{len} bytes at {at} of {pid}"),
        Aspect::File { name } => format!(in alloc; "file {:?}", name.as_slice()),
        Aspect::Processes => format!(in alloc; "processes"),
    }
}

fn shown_sought(alloc: Global, sought: &Sought) -> Result<String, AllocError> {
    match sought {
        Sought::Event { event, from, len } => {
            format!(in alloc; "{len} bytes from {from} of event {event}")
        }
        Sought::Memory {
            moment,
            pid,
            at,
            len,
        } => format!(in alloc; "{len} bytes at {at} of {pid} at moment {moment}"),
        Sought::Register {
            moment,
            pid,
            register,
        } => format!(in alloc; "register {register} of {pid} at moment {moment}"),
        Sought::Name {
            moment,
            name,
            from,
            len,
        } => {
            let name = name.as_slice();
            format!(in alloc; "{len} bytes from {from} of file {name:?} at moment {moment}")
        }
    }
}

fn linkage_word(linkage: Linkage) -> &'static str {
    match linkage {
        Linkage::Copy => "copy",
        Linkage::Data => "data",
        Linkage::Index => "index",
    }
}

/// These are the readings of these lines.
fn assert_readings(
    rt: &(impl Abort + AllocGlobal),
    cases: &[(&str, &str)],
) -> Result<(), NoMemory> {
    for (line, wanted) in cases {
        let reading = read_line(rt.alloc(), line.as_bytes())?;
        let found = shown(rt.alloc(), &reading)?;
        assert_same(rt, (*line, found.as_str()), (*line, *wanted));
    }
    Ok(())
}

/// Lines, and what is read of each.
const LINES: &[(&str, &str)] = &[
    ("", "passed over"),
    ("#x", "passed over"),
    (" #x", "unreadable"),
    ("hello", "unreadable"),
    ("file p 00", "file [112] [0]"),
    ("file p -", "file [112] []"),
    ("file p 0", "unreadable"),
    ("file p 0g", "unreadable"),
    ("file p ", "unreadable"),
    ("file p", "unreadable"),
    ("file  p 00", "unreadable"),
    ("file p  00", "unreadable"),
    ("file p 00 ", "unreadable"),
    ("file p 00\r", "unreadable"),
    ("file p\t 00", "unreadable"),
    ("FILE p 00", "unreadable"),
    ("boot p", "boot [112]"),
    ("boot -", "boot [45]"),
    ("boot", "unreadable"),
    ("boot ", "unreadable"),
    ("boot p q", "unreadable"),
    ("boot \x7f", "unreadable"),
    ("boot !~", "boot [33, 126]"),
    ("type AbcD", "type [171, 205]"),
    ("type -", "type []"),
    ("type --", "unreadable"),
    ("type 616", "unreadable"),
    ("run 0", "run 0"),
    ("run 1000000000", "run 1000000000"),
    ("run 1000000001", "unreadable"),
    ("run 01", "unreadable"),
    ("run 0x1F", "run 31"),
    ("run 0x000000000000001f", "run 31"),
    ("run 0x0000000000000001f", "unreadable"),
    ("run 0x", "unreadable"),
    ("run 0X1", "unreadable"),
    ("run 1f", "unreadable"),
    ("run +5", "unreadable"),
    ("run -5", "unreadable"),
    ("unplug 0", "unplug 0"),
    ("unplug 0x1F", "unplug 31"),
    ("unplug 1000000001", "unplug 1000000001"),
    ("unplug 18446744073709551615", "unplug 18446744073709551615"),
    ("unplug 18446744073709551616", "unreadable"),
    ("unplug 01", "unreadable"),
    ("unplug", "unreadable"),
    ("unplug ", "unreadable"),
    ("unplug  1", "unreadable"),
    ("unplug 1 ", "unreadable"),
    ("unplug 1 2", "unreadable"),
    ("Unplug 1", "unreadable"),
    ("asm p", "unreadable"),
    ("asm ", "unreadable"),
    ("asm", "unreadable"),
];

/// Lines of the generator, and what is read of each.
const GENERATORS: &[(&str, &str)] = &[
    ("gen 7 12", "generates 7 12"),
    ("gen 0xff 0x20", "generates 255 32"),
    ("gen 7 0", "unreadable"),
    ("gen 7 33", "unreadable"),
    ("gen 07 1", "unreadable"),
    ("gen 7", "unreadable"),
    ("gen  7 1", "unreadable"),
    ("gen 7 1 ", "unreadable"),
];

/// Questions, and what is read of each.
const QUESTIONS: &[(&str, &str)] = &[
    ("show 7 regs 2", "show 7 registers of 2"),
    (
        "show 7 regs 1099511627776",
        "show 7 registers of 1099511627776",
    ),
    ("show 7 mem 2 0x10000 16", "show 7 16 bytes at 65536 of 2"),
    ("show 0 file p", "show 0 file [112]"),
    ("show 0x7 procs", "show 7 processes"),
    (
        "back copy event 4 1 3",
        "back copy 3 bytes from 1 of event 4",
    ),
    (
        "back data event 4 1 3",
        "back data 3 bytes from 1 of event 4",
    ),
    (
        "back index event 4 1 3",
        "back index 3 bytes from 1 of event 4",
    ),
    (
        "back copy event 18446744073709551615 0 0",
        "back copy 0 bytes from 0 of event 18446744073709551615",
    ),
    (
        "back copy event 0xffffffffffffffff 0 0",
        "back copy 0 bytes from 0 of event 18446744073709551615",
    ),
    (
        "back copy mem 7 2 0x10000 16",
        "back copy 16 bytes at 65536 of 2 at moment 7",
    ),
    (
        "back data reg 7 2 32",
        "back data register 32 of 2 at moment 7",
    ),
    (
        "back index name 7 p 0 1",
        "back index 1 bytes from 0 of file [112] at moment 7",
    ),
    (
        "back index name 7 - 0 1",
        "back index 1 bytes from 0 of file [45] at moment 7",
    ),
    ("forth copy 4 1 3", "forth copy 4 1 3"),
    ("forth index 0x4 0x1 0x3", "forth index 4 1 3"),
    ("groups", "groups"),
    ("events", "events"),
    ("verify", "verify"),
];

fn assert_all_readings(rt: &(impl Abort + AllocGlobal)) -> Result<(), NoMemory> {
    assert_readings(rt, LINES)?;
    assert_readings(rt, GENERATORS)?;
    assert_readings(rt, QUESTIONS)
}

#[test]
fn lines_are_read(rt: HostRuntime) -> Result<(), NoMemory> {
    assert_all_readings(&rt)
}

/// Lines that are nearly questions.
const NO_QUESTIONS: &[&str] = &[
    "show",
    "show ",
    "show 7",
    "show regs 2",
    "show 7 regs",
    "show 7 regs ",
    "show 7 regs 2 3",
    "show 7 regs 02",
    "show 07 regs 2",
    "show 7  regs 2",
    "show 7 regs  2",
    "show 7 regs 2 ",
    "show  7 regs 2",
    "show 18446744073709551616 regs 2",
    "show 7 reg 2",
    "show 7 mem 2 65536",
    "show 7 mem 2 65536 16 1",
    "show 7 mem 2 065536 16",
    "show 7 mem 2 65536  16",
    "show 7 mem 2 0x 16",
    "show 7 file",
    "show 7 file ",
    "show 7 file p q",
    "show 7 file \x7f",
    "show 7 file  p",
    "show 7 procs ",
    "show 7 procs 2",
    "show 7  procs",
    "show 07 procs",
    "show procs",
    "back",
    "back copy",
    "back all event 4 0 3",
    "back event 4 0 3",
    "back copy event 4 0",
    "back copy event 4 0 3 1",
    "back copy event 4 00 3",
    "back copy event 4  0 3",
    "back copy  event 4 0 3",
    "back  copy event 4 0 3",
    "back copy event 4 0 3 ",
    "back copy event 18446744073709551616 0 0",
    "back copy mem 7 2 16",
    "back copy mem 7 2 65536 16 1",
    "back copy mem 7 2 65536 016",
    "back copy mem 7 2  65536 16",
    "back copy reg 7 2",
    "back copy reg 7 2 3 4",
    "back copy reg 7 02 3",
    "back copy reg 7 2  3",
    "back copy regs 7 2 3",
    "back copy name 7 0 1",
    "back copy name p 0 1",
    "back copy name 7 p 0",
    "back copy name 7 p 0 1 2",
    "back copy name 7 \x7f 0 1",
    "back copy name 7 p 00 1",
    "back copy name 7  p 0 1",
    "back copy name 7 p  0 1",
    "back copy name 7 p 0 1 ",
    "back copy file p",
    "forth copy 4 1",
    "forth copy 4 1 3 5",
    "forth copy 4 01 3",
    "forth copy  4 1 3",
    "forth copy event 4 1 3",
    "forth 4 1 3",
    "forth all 4 1 3",
    "group",
    "groups ",
    " groups",
    "groups 1",
    "events ",
    "event",
    "verify ",
    "verify run",
    "Verify",
];

fn assert_unreadable(rt: &(impl Abort + AllocGlobal)) -> Result<(), NoMemory> {
    for line in NO_QUESTIONS {
        let reading = read_line(rt.alloc(), line.as_bytes())?;
        assert!(rt; matches!(reading, LineReading::Unreadable), "at {line}");
    }
    Ok(())
}

#[test]
fn what_is_no_question_is_unreadable(rt: HostRuntime) -> Result<(), NoMemory> {
    assert_unreadable(&rt)
}

/// First lines of blocks and other lines, and the block's name.
const BLOCKS: &[(&str, Option<&str>)] = &[
    ("asm p", Some("p")),
    ("asm -", Some("-")),
    ("asm !~", Some("!~")),
    ("asm asm", Some("asm")),
    ("asm ", None),
    ("asm", None),
    ("asm p q", None),
    ("asm  p", None),
    ("asm p ", None),
    ("asm p\r", None),
    ("asm \x7f", None),
    ("asm\tp", None),
    (" asm p", None),
    ("ASM p", None),
    ("boot p", None),
    ("", None),
];

fn assert_blocks(rt: &impl Abort) {
    for (line, wanted) in BLOCKS {
        let found = block_name(line.as_bytes());
        let name = wanted.map(|name| name.as_bytes());
        assert_same(rt, (*line, found), (*line, name));
    }
}

#[test]
fn blocks_are_named(rt: HostRuntime) {
    assert_blocks(&rt)
}

// A word for a reading.
fn kind(reading: &LineReading) -> &'static str {
    match reading {
        LineReading::Says {
            line: Line::Boot { .. },
        } => "boot",
        LineReading::Says {
            line: Line::File { .. },
        } => "file",
        LineReading::Unreadable => "unreadable",
        LineReading::TooLong => "too long",
        _ => "another",
    }
}

// How a `boot` line is read whose name has so many bytes.
fn boot_kind(alloc: Global, len: usize) -> Result<&'static str, NoMemory> {
    let name = "n".repeat(alloc, len)?;
    let line = format!(in alloc; "boot {name}")?;
    Ok(kind(&read_line(alloc, line.as_bytes())?))
}

// The block that a name of so many bytes opens has this name.
fn assert_named(
    rt: &(impl Abort + AllocGlobal),
    len: usize,
    is_named: bool,
) -> Result<(), NoMemory> {
    let name = "n".repeat(rt.alloc(), len)?;
    let line = format!(in rt.alloc(); "asm {name}")?;
    let wanted = is_named.then_some(name.as_bytes());
    assert_same(rt, block_name(line.as_bytes()), wanted);
    Ok(())
}

fn assert_names(rt: &(impl Abort + AllocGlobal)) -> Result<(), NoMemory> {
    let read = [boot_kind(rt.alloc(), 64)?, boot_kind(rt.alloc(), 65)?];
    assert_same(rt, read, ["boot", "unreadable"]);
    assert_named(rt, 64, true)?;
    assert_named(rt, 65, false)
}

#[test]
fn names_have_64_bytes_at_most(rt: HostRuntime) -> Result<(), NoMemory> {
    assert_names(&rt)
}

// How a `file` line is read whose bytes have so many digits. Eight bytes stand before them.
fn file_kind(alloc: Global, digits: usize) -> Result<&'static str, NoMemory> {
    let mut line = Vec::from_slice(alloc, b"file pp ")?;
    let zeros = vec![in alloc; b'0'; digits]?;
    line.extend_from_slice(zeros.as_slice())?;
    Ok(kind(&read_line(alloc, line.as_slice())?))
}

// This is read of a line of so many times a byte.
fn assert_reads_long(
    rt: &(impl Abort + AllocGlobal),
    byte: u8,
    count: usize,
    wanted: &str,
) -> Result<(), NoMemory> {
    let line = vec![in rt.alloc(); byte; count]?;
    let reading = read_line(rt.alloc(), line.as_slice())?;
    let found = shown(rt.alloc(), &reading)?;
    assert_same(rt, found.as_str(), wanted);
    Ok(())
}

// Nonsense is too long, and a comment is passed over.
fn assert_longest(rt: &(impl Abort + AllocGlobal)) -> Result<(), NoMemory> {
    let longest = file_kind(rt.alloc(), MOST_LINE - 8)?;
    let longer = file_kind(rt.alloc(), MOST_LINE - 6)?;
    assert_same(rt, [longest, longer], ["file", "too long"]);
    assert_reads_long(rt, b' ', MOST_LINE, "unreadable")?;
    assert_reads_long(rt, b' ', MOST_LINE + 1, "too long")?;
    assert_reads_long(rt, b'#', MOST_LINE + 1, "passed over")
}

#[test]
fn lines_have_a_mebibyte_at_most(rt: HostRuntime) -> Result<(), NoMemory> {
    assert_longest(&rt)
}

// What is told of events and of runs.
fn push_told(text: &mut String) -> Result<(), NoMemory> {
    push_event(text, 0)?;
    push_out(text, 4, 1, b"abc")?;
    push_out(text, 5, 2, b"")?;
    push_out(text, 6, 4294967295, &[0x80, 0xff, 0x0a])?;
    push_ran(text, 11, RunEnd::Done)?;
    push_ran(text, 4, RunEnd::Stalled)?;
    push_ran(text, 1_000_000, RunEnd::Budget)
}

const PAIR: &Pair = &Pair {
    event: 2,
    at: 94,
    byte: 1,
};

// What is answered to questions.
fn push_answers(text: &mut String) -> Result<(), NoMemory> {
    push_pair(text, PAIR)?;
    push_back(text, 3, 11, &[1])?;
    push_back(text, 0, 0, &[])?;
    push_back(text, 3, u128::MAX, &[1, 3, 4294967295])?;
    push_forth(text, 1, 22, &[1, 2])?;
    push_forth(text, 0, 0, &[])?;
    push_damaged(text, 10, 22, 12)
}

fn assert_answers(rt: &(impl Abort + AllocGlobal)) -> Result<(), NoMemory> {
    let mut text = String::new(rt.alloc());
    push_told(&mut text)?;
    push_answers(&mut text)?;
    let wanted = "event 0
out 4 1 616263
out 5 2 -
out 6 4294967295 80ff0a
ran 11 done
ran 4 stalled
ran 1000000 budget
pair 2 94 1
back pairs 3 instructions 11 groups 1
back pairs 0 instructions 0 groups -
back pairs 3 instructions 340282366920938463463374607431768211455 groups 1 3 4294967295
forth pairs 1 instructions 22 groups 1 2
forth pairs 0 instructions 0 groups -
damaged 10 22 12
";
    assert_same(rt, text.as_str(), wanted);
    Ok(())
}

#[test]
fn answers_are_written(rt: HostRuntime) -> Result<(), NoMemory> {
    assert_answers(&rt)
}

/// Refusals, and what is written for each.
const REFUSALS: &[(Refusal, &str)] = &[
    (Refusal::NoLong, "no long\n"),
    (Refusal::NoLine, "no line\n"),
    (Refusal::NoBoot, "no boot\n"),
    (Refusal::NoBooted, "no booted\n"),
    (Refusal::NoAsm { line: 7 }, "no asm 7\n"),
    (
        Refusal::NoAsm { line: u64::MAX },
        "no asm 18446744073709551615\n",
    ),
    (Refusal::NoName, "no name\n"),
    (Refusal::NoImage, "no image\n"),
    (Refusal::NoDevice, "no device\n"),
    (Refusal::NoPoint, "no point\n"),
];

fn assert_refusals(rt: &(impl Abort + AllocGlobal)) -> Result<(), NoMemory> {
    for (refusal, wanted) in REFUSALS {
        let mut text = String::new(rt.alloc());
        push_refusal(&mut text, *refusal)?;
        assert_same(rt, text.as_str(), *wanted);
    }
    Ok(())
}

#[test]
fn refusals_are_written(rt: HostRuntime) -> Result<(), NoMemory> {
    assert_refusals(&rt)
}
