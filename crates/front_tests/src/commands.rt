use crate::same::assert_same;
use arn_base::{Bytes, NoMemory, Numbers, SliceSource};
use arn_commands::{Command, Commands, Next, ReadError, parts_ask_one_way};
use arn_lines::{Line, MOST_LINE};
use std::alloc::{AllocError, Global};
use std::process::Abort;

/// `asm p`, the line `li a0, 1` and `end`, as an image: the instruction is as clang assembles it.
const IMAGE: &[u8] = b"ARNIMG01\
    \x00\x00\x01\x00\x00\x00\x00\x00\
    \x00\x00\x01\x00\x00\x00\x00\x00\
    \x13\x05\x10\x00";

// A command as text: of a file its name, as a list of numbers, and its length.
fn shown(alloc: Global, command: &Command) -> Result<String, AllocError> {
    match command {
        Command::PassedOver => format!(in alloc; "passed over"),
        Command::TooLong => format!(in alloc; "too long"),
        Command::Unreadable => format!(in alloc; "unreadable"),
        Command::Says { line } => shown_line(alloc, line),
        Command::Faulty { at } => format!(in alloc; "faulty {at}"),
        Command::Generates { processes, .. } => format!(in alloc; "generates {processes}"),
    }
}

fn shown_line(alloc: Global, line: &Line) -> Result<String, AllocError> {
    match line {
        Line::File { name, bytes } => {
            format!(in alloc; "file {:?} {}", name.as_slice(), bytes.len())
        }
        Line::Run { count } => format!(in alloc; "run {count}"),
        _ => format!(in alloc; "another line"),
    }
}

// Writes a command between two texts.
fn push_command(
    text: &mut String,
    alloc: Global,
    before: &str,
    command: &Command,
    behind: &str,
) -> Result<(), AllocError> {
    text.push_str(before)?;
    let command = shown(alloc, command)?;
    text.push_str(command.as_str())?;
    text.push_str(behind)
}

// Writes what came next.
fn push_next(
    text: &mut String,
    alloc: Global,
    next: &Result<Next, ReadError>,
) -> Result<(), AllocError> {
    match next {
        Ok(Next::More { command }) => push_command(text, alloc, "", command, ", "),
        Ok(Next::Last { command }) => push_command(text, alloc, "last ", command, ""),
        Ok(Next::End) => text.push_str("end"),
        Err(error) => Ok(write!(text, "{error}")?),
    }
}

// The commands that a source gives, and how they end, as text.
fn shown_commands(alloc: Global, source: &mut SliceSource, most: u64) -> Result<String, NoMemory> {
    let mut commands = Commands::new(alloc)?;
    let mut text = String::new(alloc);
    for _ in 0..most {
        let next = commands.next(source);
        push_next(&mut text, alloc, &next)?;
        if !matches!(next, Ok(Next::More { .. })) {
            break;
        }
    }
    Ok(text)
}

// The commands of a text that comes in pieces of so many bytes at most.
fn shown_text(alloc: Global, text: &[u8], piece: usize) -> Result<String, NoMemory> {
    let bytes = Bytes::from_slice(alloc, text)?;
    let mut source = SliceSource::in_pieces(bytes, Numbers::new(alloc), piece);
    shown_commands(alloc, &mut source, text.len() as u64 + 1)
}

/// Texts, and the commands that are read of each.
const TEXTS: &[(&str, &str)] = &[
    ("", "end"),
    ("\n", "passed over, end"),
    ("run 1\n", "run 1, end"),
    ("run 1", "last run 1"),
    ("run 1\nrun 2\n\n", "run 1, run 2, passed over, end"),
    ("# run 1\nhello\n", "passed over, unreadable, end"),
    ("run 1\r\nrun 2", "unreadable, last run 2"),
    (
        "run 1\nasm p\necall\nend\nrun 2\n",
        "run 1, file [112] 28, run 2, end",
    ),
    ("asm p\necall\nend", "last file [112] 28"),
    ("asm p\nend\n", "file [112] 24, end"),
    (
        "asm p\nend\nasm q\n.byte 1\nend\n",
        "file [112] 24, file [113] 25, end",
    ),
    ("asm p\necall\nhello\necall\nend\n", "faulty 2, end"),
    (
        "asm p\nhello\necall\nhello\nend\nrun 1",
        "faulty 1, last run 1",
    ),
    ("asm p\necall\necall\n", "last faulty 3"),
    ("asm p\necall\necall", "last faulty 3"),
    ("asm p\n", "last faulty 1"),
    ("asm p", "last faulty 1"),
    ("asm p\necall\nhello\necall\n", "last faulty 2"),
    ("asm p\n end\nend\n", "faulty 1, end"),
    ("asm p\nend \nend\n", "faulty 1, end"),
    ("asm p\nEND\nend\n", "faulty 1, end"),
    ("asm p\nend", "last file [112] 24"),
    ("asm p\n#end\nend\n", "file [112] 24, end"),
    ("asm p\n#end\n", "last faulty 2"),
    ("asm p\nasm p\nend\n", "faulty 1, end"),
    ("asm p q\nend\n", "unreadable, unreadable, end"),
    ("asm p\r\nend\n", "unreadable, unreadable, end"),
    ("asm p\nend\r\nend\n", "faulty 1, end"),
    ("asm p\necall\r\nend\n", "faulty 1, end"),
];

// The texts are read in one piece, and byte by byte.
fn assert_texts(rt: &(impl Abort + AllocGlobal)) -> Result<(), NoMemory> {
    for (text, wanted) in TEXTS {
        for piece in [text.len(), 1] {
            let found = shown_text(rt.alloc(), text.as_bytes(), piece)?;
            assert_same(rt, (*text, found.as_str()), (*text, *wanted));
        }
    }
    Ok(())
}

// A text, and in it so many times a byte.
fn around(
    alloc: Global,
    front: &str,
    byte: u8,
    count: usize,
    back: &str,
) -> Result<Vec<u8>, AllocError> {
    let mut text = Vec::from_slice(alloc, front.as_bytes())?;
    let bytes = vec![in alloc; byte; count]?;
    text.extend_from_slice(bytes.as_slice())?;
    text.extend_from_slice(back.as_bytes())?;
    Ok(text)
}

/// What stands before a line, of which byte it is and how often, what stands behind it, and what is read.
const LONG_LINES: &[(&str, u8, usize, &str, &str)] = &[
    ("", b'a', MOST_LINE, "\nrun 1", "unreadable, last run 1"),
    ("", b'a', MOST_LINE + 1, "\nrun 1", "too long, last run 1"),
    (
        "",
        b'#',
        MOST_LINE + 1,
        "\nrun 1",
        "passed over, last run 1",
    ),
    (
        "asm p\necall\n",
        b'#',
        MOST_LINE,
        "\nend\n",
        "file [112] 28, end",
    ),
    (
        "asm p\necall\n",
        b'#',
        MOST_LINE + 1,
        "\nend\n",
        "faulty 2, end",
    ),
];

// What is read of lines that are nearly too long, and of longer ones.
fn assert_long_read(rt: &(impl Abort + AllocGlobal)) -> Result<(), NoMemory> {
    for (front, byte, count, back, wanted) in LONG_LINES {
        let text = around(rt.alloc(), front, *byte, *count, back)?;
        let found = shown_text(rt.alloc(), text.as_slice(), text.len())?;
        assert_same(rt, (*count, found.as_str()), (*count, *wanted));
    }
    Ok(())
}

// The source gives one byte at once, and its call 14 fails, which gives up a block.
fn assert_given_up(rt: &(impl Abort + AllocGlobal)) -> Result<(), NoMemory> {
    let bytes = Bytes::from_slice(rt.alloc(), b"run 1\nasm p\necall\nend\n")?;
    let mut fails = Numbers::new(rt.alloc());
    fails.push(14)?;
    let mut source = SliceSource::in_pieces(bytes, fails, 1);
    let found = shown_commands(rt.alloc(), &mut source, 5)?;
    assert_same(rt, found.as_str(), "run 1, the source failed");
    Ok(())
}

#[test]
fn texts_are_read(rt: HostRuntime) -> Result<(), NoMemory> {
    assert_texts(&rt)?;
    assert_long_read(&rt)?;
    assert_given_up(&rt)
}

// The first command of a text, behind which others may stand.
fn first_command(alloc: Global, text: &[u8]) -> Result<Option<Command>, ReadError> {
    let text = Bytes::from_slice(alloc, text)?;
    let mut source = SliceSource::new(text, Numbers::new(alloc));
    let mut commands = Commands::new(alloc)?;
    match commands.next(&mut source)? {
        Next::More { command } => Ok(Some(command)),
        _ => Ok(None),
    }
}

fn assert_image(rt: &(impl Abort + AllocGlobal)) -> Result<(), ReadError> {
    let command = first_command(rt.alloc(), b"asm p\nli a0, 1\nend\n")?;
    parts_ask_one_way();
    let Some(
        Command::Says {
            line: Line::File { bytes, .. },
        },
    ) = command
    else {
        panic!(rt; "no file")
    };
    assert_same(rt, bytes.as_slice(), IMAGE);
    Ok(())
}

fn assert_generated(rt: &(impl Abort + AllocGlobal)) -> Result<(), ReadError> {
    let command = first_command(rt.alloc(), b"gen 7 12\n")?;
    let Some(
        Command::Generates {
            image,
            typed,
            processes,
        },
    ) = command
    else {
        panic!(rt; "no program")
    };
    assert!(rt; image.as_slice().starts_with(b"ARNIMG01"));
    assert_same(rt, (typed.len(), processes), (4_096, 12));
    Ok(())
}

#[test]
fn blocks_and_lines_of_the_generator_are_images(rt: HostRuntime) -> Result<(), ReadError> {
    assert_image(&rt)?;
    assert_generated(&rt)
}
