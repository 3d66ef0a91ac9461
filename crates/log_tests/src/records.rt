ghost use Rattle.std.specs.Prelude.{◌<◌, IfOk};
ghost use Rattle.result_log.specs.Spelling.{ExtraHasSpelling, GiveHasSpelling, HasSpelling};
ghost use Rattle.result_log.specs.States.{StartHasSpelling};

use arn_base::{
    Block, Blocks, Boxed, Bytes, Cpu, Extra, Give, NoMemory, Origin, Origins, Record, Start,
};
use result_log::{GetError, get_record, put_record, spelled_len};
use std::alloc::Global;
use std::process::Abort;
use std::test::Fail;

// The file "a", which holds "ab".
const FILE: [u8; 9] = [1, 1, 0x61, 2, 0, 0, 0, 0x61, 0x62];

// Process 1 made call 11, with result 1. The tag is missing.
const CALL: [u8; 21] = [
    7, 1, 0, 0, 0, 11, 0, 0, 0, 0, 0, 0, 0, 1, 0, 0, 0, 0, 0, 0, 0,
];

// Signal 1 ended a call of process 2, whose handler is at 0x10004.
const SIGNAL: [u8; 15] = [6, 2, 0, 0, 0, 1, 1, 4, 0, 1, 0, 0, 0, 0, 0];

// The byte "x", from place 5 of event 2.
const GIVE: [u8; 25] = [
    1, 0, 0, 0, 0x78, 1, 0, 0, 0, 2, 0, 0, 0, 0, 0, 0, 0, 5, 0, 0, 0, 1, 0, 0, 0,
];

fn give(alloc: Global) -> Result<Give, NoMemory>
    ensures { IfOk result GiveHasSpelling }
{
    let bytes = Bytes::from_slice(alloc, b"x")?;
    let mut origins = Origins::new(alloc);
    origins.push(Origin {
        event: 2,
        at: 5,
        len: 1,
    })?;
    Ok(Give { bytes, origins })
}

// The record has these bytes, behind others, and as many as are told.
fn assert_written(
    rt: &impl Abort,
    alloc: Global,
    entry: &Record,
    bytes: &[u8],
) -> Result<(), NoMemory>
    requires { HasSpelling entry.now }
{
    let mut out = Vec::from_slice(alloc, &[1, 2, 3])?;
    put_record(&mut out, entry)?;
    assert!(rt; out.get(3..) == Some(bytes));
    assert!(rt; spelled_len(entry) == bytes.len() as u64);
    Ok(())
}

// A record is read from these bytes, behind others and before others.
fn read_record(rt: &impl Abort, alloc: Global, bytes: &[u8]) -> Result<Record, NoMemory>
    ensures { IfOk result HasSpelling }
{
    let mut text = Vec::from_slice(alloc, &[1, 2, 3])?;
    text.extend_from_slice(bytes)?;
    text.push(0xff)?;
    let Ok((read, next)) = get_record(alloc, text.as_slice(), 3) else {
        panic!(rt; "no record was read");
    };
    assert!(rt; next == bytes.len() + 3);
    Ok(read)
}

// The record has these bytes, and what is read from them has the same.
fn assert_spelled(
    rt: &impl Abort,
    alloc: Global,
    entry: Record,
    bytes: &[u8],
) -> Result<(), NoMemory>
    requires { HasSpelling entry }
{
    let written = assert_written(rt, alloc, &entry, bytes);
    drop(entry);
    written?;
    assert_read(rt, alloc, bytes)
}

// What is read from the bytes has them too.
fn assert_read(rt: &impl Abort, alloc: Global, bytes: &[u8]) -> Result<(), NoMemory> {
    let read = read_record(rt, alloc, bytes)?;
    assert_written(rt, alloc, &read, bytes)
}

#[test]
fn a_file(rt: HostRuntime) -> Result<(), Fail> {
    let name = Bytes::from_slice(rt.alloc(), b"a")?;
    let bytes = Bytes::from_slice(rt.alloc(), b"ab")?;
    let entry = Record::File { name, bytes };
    assert_spelled(&rt, rt.alloc(), entry, &FILE)?;
    Ok(())
}

// Call 11 of process 1, with result 1, behind its tag and the tag's fields.
fn assert_call_spelled(
    rt: &impl Abort,
    alloc: Global,
    extra: Extra,
    tagged: &[u8],
) -> Result<(), NoMemory>
    requires { ExtraHasSpelling extra }
{
    let mut bytes = Vec::from_slice(alloc, &CALL)?;
    bytes.extend_from_slice(tagged)?;
    let call = Record::Call {
        pid: 1,
        number: 11,
        result: 1,
        extra,
    };
    assert_spelled(rt, alloc, call, bytes.as_slice())
}

fn assert_gives_spelled(rt: &impl Abort, alloc: Global) -> Result<(), NoMemory> {
    let mut tagged = Vec::from_slice(alloc, &[1])?;
    tagged.extend_from_slice(&GIVE)?;
    let extra = Extra::Give(give(alloc)?);
    assert_call_spelled(rt, alloc, extra, tagged.as_slice())
}

fn assert_console_spelled(rt: &impl Abort, alloc: Global) -> Result<(), NoMemory> {
    let bytes = Bytes::from_slice(alloc, b"ab")?;
    let extra = Extra::Console { bytes };
    assert_call_spelled(rt, alloc, extra, &[4, 2, 0, 0, 0, 0x61, 0x62])
}

fn assert_put_spelled(rt: &impl Abort, alloc: Global) -> Result<(), NoMemory> {
    let bytes = Bytes::from_slice(alloc, b"z")?;
    let extra = Extra::Put {
        file: 5,
        at: 2,
        bytes,
    };
    let tagged = [3, 5, 0, 0, 0, 2, 0, 0, 0, 1, 0, 0, 0, 0x7a];
    assert_call_spelled(rt, alloc, extra, &tagged)
}

fn assert_name_spelled(rt: &impl Abort, alloc: Global) -> Result<(), NoMemory> {
    let path = Bytes::from_slice(alloc, b"log")?;
    let extra = Extra::Name { file: 4, path };
    let tagged = [8, 4, 0, 0, 0, 3, 0x6c, 0x6f, 0x67];
    assert_call_spelled(rt, alloc, extra, &tagged)
}

#[test]
fn calls(rt: HostRuntime) -> Result<(), Fail> {
    assert_call_spelled(&rt, rt.alloc(), Extra::Nothing, &[0])?;
    assert_gives_spelled(&rt, rt.alloc())?;
    assert_console_spelled(&rt, rt.alloc())?;
    assert_put_spelled(&rt, rt.alloc())?;
    assert_name_spelled(&rt, rt.alloc())?;
    Ok(())
}

// All registers 0 but pc, none saved, and a block of 7s.
fn start(alloc: Global) -> Result<Start, NoMemory>
    ensures { IfOk result StartHasSpelling }
{
    let cpu = Cpu {
        x: [0; 31],
        pc: 0x10004,
    };
    let mut blocks = Blocks::new(alloc);
    blocks.push(Block {
        number: 0x4ff,
        bytes: [7; 256],
    })?;
    Ok(Start {
        cpu,
        slot: None,
        blocks,
    })
}

#[test]
fn starts(rt: HostRuntime) -> Result<(), Fail> {
    let mut tagged = Vec::from_slice(rt.alloc(), &[2])?;
    for _ in 0..248 {
        tagged.push(0)?;
    }
    tagged.extend_from_slice(&[4, 0, 1, 0, 0, 0, 0, 0, 0, 1, 0, 0xff, 4])?;
    for _ in 0..256 {
        tagged.push(7)?;
    }
    let extra = Extra::Start(Boxed::new(rt.alloc(), start(rt.alloc())?)?);
    assert_call_spelled(&rt, rt.alloc(), extra, tagged.as_slice())?;
    Ok(())
}

fn assert_malformed(rt: &impl Abort, alloc: Global, bytes: &[u8], at: usize) {
    let read = get_record(alloc, bytes, at);
    assert!(rt; matches!(read, Err(GetError::Malformed { at: found }) if found == at as u64));
}

// Behind these bytes, this one and zeros are no record, or no end of one that starts at the place.
fn assert_ends_none(
    rt: &impl Abort,
    alloc: Global,
    front: &[u8],
    byte: u8,
    at: usize,
) -> Result<(), NoMemory> {
    let mut bytes = Vec::from_slice(alloc, front)?;
    bytes.push(byte)?;
    bytes.extend_from_slice(&[0; 40])?;
    assert_malformed(rt, alloc, bytes.as_slice(), at);
    Ok(())
}

// The signal's bytes with another one in this place are no record.
fn assert_no_signal(rt: &impl Abort, alloc: Global, place: usize, byte: u8)
    requires { place < 15 }
{
    let mut signal = SIGNAL;
    signal[place] = byte;
    assert_malformed(rt, alloc, &signal, 0);
}

#[test]
fn no_records(rt: HostRuntime) -> Result<(), Fail> {
    for kind in [0, 6, 9, 255] {
        assert_ends_none(&rt, rt.alloc(), &FILE, kind, 9)?;
    }
    for tag in [10, 255] {
        assert_ends_none(&rt, rt.alloc(), &CALL, tag, 0)?;
    }
    for at in [1, 9, 10, usize::MAX] {
        assert_malformed(&rt, rt.alloc(), &FILE, at);
    }
    assert_no_signal(&rt, rt.alloc(), 5, 0);
    assert_no_signal(&rt, rt.alloc(), 5, 32);
    assert_no_signal(&rt, rt.alloc(), 6, 2);
    assert_malformed(&rt, rt.alloc(), &FILE[..8], 0);
    assert_malformed(&rt, rt.alloc(), &CALL, 0);
    assert_malformed(&rt, rt.alloc(), &[], 0);
    Ok(())
}
