// Records of the example program, in few words.
ghost use Rattle.std.specs.Prelude.{All, IfOk};
ghost use Rattle.result_log.specs.Spelling.{ExtraHasSpelling, GiveHasSpelling, HasSpelling, IsCounted};

use super::{ASKS, ECHO};
use arn_base::{Bytes, Extra, Give, NoMemory, Origin, Origins, Record};
use std::alloc::Global;

// A record of process 1, or of what it starts from.
#[derive(Clone, Copy)]
pub(crate) enum Part {
    // The file "p".
    File,
    // It is booted.
    Boot,
    // "abc" is typed.
    Typed,
    // So many instructions run.
    Slice(u32),
    // The call read, which receives what was typed by event 2.
    Read,
    // The call write, of these bytes to the console.
    Write([u8; 3]),
    // The call exit.
    Exit,
    // An end by fault, with status 0.
    End,
    // The file "p" is the one that asks a device.
    AskingFile,
    // That one is booted.
    AskingBoot,
    // Device 0 is opened.
    Opened,
    // A read of it fails.
    Failed,
    // It gives these bytes to a read.
    Replied([u8; 2]),
    // A read finds that it isn't there.
    Absent,
    // It is unplugged.
    Unplug,
}

// The example reads, writes and exits.
pub(crate) const WHOLE: &[Part] = &[
    Part::File,
    Part::Boot,
    Part::Typed,
    Part::Slice(5),
    Part::Read,
    Part::Slice(3),
    Part::Write(*b"abc"),
    Part::Slice(3),
    Part::Exit,
];

// Bytes that one event brought, all of them.
fn give(alloc: Global, bytes: &[u8], event: u64, len: u32) -> Result<Give, NoMemory>
    requires { IsCounted bytes.now }
    ensures { IfOk result GiveHasSpelling }
{
    let mut origins = Origins::new(alloc);
    origins.push(Origin { event, at: 0, len })?;
    Ok(Give {
        bytes: Bytes::from_slice(alloc, bytes)?,
        origins,
    })
}

fn call(number: u64, answer: u64, extra: Extra) -> Record
    requires { ExtraHasSpelling extra }
    ensures { HasSpelling result }
{
    Record::Call {
        pid: 1,
        number,
        result: answer,
        extra,
    }
}

fn file(alloc: Global, image: &[u8; 68]) -> Result<Record, NoMemory>
    ensures { IfOk result HasSpelling }
{
    let name = Bytes::from_slice(alloc, b"p")?;
    let bytes = Bytes::from_slice(alloc, image)?;
    Ok(Record::File { name, bytes })
}

fn boot(alloc: Global, image: &[u8; 68]) -> Result<Record, NoMemory>
    ensures { IfOk result HasSpelling }
{
    let name = Bytes::from_slice(alloc, b"p")?;
    let give = give(alloc, image, 0, 68)?;
    Ok(Record::Boot { name, give })
}

fn typed(alloc: Global) -> Result<Record, NoMemory>
    ensures { IfOk result HasSpelling }
{
    let bytes = Bytes::from_slice(alloc, b"abc")?;
    Ok(Record::Typed { bytes })
}

fn read(alloc: Global) -> Result<Record, NoMemory>
    ensures { IfOk result HasSpelling }
{
    let received = give(alloc, b"abc", 2, 3)?;
    Ok(call(11, 3, Extra::Give(received)))
}

fn write(alloc: Global, bytes: [u8; 3]) -> Result<Record, NoMemory>
    ensures { IfOk result HasSpelling }
{
    let bytes = Bytes::from_slice(alloc, &bytes)?;
    Ok(call(12, 3, Extra::Console { bytes }))
}

fn replied(alloc: Global, bytes: [u8; 2]) -> Result<Record, NoMemory>
    ensures { IfOk result HasSpelling }
{
    let bytes = Bytes::from_slice(alloc, &bytes)?;
    Ok(call(11, 2, Extra::Reply { device: 0, bytes }))
}

fn record(alloc: Global, part: Part) -> Result<Record, NoMemory>
    ensures { IfOk result HasSpelling }
{
    match part {
        Part::File => file(alloc, &ECHO),
        Part::Boot => boot(alloc, &ECHO),
        Part::Typed => typed(alloc),
        Part::Slice(ran) => Ok(Record::Slice { pid: 1, ran }),
        Part::Read => read(alloc),
        Part::Write(bytes) => write(alloc, bytes),
        Part::Exit => Ok(call(1, 0, Extra::Nothing)),
        Part::End => Ok(Record::End { pid: 1, status: 0 }),
        Part::AskingFile => file(alloc, &ASKS),
        Part::AskingBoot => boot(alloc, &ASKS),
        Part::Opened => Ok(call(21, 3, Extra::Nothing)),
        Part::Failed => Ok(call(11, u64::MAX - 4, Extra::Fault)),
        Part::Replied(bytes) => replied(alloc, bytes),
        Part::Absent => Ok(call(11, u64::MAX - 18, Extra::Absent)),
        Part::Unplug => Ok(Record::Unplug { device: 0 }),
    }
}

pub(crate) fn records(alloc: Global, parts: &[Part]) -> Result<Vec<Record>, NoMemory>
    ensures { IfOk result (λ entries. All HasSpelling entries.items) }
{
    let mut entries = Vec::new(alloc);
    for part in parts {
        entries.push(record(alloc, *part)?)?;
    }
    Ok(entries)
}
