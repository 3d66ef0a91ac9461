ghost use Rattle.std.specs.Prelude.{◌≤◌, IfOk};

use arn_base::{
    Bytes, Failed, NoMemory, Numbers, Sink, SliceSource, Source, StdSink, StdSource, Stop, VecSink,
};
use std::alloc::Global;
use std::io;
use std::io::{Read, Write};
use std::process::Abort;
use std::test::Fail;

fn listed(alloc: Global, calls: &[u32]) -> Result<Numbers, NoMemory> {
    let mut numbers = Numbers::new(alloc);
    for call in calls {
        numbers.push(*call)?;
    }
    Ok(numbers)
}

// The source answers these to calls with this room, one after the other.
fn check<S: Source>(
    rt: &impl Abort,
    source: &mut S,
    buf: &mut [u8],
    wanted: &[Result<usize, Failed>],
) {
    for (call, want) in wanted.iter().enumerate() {
        assert_eq!(rt; source.take(buf), *want, "at {call}");
    }
}

#[test]
fn a_source_gives_pieces_and_fails_by_number(rt: HostRuntime) -> Result<(), Fail> {
    let alloc = rt.alloc();
    let mut buf = [0; 5];
    let bytes = Bytes::from_slice(alloc, b"abcdefg")?;
    let mut source = SliceSource::in_pieces(bytes, listed(alloc, &[1, 4])?, 3);
    let wanted = [Ok(3), Err(Failed), Ok(3), Ok(1), Err(Failed), Ok(0), Ok(0)];
    check(&rt, &mut source, &mut buf, &wanted);
    let bytes = Bytes::from_slice(alloc, b"abcdefg")?;
    let mut source = SliceSource::new(bytes, Numbers::new(alloc));
    check(&rt, &mut source, &mut buf, &[Ok(5)]);
    assert_eq!(rt; buf.as_slice(), b"abcde".as_slice());
    Ok(())
}

#[test]
fn a_sink_holds_what_it_took(rt: HostRuntime) -> Result<(), Fail> {
    let alloc = rt.alloc();
    let mut sink = VecSink::new(alloc, listed(alloc, &[1])?);
    assert_eq!(rt; sink.put(b"ab"), Ok(2));
    assert_eq!(rt; sink.put(b"cd"), Err(Stop::Failed));
    assert_eq!(rt; sink.put(b"ef"), Ok(2));
    assert_eq!(rt; sink.bytes(), b"abef".as_slice());
    Ok(())
}

/// A stream whose calls go on by these steps: `Some(n)` moves at most n bytes, `None` fails.
#[derive(Drop)]
struct Steered {
    steps: &'static [Option<usize>],
}

impl Steered {
    fn next(&mut self, len: usize) -> io::Result<usize>
        ensures { IfOk result (λ count. count ≤ len) }
    {
        let Some((step, rest)) = self.steps.split_first() else {
            return Ok(0);
        };
        self.steps = rest;
        match step {
            Some(count) => Ok(len.min(*count)),
            None => Err(io::ErrorKind::Other.into()),
        }
    }
}

impl Read for Steered {
    fn read(&mut self, buf: &mut [u8]) -> io::Result<usize> {
        self.next(buf.len())
    }
}

impl Write for Steered {
    fn write(&mut self, buf: &[u8]) -> io::Result<usize> {
        self.next(buf.len())
    }

    fn flush(&mut self) -> io::Result<()> {
        Ok(())
    }
}

const STEPS: &[Option<usize>] = &[Some(2), None, Some(9)];

#[test]
fn a_reader_is_a_source(rt: HostRuntime) {
    let mut source = StdSource::new(Steered { steps: STEPS });
    let wanted = [Ok(2), Err(Failed), Ok(4), Ok(0)];
    check(&rt, &mut source, &mut [0; 4], &wanted);
}

#[test]
fn a_writer_that_takes_nothing_has_failed(rt: HostRuntime) {
    let mut sink = StdSink::new(Steered { steps: STEPS });
    for (piece, want) in [
        (b"abcd".as_slice(), Ok(2)),
        (b"", Ok(0)),
        (b"cd", Err(Stop::Failed)),
        (b"cd", Ok(2)),
        (b"e", Err(Stop::Failed)),
    ] {
        assert_eq!(rt; sink.put(piece), want);
    }
}
