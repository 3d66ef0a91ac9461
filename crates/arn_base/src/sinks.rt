// A sink in memory, and one over std's writers.
ghost use Rattle.std.specs.Prelude.{◌≡◌, ◌≤◌, ◌<◌, ◌++◌, length, take, None, IfOk, OnErr, IsErrOf};
ghost use Rattle.arn_base.specs.Faults.{Rose, NeverFalls};
ghost use Rattle.arn_base.specs.InMemory.{fresh_sink, CountsSink};

use crate::fuses::Fuse;
use crate::{Numbers, Sink, Stop};
use std::alloc::Global;
use std::io::Write;
use std::marker::Model;

/// Holds what was put, and fails the calls whose numbers, from 0 on, are listed.
#[derive(Drop)]
pub struct VecSink {
    held: Vec<u8>,
    fuse: Fuse,
}

impl Model for VecSink {
    ghost use Rattle.arn_base.specs.InMemory.{SinkState};

    ghost Value = { SinkState };

    ghost view = { λ sink. record {
      held = sink.held.items;
      fails = sink.fuse.fails;
      calls = sink.fuse.calls;
      faults = sink.fuse.faults;
    } };
}

impl VecSink {
    pub fn new(alloc: Global, fails: Numbers) -> VecSink
        ensures { result ≡ fresh_sink fails }
    {
        VecSink {
            held: Vec::new(alloc),
            fuse: Fuse::new(fails),
        }
    }

    /// What it holds.
    pub fn bytes(&self) -> &[u8]
        ensures { result.now ≡ self.now.held }
    {
        self.held.as_slice()
    }
}

impl Sink for VecSink {
    ghost use Rattle.std.specs.Prelude.{Some};

    ghost holds = { λ sink. Some sink.held };

    ghost faults = { λ sink. sink.faults };

    /// It fails the calls that are listed, and no others.
    fn put(&mut self, bytes: &[u8]) -> Result<usize, Stop>
        ensures within { IfOk result (λ count. count ≤ length bytes.now) }
        ensures some { IfOk result (λ count. 0 < length bytes.now → 0 < count) }
        ensures bytes { IfOk result (λ count.
            self.new.held ≡ self.old.held ++ take count bytes.now) }
        ensures err { OnErr result (self.new.held ≡ self.old.held) }

        ensures counts { CountsSink (IsErrOf result Stop.Failed) self.old self.new }
        ensures cause { IsErrOf result Stop.Failed → Rose self.old.faults self.new.faults }
        ensures faults { NeverFalls self.old.faults self.new.faults }
    {
        if self.fuse.blows() {
            return Err(Stop::Failed);
        }
        match self.held.extend_from_slice(bytes) {
            Ok(()) => Ok(bytes.len()),
            Err(_) => Err(Stop::NoMemory),
        }
    }
}

/// One of std's writers. It tells nothing of what it holds.
#[derive(Drop)]
pub struct StdSink<W: Write + Drop> {
    writer: W,
    faults: u64,
}

impl<W: Write + Drop> StdSink<W> {
    pub fn new(writer: W) -> StdSink<W>
        ensures { ⟦<StdSink<W> as Sink>⟧.faults result ≡ 0 }
    {
        StdSink { writer, faults: 0 }
    }
}

impl<W: Write + Drop> Sink for StdSink<W> {
    ghost holds = { λ _. None };

    ghost faults = { λ sink. sink.faults };

    /// A writer that takes no byte of a piece has failed.
    fn put(&mut self, bytes: &[u8]) -> Result<usize, Stop> {
        if bytes.is_empty() {
            return Ok(0);
        }
        match self.writer.write(bytes) {
            Ok(count) if count > 0 => Ok(count),
            _ => {
                self.faults = self.faults.saturating_add(1);
                Err(Stop::Failed)
            }
        }
    }
}
