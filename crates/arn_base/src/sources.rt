// A source in memory, and one over std's readers.
ghost use Rattle.std.specs.Prelude.{◌≡◌, ◌≤◌, ◌<◌, ◌++◌, [], min, max, length, take, None, IfOk, OnErr, IsErr};
ghost use Rattle.arn_base.specs.Faults.{Rose, NeverFalls};
ghost use Rattle.arn_base.specs.InMemory.{fresh_source, CountsSource};

use crate::fuses::Fuse;
use crate::{Bytes, Failed, Numbers, Source};
use std::io::Read;
use std::marker::Model;

/// Gives the bytes of a list, and fails the calls whose numbers, from 0 on, are listed.
#[derive(Drop)]
pub struct SliceSource {
    bytes: Bytes,
    at: usize,
    most: usize,
    fuse: Fuse,
}

impl Model for SliceSource {
    ghost use Rattle.std.specs.Prelude.{drop};
    ghost use Rattle.arn_base.specs.InMemory.{SourceState, IsSourceSound};

    ghost Value = { SourceState };

    ghost view = { λ source. record {
      left = drop source.at source.bytes;
      most = source.most;
      fails = source.fuse.fails;
      calls = source.fuse.calls;
      faults = source.fuse.faults;
    } };

    ghost invariant = { λ source. IsSourceSound source.bytes source.at source.most };
}

impl SliceSource {
    /// Gives as many bytes at once as the buffer takes.
    pub fn new(bytes: Bytes, fails: Numbers) -> SliceSource
        ensures { result ≡ fresh_source bytes fails usize.MAX }
    {
        SliceSource::in_pieces(bytes, fails, usize::MAX)
    }

    /// Gives at most so many bytes at once, and at least one.
    pub fn in_pieces(bytes: Bytes, fails: Numbers, most: usize) -> SliceSource
        ensures { result ≡ fresh_source bytes fails (max most 1) }
    {
        SliceSource {
            bytes,
            at: 0,
            most: most.max(1),
            fuse: Fuse::new(fails),
        }
    }
}

/// Copies at most so many bytes to the front of the buffer, as many as fit.
fn copy_front(bytes: &[u8], most: usize, buf: &mut [u8]) -> usize
    ensures count { result ≡ min most (min (length bytes.now) (length buf.old)) }
    ensures bytes { take result buf.new ≡ take result bytes.now }
{
    let count = most.min(bytes.len().min(buf.len()));
    buf[..count].copy_from_slice(&bytes[..count]);
    count
}

impl Source for SliceSource {
    ghost use Rattle.std.specs.Prelude.{Some};

    ghost left = { λ source. Some source.left };

    ghost faults = { λ source. source.faults };

    /// It fails the calls that are listed, and no others.
    fn take(&mut self, buf: &mut [u8]) -> Result<usize, Failed>
        ensures within { IfOk result (λ count. count ≤ length buf.old) }
        ensures bytes { IfOk result (λ count.
            self.old.left ≡ take count buf.new ++ self.new.left) }
        ensures end { IfOk result (λ count.
            count ≡ 0 → 0 < length buf.old → self.old.left ≡ []) }
        ensures err { OnErr result (self.new.left ≡ self.old.left) }
        ensures most { self.new.most ≡ self.old.most }

        ensures counts { CountsSource (IsErr result) self.old self.new }
        ensures cause { OnErr result (Rose self.old.faults self.new.faults) }
        ensures faults { NeverFalls self.old.faults self.new.faults }
    {
        if self.fuse.blows() {
            return Err(Failed);
        }
        let count = copy_front(&self.bytes.as_slice()[self.at..], self.most, buf);
        self.at += count;
        Ok(count)
    }
}

/// One of std's readers. It tells nothing of the bytes that are left.
#[derive(Drop)]
pub struct StdSource<R: Read + Drop> {
    reader: R,
    faults: u64,
}

impl<R: Read + Drop> StdSource<R> {
    pub fn new(reader: R) -> StdSource<R>
        ensures { ⟦<StdSource<R> as Source>⟧.faults result ≡ 0 }
    {
        StdSource { reader, faults: 0 }
    }
}

impl<R: Read + Drop> Source for StdSource<R> {
    ghost left = { λ _. None };

    ghost faults = { λ source. source.faults };

    fn take(&mut self, buf: &mut [u8]) -> Result<usize, Failed> {
        match self.reader.read(buf) {
            Ok(count) => Ok(count),
            Err(_) => {
                self.faults = self.faults.saturating_add(1);
                Err(Failed)
            }
        }
    }
}
