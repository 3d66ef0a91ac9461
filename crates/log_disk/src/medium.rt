// The state of a disk in memory.
ghost use Rattle.std.specs.Prelude.{◌≡◌, ◌≤◌, ◌+◌, ◌-◌, ◌↔◌, length, take, drop, slice_index, IsTrue, IfOk, OnOk, OnErr};
ghost use Rattle.log_disk.specs.Crash.{durable, shortest, longest, filling, Stays, CrashWith};
ghost use Rattle.log_disk.specs.Image.{image_bytes};
ghost use Rattle.log_disk.specs.Steps.{written_to, cut_to};

use crate::image::Image;
use crate::past::Past;
use crate::ranges::Range;
use arn_base::{Bytes, NoMemory};
use std::alloc::Global;

/// What a disk holds, what was written and how long it was since the last sync, and what it held
/// before each change.
#[derive(Drop)]
pub struct Medium {
    pub alloc: Global,
    pub image: Image,
    pub written: Vec<Range>,
    pub smallest: usize,
    pub greatest: usize,
    pub past: Vec<Past>,
}

impl Medium {
    ghost use Rattle.log_disk.specs.InMemory.{fresh, changed, state_of};

    pub fn new(alloc: Global, bytes: Bytes) -> Medium
        ensures { state_of result ≡ fresh bytes }
    {
        let len = bytes.len();
        Medium {
            alloc,
            image: Image::Given(bytes),
            written: Vec::new(alloc),
            smallest: len,
            greatest: len,
            past: Vec::new(alloc),
        }
    }

    /// The bytes that a read gives.
    pub fn bytes(&self) -> &[u8]
        ensures { result.now ≡ image_bytes self.now.image }
    {
        self.image.as_slice()
    }

    /// The smallest length since the last sync.
    pub fn shortest(&self) -> usize
        ensures { result ≡ shortest (state_of self.now).held }
    {
        self.smallest.min(self.image.len())
    }

    /// The greatest length since the last sync.
    pub fn longest(&self) -> usize
        ensures { result ≡ longest (state_of self.now).held }
    {
        self.greatest.max(self.image.len())
    }

    /// Copies what a change of a part of the bytes takes away.
    fn before(&self, from: usize, to: usize) -> Result<Past, NoMemory>
        requires order { from ≤ to }
        requires in_range { to ≤ length (image_bytes self.now.image) }
        ensures at { IfOk result (λ past. past.at ≡ from) }
        ensures bytes { IfOk result (λ past.
            past.bytes.items ≡ take (to - from) (drop from (image_bytes self.now.image))) }
        ensures len { IfOk result (λ past. past.len ≡ length (image_bytes self.now.image)) }
        ensures written { IfOk result (λ past. past.written.items ≡ self.now.written.items) }
        ensures smallest { IfOk result (λ past. past.smallest ≡ self.now.smallest) }
        ensures greatest { IfOk result (λ past. past.greatest ≡ self.now.greatest) }
    {
        Ok(Past {
            at: from,
            bytes: Vec::from_slice(self.alloc, &self.image.as_slice()[from..to])?,
            len: self.image.len(),
            written: Vec::from_slice(self.alloc, self.written.as_slice())?,
            smallest: self.smallest,
            greatest: self.greatest,
        })
    }

    /// Writes bytes at the start of a range, all of which counts as written.
    pub fn write(&mut self, range: Range, bytes: &[u8]) -> Result<(), NoMemory>
        requires in_range { range.start ≤ length (image_bytes self.old.image) }
        requires fits { range.start + length bytes.now ≤ range.end }
        ensures ok { OnOk result (state_of self.new
            ≡ changed (written_to range bytes.now (state_of self.old).held) (state_of self.old)) }
        ensures err { OnErr result (state_of self.new ≡ state_of self.old) }
    {
        let Range { start, end } = range;
        let before = self.before(start, (start + bytes.len()).min(self.image.len()))?;
        let (shortest, longest) = (self.shortest(), self.longest());
        self.past.reserve(1)?;
        self.written.reserve(1)?;
        self.image.overwrite(self.alloc, start, bytes)?;
        self.past.push(before)?;
        self.written.push(range)?;
        self.smallest = shortest;
        self.greatest = longest.max(end);
        Ok(())
    }

    /// Cuts the bytes to a length.
    pub fn cut(&mut self, len: usize) -> Result<(), NoMemory>
        ensures ok { OnOk result (state_of self.new
            ≡ changed (cut_to len (state_of self.old).held) (state_of self.old)) }
        ensures err { OnErr result (state_of self.new ≡ state_of self.old) }
    {
        let kept = len.min(self.image.len());
        let before = self.before(kept, self.image.len())?;
        let (shortest, longest) = (self.shortest(), self.longest());
        self.past.reserve(1)?;
        self.image.cut(self.alloc, kept)?;
        self.past.push(before)?;
        self.smallest = shortest;
        self.greatest = longest;
        Ok(())
    }

    /// Makes durable what is there.
    pub fn sync(&mut self) -> Result<(), NoMemory>
        ensures ok { OnOk result (state_of self.new
            ≡ changed (durable (image_bytes self.old.image)) (state_of self.old)) }
        ensures err { OnErr result (state_of self.new ≡ state_of self.old) }
    {
        let before = self.before(0, 0)?;
        self.past.push(before)?;
        self.written.clear();
        self.smallest = self.image.len();
        self.greatest = self.smallest;
        Ok(())
    }

    /// Fills the buffer with the bytes at a place.
    pub fn read(&self, at: usize, buf: &mut [u8])
        requires { at + length buf.old ≤ length (image_bytes self.now.image) }
        ensures { buf.new ≡ take (length buf.old) (drop at (image_bytes self.now.image)) }
    {
        buf.copy_from_slice(&self.image.as_slice()[at..at + buf.len()]);
    }

    /// Whether a crash leaves the byte at a place.
    fn keeps(&self, place: usize) -> bool
        ensures { IsTrue result ↔ Stays (state_of self.now).held place }
    {
        place < self.shortest() && self.written.iter().all(|range| !range.covers(place))
    }

    /// The byte that a crash leaves at a place, or the filling where it may leave any.
    fn byte_after(&self, place: usize, fill: Option<u8>) -> u8
        ensures stays { Stays (state_of self.now).held place →
            result ≡ slice_index (image_bytes self.now.image) place }
        ensures filled { ¬ Stays (state_of self.now).held place →
            result ≡ filling fill (image_bytes self.now.image) place }
    {
        let read = self.image.as_slice().get(place).copied().unwrap_or(0);
        match fill {
            Some(byte) if !self.keeps(place) => byte,
            _ => read,
        }
    }

    /// One of the images that a crash may leave.
    pub fn crash_with(
        &self,
        alloc: Global,
        fill: Option<u8>,
        short: bool,
    ) -> Result<Bytes, NoMemory>
        ensures { IfOk result (CrashWith (state_of self.now).held fill short) }
    {
        let len = if short {
            self.shortest()
        } else {
            self.longest()
        };
        let mut bytes = Bytes::new(alloc);
        for place in 0..len {
            bytes.push(self.byte_after(place, fill))?;
        }
        Ok(bytes)
    }
}
