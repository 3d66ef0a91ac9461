// The bytes of one file, and how many hold it.
ghost use Rattle.std.specs.Prelude.{◌≡◌, ◌+◌, ◌≤◌, ◌<◌, ◌^◌, ◌↔◌, length, IfOk, IfErr, OnOk, OnErr, Err, [], nat_lt};
ghost use Rattle.parts_model.specs.declared.limits.TheConstants.{MOST_FILE_BYTES};
ghost use Rattle.parts_model.specs.Files.{fitting, laid_over, read_from, rewritten, without_holder};
ghost use Rattle.parts_model.specs.Tagged.{given, held_bytes};
ghost use Rattle.guest_files.specs.Errors.{IsWriteError};

use crate::FileError;
use crate::runs::Runs;
use arn_base::{Bytes, Give, NoMemory};
use parts_model::limits::MOST_FILE_BYTES;
use std::alloc::Global;
use std::marker::Model;

const MOST_BYTES: usize = MOST_FILE_BYTES as usize;

/// The bytes of a file in one row, the event byte of each, and how many descriptions stand for it.
#[derive(Drop)]
pub struct Content {
    bytes: Vec<u8>,
    runs: Runs,
    holders: u32,
}

impl Model for Content {
    ghost use Rattle.parts_model.specs.Files.{File};
    ghost use Rattle.guest_files.specs.Runs.{IsRow, tagged};

    ghost Value = { File };

    ghost view = { λ content. record {
      bytes = tagged content.bytes.items content.runs;
      holders = content.holders;
    } };

    ghost invariant = { λ content. IsRow content.bytes.items content.runs };
}

impl Content {
    /// No bytes, and no holder.
    pub fn new(alloc: Global) -> Content
        ensures { result ≡ record { bytes = []; holders = 0 } }
    {
        Content {
            bytes: Vec::new(alloc),
            runs: Runs::new(alloc),
            holders: 0,
        }
    }

    /// The bytes of an event, and no holder.
    pub fn with_bytes(alloc: Global, bytes: &[u8], event: u64) -> Result<Content, FileError>
        ensures ok { IfOk result (λ content.
            content ≡ record { bytes = held_bytes event bytes.now; holders = 0 }) }
        ensures too_long { (result ≡ Err FileError.TooLong) ↔
            (MOST_FILE_BYTES < length bytes.now) }
        ensures answers { IfErr result IsWriteError }
    {
        if bytes.len() > MOST_BYTES {
            return Err(FileError::TooLong);
        }
        let mut content = Content::new(alloc);
        content.lay(0, bytes, event)?;
        Ok(content)
    }

    pub fn len(&self) -> u32
        ensures length { result ≡ length self.now.bytes }
        ensures most { result ≤ MOST_FILE_BYTES }
    {
        self.bytes.len() as u32
    }

    pub fn is_held(&self) -> bool
        ensures { result ≡ nat_lt 0 self.now.holders }
    {
        self.holders > 0
    }

    pub fn hold(&mut self)
        requires { self.old.holders < 2 ^ 31 }
        ensures { self.new ≡ record self.old { holders = self.old.holders + 1 } }
    {
        self.holders += 1;
    }

    pub fn release(&mut self)
        requires { 0 < self.old.holders }
        ensures { self.new ≡ without_holder self.old }
    {
        self.holders -= 1;
    }

    /// The bytes from a place on, at most `max`.
    pub fn read(&self, at: usize, max: usize) -> Result<Give, NoMemory>
        requires { at ≤ length self.now.bytes }
        ensures given { IfOk result (λ give. give ≡ given (read_from self.now.bytes at max)) }
        ensures few_bytes { IfOk result (λ give. length give.bytes ≤ max) }
        ensures few_origins { IfOk result (λ give. length give.origins ≤ max) }
    {
        let count = max.min(self.bytes.len() - at);
        let end = at + count;
        Ok(Give {
            bytes: Bytes::from_slice(*self.bytes.allocator(), &self.bytes[at..end])?,
            origins: self.runs.origins(at as u32, end as u32)?,
        })
    }

    /// Writes the bytes of an event at a place, as many as fit, and answers how many.
    pub fn write(&mut self, at: usize, bytes: &[u8], event: u64) -> Result<u32, FileError>
        requires { at ≤ length self.old.bytes }
        ensures written { OnOk result (self.new ≡ rewritten at bytes.now event self.old) }
        ensures count { IfOk result (λ count. count ≡ fitting at (length bytes.now)) }
        ensures too_long { (result ≡ Err FileError.TooLong) ↔
            ((at ≡ MOST_FILE_BYTES) × (0 < length bytes.now)) }
        ensures answers { IfErr result IsWriteError }
        ensures err { OnErr result (self.new ≡ self.old) }
    {
        let room = self.room(at);
        if room == 0 && !bytes.is_empty() {
            return Err(FileError::TooLong);
        }
        let count = bytes.len().min(room);
        self.lay(at, &bytes[..count], event)?;
        Ok(count as u32)
    }

    // How many bytes there may be from a place on: those that are there, and as many as the file
    // can grow.
    fn room(&self, at: usize) -> usize
        requires { at ≤ length self.now.bytes }
        ensures { at + result ≡ MOST_FILE_BYTES }
    {
        let there = self.bytes.len() - at;
        there + (MOST_BYTES - self.bytes.len())
    }

    // Writes the bytes of an event at a place.
    fn lay(&mut self, at: usize, bytes: &[u8], event: u64) -> Result<(), NoMemory>
        requires within { at ≤ length self.old.bytes }
        requires fits { at + length bytes.now ≤ MOST_FILE_BYTES }
        ensures laid { OnOk result (self.new ≡ record self.old {
          bytes = laid_over self.old.bytes at (held_bytes event bytes.now);
        }) }
        ensures err { OnErr result (self.new ≡ self.old) }
    {
        let len = self.bytes.len();
        let end = at + bytes.len();
        self.bytes.resize(len.max(end), 0)?;
        if let Err(error) = self.runs.lay(at as u32, bytes.len() as u32, event) {
            self.bytes.truncate(len);
            return Err(error);
        }
        self.bytes[at..end].copy_from_slice(bytes);
        Ok(())
    }
}
