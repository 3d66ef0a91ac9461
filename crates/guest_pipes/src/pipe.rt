// One pipe: the bytes in it, and its ends.
ghost use Rattle.std.specs.Prelude.{◌≡◌, ◌≤◌, ◌<◌, ◌^◌, ◌↔◌, ◌||◌, ◌+◌, ◌-◌, IfOk, IfErr, IsTrue, OnOk, OnErr, Err, length, min, not};
ghost use Rattle.parts_model.specs.Channel.{front};
ghost use Rattle.parts_model.specs.Pipes.{can_put, can_take, if_open, new_pipe, room, with_put, with_taken, without_end};
ghost use Rattle.parts_model.specs.Tagged.{given};
ghost use Rattle.guest_pipes.specs.Answers.{IsPutError, IsTakeError, end_of, has_to_wait};

use crate::runs::{Run, drop_gone, first_origins};
use crate::{PipeError, Side};
use arn_base::{Bytes, Give, NoMemory};
use parts_model::limits::MOST_PIPE_BYTES;
use std::alloc::Global;
use std::collections::VecDeque;
use std::marker::Model;

const MOST_BYTES: usize = MOST_PIPE_BYTES as usize;

/// The bytes that were put into a pipe and not yet taken, how many were taken before them, and
/// which ends are open. Bytes that were taken stay before those that wait, until bytes are put while
/// more were taken than wait. The runs tell of which events those that wait are; so many places of
/// the first run are gone.
#[derive(Drop)]
pub struct Pipe {
    taken: u64,
    head: usize,
    held: Vec<u8>,
    gone: u32,
    runs: VecDeque<Run>,
    has_reader: bool,
    has_writer: bool,
}

impl Model for Pipe {
    ghost use Rattle.std.specs.Prelude.{drop, length};
    ghost use Rattle.parts_model.specs.Pipes.{Pipe as PipeModel};
    ghost use Rattle.guest_pipes.specs.Queue.{IsQueue};
    ghost use Rattle.guest_pipes.specs.Runs.{places_of, tagged};

    ghost Value = { PipeModel };

    ghost view = { λ s. record {
      channel = record {
        taken = s.taken;
        queue = tagged (drop s.head s.held.items) (drop s.gone (places_of s.runs.items));
      };
      has_reader = s.has_reader;
      has_writer = s.has_writer;
    } };

    ghost invariant = { λ s. IsQueue s.taken s.head (length s.held.items) s.gone s.runs.items };
}

impl Pipe {
    /// An empty pipe with both ends.
    pub fn new(alloc: Global) -> Pipe
        ensures { result ≡ new_pipe }
    {
        Pipe {
            taken: 0,
            head: 0,
            held: Vec::new(alloc),
            gone: 0,
            runs: VecDeque::new(alloc),
            has_reader: true,
            has_writer: true,
        }
    }

    // How many bytes wait.
    fn len(&self) -> usize
        ensures count { result ≡ length self.now.channel.queue }
        ensures few { result ≤ MOST_BYTES }
        ensures counted { self.now.channel.taken + result < 2 ^ 64 }
    {
        self.held.len() - self.head
    }

    fn room(&self) -> usize
        ensures { result ≡ room self.now }
    {
        MOST_BYTES - self.len()
    }

    pub fn can_put(&self) -> bool
        ensures { result ≡ can_put self.now }
    {
        self.room() > 0 || !self.has_reader
    }

    pub fn can_take(&self) -> bool
        ensures { result ≡ can_take self.now }
    {
        self.len() > 0 || !self.has_writer
    }

    /// Closes an end, and answers whether one is open still.
    pub fn close(&mut self, side: Side) -> bool
        ensures closed { if_open self.new ≡ without_end (end_of side) self.old }
        ensures open { result ≡ self.new.has_reader || self.new.has_writer }
    {
        match side {
            Side::Reader => self.has_reader = false,
            Side::Writer => self.has_writer = false,
        }
        self.has_reader || self.has_writer
    }

    // How many further bytes can be counted.
    fn uncounted(&self) -> u64
        ensures { result + (self.now.channel.taken + length self.now.channel.queue) ≡ 2 ^ 64 - 1 }
    {
        u64::MAX - self.taken - self.len() as u64
    }

    /// Puts bytes of an event behind the others, as many as there is room for, and answers how
    /// many. NoMemory says too that 2^64 bytes were put.
    pub fn put(&mut self, bytes: &[u8], event: u64) -> Result<u32, PipeError>
        ensures put { OnOk result (self.new ≡ with_put self.old bytes.now event) }
        ensures count { IfOk result (λ count. count ≡ min (length bytes.now) (room self.old)) }
        ensures broken { (result ≡ Err PipeError.Broken) ↔ IsTrue (not self.old.has_reader) }
        ensures not_ready { (result ≡ Err PipeError.NotReady) ↔
            IsTrue (has_to_wait bytes.now self.old) }
        ensures answers { IfErr result IsPutError }
        ensures err { OnErr result (self.new ≡ self.old) }
    {
        if !self.has_reader {
            return Err(PipeError::Broken);
        }
        let room = self.room();
        if room == 0 && !bytes.is_empty() {
            return Err(PipeError::NotReady);
        }
        let count = bytes.len().min(room);
        self.append(&bytes[..count], event)?;
        Ok(count as u32)
    }

    // Puts bytes of an event behind the others.
    fn append(&mut self, bytes: &[u8], event: u64) -> Result<(), NoMemory>
        requires { length bytes.now ≤ room self.old }
        ensures put { OnOk result (self.new ≡ with_put self.old bytes.now event) }
        ensures err { OnErr result (self.new ≡ self.old) }
    {
        if bytes.len() as u64 > self.uncounted() {
            return Err(NoMemory);
        }
        if bytes.is_empty() {
            return Ok(());
        }
        self.forget_taken();
        self.runs.reserve(1)?;
        self.held.extend_from_slice(bytes)?;
        let len = bytes.len() as u32;
        self.runs.push_back_reserved(Run { event, len });
        Ok(())
    }

    // Forgets the bytes that were taken, where they are more than those that wait, or none waits.
    fn forget_taken(&mut self)
        ensures { self.new ≡ self.old }
    {
        if self.len() == 0 {
            self.held.clear();
            self.head = 0;
        } else if self.head > self.len() {
            let _ = self.held.drain(..self.head);
            self.head = 0;
        }
    }

    /// Takes the first bytes, at most `max`, with their origins as the longest runs.
    pub fn take(&mut self, max: usize) -> Result<Give, PipeError>
        ensures taken { OnOk result (self.new ≡ with_taken self.old max) }
        ensures given { IfOk result (λ give. give ≡ given (front self.old.channel max)) }
        ensures few_bytes { IfOk result (λ give. length give.bytes ≤ max) }
        ensures few_origins { IfOk result (λ give. length give.origins ≤ max) }
        ensures not_ready { (result ≡ Err PipeError.NotReady) ↔ IsTrue (not (can_take self.old)) }
        ensures answers { IfErr result IsTakeError }
        ensures err { OnErr result (self.new ≡ self.old) }
    {
        if !self.can_take() {
            return Err(PipeError::NotReady);
        }
        let count = max.min(self.len());
        let give = self.give(count)?;
        self.remove(count);
        Ok(give)
    }

    // The first bytes with their origins.
    fn give(&self, count: usize) -> Result<Give, NoMemory>
        requires { count ≤ length self.now.channel.queue }
        ensures given { IfOk result (λ give. give ≡ given (front self.now.channel count)) }
        ensures few_bytes { IfOk result (λ give. length give.bytes ≤ count) }
        ensures few_origins { IfOk result (λ give. length give.origins ≤ count) }
    {
        let front = &self.held[self.head..self.head + count];
        Ok(Give {
            bytes: Bytes::from_slice(*self.held.allocator(), front)?,
            origins: first_origins(&self.runs, self.gone, count as u32)?,
        })
    }

    // Takes the first bytes away.
    fn remove(&mut self, count: usize)
        requires { count ≤ length self.old.channel.queue }
        ensures { self.new ≡ with_taken self.old count }
    {
        self.head += count;
        self.taken += count as u64;
        self.gone = drop_gone(&mut self.runs, self.gone + count as u32);
    }
}
