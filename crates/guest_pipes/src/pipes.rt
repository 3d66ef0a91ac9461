// Pipes by number.
ghost use Rattle.std.specs.Prelude.{◌≡◌, ◌≤◌, ◌<◌, ◌^◌, ◌↔◌, IfOk, IfErr, IsTrue, OnOk, OnErr, Err, Some, length, min, not, option_map, take, ◌-◌, []};
ghost use Rattle.parts_model.specs.Channel.{front};
ghost use Rattle.parts_model.specs.Numbered.{nth};
ghost use Rattle.parts_model.specs.Pipes.{can_put as has_place, can_take as has_bytes, end_closed, free_pipes, pipe_made, room, with_change, with_put, with_taken};
ghost use Rattle.parts_model.specs.Tagged.{given};
ghost use Rattle.guest_pipes.specs.Answers.{IsMakeError, IsPutError, IsTakeError, IsThere, end_of, has_to_wait, holds};

use crate::entries::{Entry, find_key, key_of};
use crate::pipe::Pipe;
use crate::{PipeError, Side};
use arn_base::Give;
use parts_model::limits::MOST_PIPES;
use slab::Slab;
use std::alloc::Global;
use std::marker::Model;

const MOST: usize = MOST_PIPES as usize;

/// Pipes, numbered from 0 in the order of their making. A number is never given again. A pipe
/// without ends is gone, and its bytes with it.
#[derive(Drop)]
pub struct Pipes {
    alloc: Global,
    table: Slab<Entry>,
    made: u32,
}

impl Model for Pipes {
    ghost use Rattle.parts_model.specs.Pipes.{Pipes as PipesModel};
    ghost use Rattle.guest_pipes.specs.Table.{IsSound, listed};

    ghost Value = { PipesModel };

    ghost view = { λ s. listed s.table.slots s.made };

    ghost invariant = { λ s. IsSound s.table.slots s.made };
}

impl Pipes {
    pub fn new(alloc: Global) -> Pipes
        ensures { result ≡ [] }
    {
        Pipes {
            alloc,
            table: Slab::new(alloc),
            made: 0,
        }
    }

    /// How many pipes were made, those that are gone among them.
    pub fn count_made(&self) -> u32
        ensures { result ≡ length self.now }
    {
        self.made
    }

    /// Whether the pipe of a number is there.
    pub fn is_there(&self, pipe: u32) -> bool
        ensures { IsTrue result ↔ IsThere self.now pipe }
    {
        find_key(&self.table, pipe).is_some()
    }

    /// How many more pipes there may be.
    pub fn free(&self) -> u32
        ensures { result ≡ free_pipes self.now }
    {
        MOST.saturating_sub(self.table.len()) as u32
    }

    /// Makes a pipe with both ends, and answers its number.
    pub fn make(&mut self) -> Result<u32, PipeError>
        requires few { length self.old < 2 ^ 31 }
        ensures made { OnOk result (self.new ≡ pipe_made self.old) }
        ensures number { IfOk result (λ pipe. pipe ≡ length self.old) }
        ensures too_many { (result ≡ Err PipeError.TooMany) ↔ (free_pipes self.old ≡ 0) }
        ensures answers { IfErr result IsMakeError }
        ensures err { OnErr result (self.new ≡ self.old) }
    {
        if self.free() == 0 {
            return Err(PipeError::TooMany);
        }
        self.table.reserve(1)?;
        let number = self.made;
        let pipe = Pipe::new(self.alloc);
        self.table.insert_reserved(Entry { number, pipe });
        self.made += 1;
        Ok(number)
    }

    /// Takes the last pipe back, as if it weren't made.
    pub fn remove_last(&mut self)
        ensures { self.new ≡ take (length self.old - 1) self.old }
    {
        if self.made == 0 {
            return;
        }
        self.made -= 1;
        if let Some(key) = find_key(&self.table, self.made) {
            let _ = self.table.remove(key);
        }
    }

    /// Puts bytes of an event into a pipe, as many as there is room for, and answers how many.
    /// NoMemory says too that 2^64 bytes were put into the pipe.
    pub fn put(&mut self, pipe: u32, bytes: &[u8], event: u64) -> Result<u32, PipeError>
        requires there { IsThere self.old pipe }

        ensures put { OnOk result
            (self.new ≡ with_change self.old pipe (λ p. with_put p bytes.now event)) }
        ensures count { IfOk result (λ count.
            Some count ≡ option_map (λ p. min (length bytes.now) (room p)) (nth self.old pipe)) }

        ensures broken { (result ≡ Err PipeError.Broken) ↔
            holds (λ p. IsTrue (not p.has_reader)) (nth self.old pipe) }
        ensures not_ready { (result ≡ Err PipeError.NotReady) ↔
            holds (λ p. IsTrue (has_to_wait bytes.now p)) (nth self.old pipe) }
        ensures answers { IfErr result IsPutError }
        ensures err { OnErr result (self.new ≡ self.old) }
    {
        let key = key_of(&self.table, pipe);
        self.table[key].pipe.put(bytes, event)
    }

    /// Takes the first bytes of a pipe, at most `max`, with their origins as the longest runs.
    pub fn take(&mut self, pipe: u32, max: u32) -> Result<Give, PipeError>
        requires there { IsThere self.old pipe }

        ensures taken { OnOk result
            (self.new ≡ with_change self.old pipe (λ p. with_taken p max)) }
        ensures given { IfOk result (λ give.
            Some give ≡ option_map (λ p. given (front p.channel max)) (nth self.old pipe)) }
        ensures few_bytes { IfOk result (λ give. length give.bytes ≤ max) }
        ensures few_origins { IfOk result (λ give. length give.origins ≤ max) }

        ensures not_ready { (result ≡ Err PipeError.NotReady) ↔
            holds (λ p. IsTrue (not (has_bytes p))) (nth self.old pipe) }
        ensures answers { IfErr result IsTakeError }
        ensures err { OnErr result (self.new ≡ self.old) }
    {
        let key = key_of(&self.table, pipe);
        self.table[key].pipe.take(max as usize)
    }

    /// Whether a `put` of some bytes is ready: it takes some, or nothing reads the pipe.
    pub fn can_put(&self, pipe: u32) -> bool
        requires { IsThere self.now pipe }
        ensures { Some result ≡ option_map has_place (nth self.now pipe) }
    {
        let key = key_of(&self.table, pipe);
        self.table[key].pipe.can_put()
    }

    /// Whether a `take` is ready: there is a byte, or nothing writes the pipe.
    pub fn can_take(&self, pipe: u32) -> bool
        requires { IsThere self.now pipe }
        ensures { Some result ≡ option_map has_bytes (nth self.now pipe) }
    {
        let key = key_of(&self.table, pipe);
        self.table[key].pipe.can_take()
    }

    /// Closes an end of a pipe, if it is open. A pipe without ends is gone.
    pub fn close_end(&mut self, pipe: u32, side: Side)
        ensures { self.new ≡ end_closed self.old pipe (end_of side) }
    {
        let key = match find_key(&self.table, pipe) {
            Some(key) => key,
            None => return,
        };
        if !self.table[key].pipe.close(side) {
            let _ = self.table.remove(key);
        }
    }
}
