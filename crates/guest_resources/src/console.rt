// The console's queue.
ghost use Rattle.std.specs.Prelude.{◌≡◌, ◌+◌, ◌≤◌, ◌<◌, ◌^◌, length, drop, take, IfOk, OnOk, OnErr};
ghost use Rattle.parts_model.specs.Channel.{no_bytes, front, put_behind, without_front};
ghost use Rattle.parts_model.specs.Tagged.{held_bytes as held_of};

use arn_base::{NoMemory, Src};
use parts_model::TaggedByte;
use std::alloc::Global;
use std::marker::Model;

/// Typed bytes that no process has read yet, and how many have been read. Bytes that were read stay
/// in front of the others until they are as many.
#[derive(Drop)]
pub struct Console {
    taken: u64,
    head: usize,
    held: Vec<TaggedByte>,
}

impl Model for Console {
    ghost use Rattle.std.specs.Prelude.{drop, length};
    ghost use Rattle.parts_model.specs.Channel.{Channel};

    ghost Value = { Channel };

    ghost use Rattle.guest_resources.specs.Queue.{IsQueue};

    ghost view = { λ s. record { taken = s.taken; queue = drop s.head s.held.items } };

    ghost invariant = { λ s. IsQueue s.taken s.head (length s.held.items) };
}

// Bytes of an event, each with its place.
fn held_bytes(alloc: Global, event: u64, bytes: &[u8]) -> Result<Vec<TaggedByte>, NoMemory>
    requires { length bytes.now < 2 ^ 32 }
    ensures { IfOk result (λ held. held.items ≡ held_of event bytes.now) }
{
    let mut held = Vec::with_capacity(alloc, bytes.len())?;
    for (at, value) in bytes.iter().enumerate() {
        let origin = Src {
            event,
            at: at as u32,
        };
        held.push(TaggedByte {
            value: *value,
            origin,
        })?;
    }
    Ok(held)
}

impl Console {
    pub fn new(alloc: Global) -> Console
        ensures { result ≡ no_bytes }
    {
        Console {
            taken: 0,
            head: 0,
            held: Vec::new(alloc),
        }
    }

    /// How many bytes wait.
    pub fn len(&self) -> usize
        ensures { result ≡ length self.now.queue }
    {
        self.held.len() - self.head
    }

    /// The first bytes.
    pub fn front(&self, count: usize) -> &[TaggedByte]
        requires { count ≤ length self.now.queue }
        ensures { result.now ≡ front self.now count }
    {
        &self.held[self.head..self.head + count]
    }

    /// Takes the first bytes away.
    pub fn take(&mut self, count: usize)
        requires { count ≤ length self.old.queue }
        ensures { self.new ≡ without_front self.old count }
    {
        self.head += count;
        self.taken += count as u64;
    }

    /// Puts bytes of an event behind the queue. NoMemory says too that 2^64 bytes were typed.
    pub fn put(&mut self, bytes: &[u8], event: u64) -> Result<(), NoMemory>
        requires { length bytes.now < 2 ^ 32 }
        ensures typed { OnOk result (self.new ≡ put_behind self.old event bytes.now) }
        ensures err { OnErr result (self.new ≡ self.old) }
    {
        self.forget_taken();
        let left = u64::MAX - self.taken - self.len() as u64;
        if bytes.len() as u64 > left {
            return Err(NoMemory);
        }
        let held = held_bytes(*self.held.allocator(), event, bytes)?;
        self.held.extend_from_slice(held.as_slice())?;
        Ok(())
    }

    // Forgets the bytes that were read, where they are no fewer than those that wait.
    fn forget_taken(&mut self)
        ensures { self.new ≡ self.old }
    {
        if self.head > self.held.len() - self.head {
            let _ = self.held.drain(..self.head);
            self.head = 0;
        }
    }
}
