// Memories that processes hold, each once.
ghost use Rattle.std.specs.Prelude.{◌≡◌, ◌==◌, ◌++◌, ◌∷◌, [], length, IfOk, OnOk, position};
ghost use Rattle.guest_states.specs.Told.{Adds, AreHeld, place_in};

use arn_base::{Blocks, NoMemory, Windows};
use std::alloc::Global;

/// Memories in the order in which they were found: the events that made them, and their blocks that
/// aren't all zero.
#[derive(Drop)]
pub struct Held {
    pub names: Vec<u64>,
    pub memories: Windows,
}

impl Held {
    /// No memory.
    pub fn new(alloc: Global) -> Held
        ensures { AreHeld result [] }
    {
        Held {
            names: Vec::new(alloc),
            memories: Windows::new(alloc),
        }
    }

    // The place of a memory, if it is among them.
    fn find(&self, made: u64) -> Option<usize>
        ensures { result ≡ position (λ name. name == made) self.now.names.items }
    {
        self.names.iter().position(|name| *name == made)
    }

    // Puts one more behind the others, and answers its place.
    fn push(&mut self, made: u64, blocks: Blocks) -> Result<usize, NoMemory>
        ensures place { IfOk result (λ place. place ≡ length self.old.names.items) }
        ensures names { OnOk result (self.new.names.items ≡ self.old.names.items ++ made ∷ []) }
        ensures memories { OnOk result (self.new.memories ≡ self.old.memories ++ blocks ∷ []) }
    {
        let place = self.names.len();
        self.names.push(made)?;
        self.memories.push(blocks)?;
        Ok(place)
    }

    /// The number of a memory, which is put behind the others where it isn't among them. More than 256
    /// can't be numbered, and are refused as want of memory.
    pub fn number(&mut self, made: u64, blocks: Blocks) -> Result<u8, NoMemory>
        ensures adds { OnOk result (Adds made blocks self.old self.new) }
        ensures number { IfOk result (λ number. number ≡ place_in self.new made) }
    {
        match self.find(made) {
            Some(place) => number_of(place),
            None => number_of(self.push(made, blocks)?),
        }
    }

    /// The memories by their blocks.
    pub fn into_memories(self) -> Windows
        ensures { result ≡ self.memories }
    {
        self.memories
    }
}

// A place as a number.
fn number_of(place: usize) -> Result<u8, NoMemory>
    ensures { IfOk result (λ number. number ≡ place) }
{
    match u8::try_from(place) {
        Ok(number) => Ok(number),
        Err(_) => Err(NoMemory),
    }
}
