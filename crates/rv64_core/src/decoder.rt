// Words that were decoded lately.
ghost use Rattle.std.specs.Prelude.{◌≡◌, ◌<◌, Some};
ghost use Rattle.rv64_isa.specs.Decoded.{decoded};
ghost use Rattle.rv64_core.specs.declared.decoder.TheConstants as constants;

use arn_base::NoMemory;
use rv64_isa::{Instr, decode};
use std::alloc::Global;
use std::marker::Model;

/// How many places there are: 512 words in a row have places of their own.
const PLACES: usize = 512;

/// The word of an ECALL, with which places begin.
const ECALL: u32 = 0x73;

// A word and its instruction.
#[derive(Clone, Copy)]
struct Known {
    word: u32,
    instr: Instr,
}

/// Decodes words, and remembers at each place the word that was decoded there last. The address at
/// which a word stands says its place. An instruction is taken from there only where the word is
/// the same, so it doesn't matter what is written to the memory.
#[derive(Drop)]
pub struct Decoder {
    known: Vec<Known>,
}

impl Model for Decoder {
    ghost use Rattle.std.specs.Prelude.{All};
    ghost use Rattle.rv64_core.specs.Remembered.{IsDecoded};

    // Nobody sees what is remembered.
    ghost Value = { Unit {0} };

    ghost view = { λ _. tt };

    ghost invariant = { λ d. All IsDecoded d.known.items };
}

// The place of a word that stands at this address.
#[inline(always)]
fn place(at: u64) -> usize
    ensures { result < constants.PLACES }
{
    (at >> 2) as usize % PLACES
}

impl Decoder {
    /// One that remembers nothing, and has no memory to remember anything.
    pub fn new(alloc: Global) -> Decoder {
        Decoder {
            known: Vec::new(alloc),
        }
    }

    /// Takes memory for what is remembered, where there is none yet. Until then each word is decoded.
    pub fn make_room(&mut self) -> Result<(), NoMemory> {
        if self.known.is_empty() {
            if let Some(instr) = decode(ECALL) {
                self.fill(ECALL, &instr)?;
            }
        }
        Ok(())
    }

    // Each place remembers a word with its instruction.
    fn fill(&mut self, word: u32, instr: &Instr) -> Result<(), NoMemory>
        requires { decoded word ≡ Some instr.now }
    {
        let known = Known {
            word,
            instr: *instr,
        };
        Ok(self.known.resize(PLACES, known)?)
    }

    /// The instruction of a word that stands at this address, and None where the word is illegal.
    #[inline(always)]
    pub(crate) fn instr(&mut self, at: u64, word: u32) -> Option<Instr>
        ensures { result ≡ decoded word }
    {
        if let Some(known) = self.known.get(place(at)) {
            if known.word == word {
                return Some(known.instr);
            }
        }
        self.learn(place(at), word)
    }

    // The same of a word that isn't remembered at its place. From then on it is.
    #[inline(never)]
    fn learn(&mut self, place: usize, word: u32) -> Option<Instr>
        ensures { result ≡ decoded word }
    {
        let instr = decode(word)?;
        self.put(place, word, &instr);
        Some(instr)
    }

    // Remembers a word with its instruction at this place, if there is memory for places.
    fn put(&mut self, place: usize, word: u32, instr: &Instr)
        requires { decoded word ≡ Some instr.now }
    {
        if place < self.known.len() {
            self.known[place] = Known {
                word,
                instr: *instr,
            };
        }
    }
}
