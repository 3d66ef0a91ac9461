// One window of bytes.
ghost use Rattle.std.specs.Prelude.{◌≡◌, ◌<◌, ◌≤◌, ◌+◌, ◌*◌, ◌^◌, ◌↔◌, length, vec_len, IsOk, IfOk};
ghost use Rattle.arn_base.specs.Window.{bytes_of, number_of};

use arn_base::{BadAddress, Memory, StoreError};
use std::alloc::{AllocError, Global};

#[derive(Drop)]
pub(crate) struct Flat {
    from: u64,
    bytes: Vec<u8>,
    // It takes no bytes.
    pub(crate) is_full: bool,
}

impl Flat {
    pub(crate) fn of_words(alloc: Global, from: u64, words: &[u32]) -> Result<Flat, AllocError> {
        let mut bytes = Vec::new(alloc);
        for word in words {
            bytes.extend_from_slice(&word.to_le_bytes())?;
        }
        Ok(Flat {
            from,
            bytes,
            is_full: false,
        })
    }

    pub(crate) fn copy(&self) -> Result<Flat, AllocError> {
        let bytes = Vec::from_slice(*self.bytes.allocator(), self.bytes.as_slice())?;
        Ok(Flat {
            from: self.from,
            bytes,
            is_full: self.is_full,
        })
    }

    pub(crate) fn bytes(&self) -> &[u8] {
        self.bytes.as_slice()
    }

    // The place of a range among the bytes.
    fn place(&self, at: u64, len: u8) -> Result<usize, BadAddress>
        ensures whole { IsOk result ↔ ((self.now.from ≤ at) ×
            (at + len ≤ self.now.from + vec_len self.now.bytes)) }
        ensures place { IfOk result (λ place. at ≡ self.now.from + place) }
    {
        let len = u64::from(len);
        let held = self.bytes.len() as u64;
        if at < self.from || held < len || held - len < at - self.from {
            return Err(BadAddress);
        }
        Ok((at - self.from) as usize)
    }
}

impl Memory for Flat {
    ghost use Rattle.std.specs.Prelude.{◌∷◌, []};

    ghost windows = { λ m. record { from = m.from; bytes = m.bytes.items } ∷ [] };

    ghost wants_memory = { λ m. m.is_full };

    fn load(&self, at: u64, len: u8) -> Result<u64, BadAddress> {
        let place = self.place(at, len)?;
        Ok(number(&self.bytes.as_slice()[place..place + usize::from(len)]))
    }

    fn store(&mut self, at: u64, len: u8, value: u64) -> Result<(), StoreError> {
        let place = self.place(at, len)?;
        if self.is_full {
            return Err(StoreError::NoMemory);
        }
        spell(
            &mut self.bytes.as_mut_slice()[place..place + usize::from(len)],
            value,
        );
        Ok(())
    }
}

// The number that bytes spell.
fn number(bytes: &[u8]) -> u64
    requires { length bytes.now ≤ 8 }
    ensures number { result ≡ number_of bytes.now }
    ensures below { result < 2 ^ (8 * length bytes.now) }
{
    match bytes {
        [] => 0,
        [first, rest @ ..] => u64::from(*first) + 256 * number(rest),
    }
}

// Writes the lowest bytes of a number, the lowest first.
fn spell(bytes: &mut [u8], mut number: u64)
    ensures { bytes.new ≡ bytes_of (length bytes.old) number }
{
    for byte in bytes.iter_mut() {
        *byte = (number % 256) as u8;
        number /= 256;
    }
}
