// The bytes of a segment, which processes share.
ghost use Rattle.std.specs.Prelude.{◌≡◌, ◌≢◌, ◌↔◌, false, length, IfOk, OnOk, OnErr, IsErr, IsNone, Some, Err, option_copied, option_map, take};
ghost use Rattle.std.specs.Result.{result_ok};
ghost use Rattle.arn_base.specs.Window.{bytes_at, with_bytes};
ghost use Rattle.parts_model.specs.Blocks.{blocks_of};
ghost use Rattle.parts_model.specs.Memory.{zeros, segment_window};

use crate::blocks::used_blocks;
use crate::extent::Extent;
use arn_base::{BadAddress, Blocks, Bytes, Memory, NoMemory, StoreError};
use parts_model::limits::{SEGMENT_LEN, SEGMENT_START};
use std::alloc::Global;
use std::cmp::min;
use std::marker::Model;

const SHARED: Extent = Extent {
    from: SEGMENT_START,
    len: SEGMENT_LEN,
};

/// The bytes of a segment. Processes that hold it see them in the shared window, the first at `SEGMENT_START`.
#[derive(Drop)]
pub struct Segment {
    bytes: Vec<u8>,
}

impl Model for Segment {
    ghost use Rattle.std.specs.Prelude.{ℕ, List, ◌≡◌, length};
    ghost use Rattle.parts_model.specs.declared.limits.TheConstants.{SEGMENT_LEN};

    ghost Value = { List ℕ };

    ghost view = { λ segment. segment.bytes.items };

    ghost invariant = { λ segment. length segment.bytes.items ≡ SEGMENT_LEN };
}

impl Segment {
    /// A segment of zeros.
    pub fn new(alloc: Global) -> Result<Segment, NoMemory>
        ensures zeros { IfOk result (λ segment. segment ≡ zeros SEGMENT_LEN) }
        ensures length { IfOk result (λ segment. length segment ≡ SEGMENT_LEN) }
    {
        let bytes = vec![in alloc; 0; SEGMENT_LEN as usize]?;
        Ok(Segment { bytes })
    }

    /// How many bytes the segment has.
    pub fn len(&self) -> u64
        ensures value { result ≡ SEGMENT_LEN }
        ensures length { length self.now ≡ SEGMENT_LEN }
    {
        self.bytes.len() as u64
    }

    /// Lends the bytes of a range of addresses in the shared window.
    pub fn slice(&self, at: u64, len: u64) -> Result<&[u8], BadAddress>
        ensures bytes { option_copied (result_ok result) ≡ bytes_at (segment_window self.now) at len }
        ensures length { length self.now ≡ SEGMENT_LEN }
    {
        SHARED.slice(self.bytes.as_slice(), at, len)
    }

    /// Copies the bytes of a range of addresses in the shared window, as many as the buffer has.
    pub fn read_into(&self, at: u64, buf: &mut [u8]) -> Result<(), BadAddress>
        ensures ok { OnOk result (bytes_at (segment_window self.now) at (length buf.old) ≡ Some buf.new) }
        ensures bad_address { IsErr result ↔
            IsNone (bytes_at (segment_window self.now) at (length buf.old)) }
        ensures err { OnErr result (buf.new ≡ buf.old) }
        ensures length { length self.now ≡ SEGMENT_LEN }
    {
        buf.copy_from_slice(self.slice(at, buf.len() as u64)?);
        Ok(())
    }

    /// A copy of the first bytes of a range of addresses, where it lies whole in the shared window.
    pub fn first_of(&self, at: u64, len: u64, first: u64) -> Result<Option<Bytes>, NoMemory>
        ensures { IfOk result (λ copy. copy ≡
            option_map (take first) (bytes_at (segment_window self.now) at len)) }
    {
        match self.slice(at, len) {
            Ok(bytes) => {
                let few = min(first as usize, bytes.len());
                let copy = Bytes::from_slice(*self.bytes.allocator(), &bytes[..few])?;
                Ok(Some(copy))
            }
            Err(BadAddress) => Ok(None),
        }
    }

    /// Writes bytes at an address in the shared window. It takes no memory.
    pub fn write_from(&mut self, at: u64, bytes: &[u8]) -> Result<(), StoreError>
        ensures ok { OnOk result
            (segment_window self.new ≡ with_bytes (segment_window self.old) at bytes.now) }
        ensures bad_address { (result ≡ Err StoreError.BadAddress) ↔
            IsNone (bytes_at (segment_window self.old) at (length bytes.now)) }
        ensures memory { result ≢ Err StoreError.NoMemory }
        ensures err { OnErr result (self.new ≡ self.old) }
        ensures length { length self.new ≡ SEGMENT_LEN }
    {
        Ok(SHARED.write_from(self.bytes.as_mut_slice(), at, bytes)?)
    }

    /// The blocks of 256 bytes that aren't all zero, numbered from the segment's first byte on.
    pub fn blocks(&self) -> Result<Blocks, NoMemory>
        ensures { IfOk result (λ blocks. blocks ≡ blocks_of self.now) }
    {
        used_blocks(*self.bytes.allocator(), self.bytes.as_slice())
    }
}

impl Memory for Segment {
    ghost use Rattle.parts_model.specs.Memory.{segment_window};

    ghost windows = { segment_window };

    ghost wants_memory = { λ m. false };

    #[inline(always)]
    fn load(&self, at: u64, len: u8) -> Result<u64, BadAddress> {
        SHARED.load(self.bytes.as_slice(), at, len)
    }

    #[inline(always)]
    fn store(&mut self, at: u64, len: u8, value: u64) -> Result<(), StoreError> {
        Ok(SHARED.store(self.bytes.as_mut_slice(), at, len, value)?)
    }
}
