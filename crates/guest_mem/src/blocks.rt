// The blocks of a window that aren't all zero.
ghost use Rattle.std.specs.Prelude.{◌≡◌, ℕ, ◌+◌, ◌*◌, ◌/◌, ◌<◌, ◌^◌, ◌==◌, ◌++◌, List, length, take, drop, not, IfOk, OnOk};
ghost use Rattle.std.specs.List.{list_any};
ghost use Rattle.parts_model.specs.Blocks.{blocks_of, used_block, used_blocks};

use arn_base::{Block, Blocks, NoMemory};
use parts_model::limits::BLOCK_LEN;
use std::alloc::Global;
use std::simd::prelude::*;

// Whether some of 64 bytes isn't zero. They are looked at together, as a vector.
#[inline(always)]
fn is_any_used(bytes: &[u8; 64]) -> bool
    ensures { result ≡ list_any (λ byte. not (byte == 0)) bytes.now }
{
    u8x64::from_array(*bytes).reduce_or() != 0
}

// Whether some byte of a block isn't zero.
fn is_block_used(bytes: &[u8; BLOCK_LEN]) -> bool
    ensures { result ≡ list_any (λ byte. not (byte == 0)) bytes.now }
{
    let (parts, _) = bytes.as_chunks::<64>();
    for part in parts {
        if is_any_used(part) {
            return true;
        }
    }
    false
}

// Adds the block of a number, if it isn't all zero.
fn add_if_used(blocks: &mut Blocks, number: u16, bytes: &[u8; BLOCK_LEN]) -> Result<(), NoMemory>
    ensures { OnOk result (blocks.new ≡
        blocks.old ++ used_block (record { number = number; bytes = bytes.now })) }
{
    if is_block_used(bytes) {
        blocks.push(Block {
            number,
            bytes: *bytes,
        })?;
    }
    Ok(())
}

/// Adds the blocks of a part of a window that aren't all zero. `first` is the number of the part's
/// first block, and those before it that aren't all zero are there.
pub fn add_used(blocks: &mut Blocks, first: u16, part: &[u8]) -> Result<(), NoMemory>
    requires { BLOCK_LEN * first + length part.now < BLOCK_LEN * 2 ^ 16 }
    ensures { OnOk result ((window : List ℕ) →
        take (length part.now) (drop (BLOCK_LEN * first) window) ≡ part.now →
        blocks.old ≡ used_blocks window first →
        blocks.new ≡ used_blocks window (first + length part.now / BLOCK_LEN)) }
{
    let (whole, _) = part.as_chunks::<BLOCK_LEN>();
    for (index, bytes) in whole.iter().enumerate() {
        add_if_used(blocks, first + index as u16, bytes)?;
    }
    Ok(())
}

/// The blocks that aren't all zero, in order of number.
pub fn used_blocks(alloc: Global, bytes: &[u8]) -> Result<Blocks, NoMemory>
    requires { length bytes.now < BLOCK_LEN * 2 ^ 16 }
    ensures { IfOk result (λ blocks. blocks ≡ blocks_of bytes.now) }
{
    let mut blocks = Blocks::new(alloc);
    add_used(&mut blocks, 0, bytes)?;
    Ok(blocks)
}
