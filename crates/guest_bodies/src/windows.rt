// The private window of a process that begins.
ghost use Rattle.std.specs.Prelude.{◌≡◌, ◌+◌, ◌-◌, ◌≤◌, length, IfOk, OnOk, All};
ghost use Rattle.arn_base.specs.Disk.{overwrite};
ghost use Rattle.acts_model.specs.Views.{window_at_start};
ghost use Rattle.parts_model.specs.Blocks.{with_blocks};
ghost use Rattle.parts_model.specs.Memory.{zeros};
ghost use Rattle.guest_bodies.specs.Shown.{IsInside};

use arn_base::{Block, NoMemory, StoreError};
use guest_image::Image;
use guest_mem::Space;
use parts_model::limits::{BLOCK_LEN, WINDOW_END, WINDOW_LEN, WINDOW_START};
use std::alloc::Global;

/// Lays bytes over those at an offset of a window.
fn lay(space: &mut Space, offset: u64, bytes: &[u8]) -> Result<(), NoMemory>
    requires length { length space.old.bytes ≡ WINDOW_LEN }
    requires inside { offset + length bytes.now ≤ WINDOW_LEN }
    ensures laid { OnOk result (space.new.bytes ≡ overwrite space.old.bytes offset bytes.now) }
    ensures length { length space.new.bytes ≡ WINDOW_LEN }
{
    match space.write_from(WINDOW_START + offset, bytes) {
        Ok(()) => Ok(()),
        Err(StoreError::NoMemory) => Err(NoMemory),
        Err(StoreError::BadAddress) => unreachable!(),
    }
}

// Lays blocks over what is in their places of a window.
fn lay_all(space: &mut Space, blocks: &[Block]) -> Result<(), NoMemory>
    requires length { length space.old.bytes ≡ WINDOW_LEN }
    requires inside { All IsInside blocks.now }
    ensures { OnOk result (space.new.bytes ≡ with_blocks blocks.now space.old.bytes) }
{
    for block in blocks {
        lay(space, BLOCK_LEN as u64 * block.number as u64, &block.bytes)?;
    }
    Ok(())
}

/// The window whose blocks that aren't all zero are these.
pub fn window_of(alloc: Global, blocks: &[Block]) -> Result<Space, NoMemory>
    requires { All IsInside blocks.now }
    ensures { IfOk result (λ space. space.bytes ≡ with_blocks blocks.now (zeros WINDOW_LEN)) }
{
    let mut space = Space::new(alloc)?;
    lay_all(&mut space, blocks)?;
    Ok(space)
}

// Lays a body at its load address and a block at the end of a window.
fn lay_both(space: &mut Space, load: u64, body: &[u8], block: &[u8]) -> Result<(), NoMemory>
    requires length { length space.old.bytes ≡ WINDOW_LEN }
    requires low { WINDOW_START ≤ load }
    requires high { load + length body.now ≤ WINDOW_END }
    requires block { length block.now ≤ WINDOW_LEN }
    ensures { OnOk result (space.new.bytes ≡ overwrite
        (overwrite space.old.bytes (load - WINDOW_START) body.now)
        (WINDOW_LEN - length block.now) block.now) }
{
    lay(space, load - WINDOW_START, body)?;
    lay(space, WINDOW_LEN - block.len() as u64, block)
}

/// The window of a process that starts: an image's body at its load address, and over it the
/// argument block at the end.
pub fn first_window(
    alloc: Global,
    image: Image,
    body: &[u8],
    block: &[u8],
) -> Result<Space, NoMemory>
    requires low { WINDOW_START ≤ image.load }
    requires high { image.load + length body.now ≤ WINDOW_END }
    requires block { length block.now ≤ WINDOW_LEN }
    ensures { IfOk result (λ space. space.bytes ≡ window_at_start
        (record { entry = image.entry; load = image.load; body = body.now }) block.now) }
{
    let mut space = Space::new(alloc)?;
    lay_both(&mut space, image.load, body, block)?;
    Ok(space)
}
