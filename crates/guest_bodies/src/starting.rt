// How a process starts from an image.
ghost use Rattle.std.specs.Prelude.{◌≡◌, ◌≤◌, length, IsTrue, IfOk};
ghost use Rattle.acts_model.specs.Views.{cpu_at_start, window_at_start};
ghost use Rattle.parts_model.specs.Image.{is_image, read_as_image};

use crate::registers::at_start;
use crate::windows::first_window;
use arn_base::{Cpu, NoMemory};
use guest_image::{HEADER_LEN, parse};
use guest_mem::Space;
use parts_model::limits::MOST_BLOCK_BYTES;
use std::alloc::Global;

/// Registers and private window of a process that starts.
#[derive(Drop)]
pub struct First {
    pub cpu: Cpu,
    pub space: Space,
}

impl First {
    /// From an image file, with an argument block.
    pub fn new(alloc: Global, file: &[u8], block: &[u8]) -> Result<First, NoMemory>
        requires image { IsTrue (is_image file.now) }
        requires few { length block.now ≤ MOST_BLOCK_BYTES }
        ensures cpu { IfOk result (λ first. first.cpu ≡
            cpu_at_start (read_as_image file.now).entry (length block.now)) }
        ensures space { IfOk result (λ first. first.space.bytes ≡
            window_at_start (read_as_image file.now) block.now) }
    {
        let Ok(image) = parse(file) else {
            unreachable!()
        };
        Ok(First {
            cpu: at_start(image.entry, block.len() as u64),
            space: first_window(alloc, image, &file[HEADER_LEN..], block)?,
        })
    }
}
