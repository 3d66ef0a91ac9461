// Memory that is in hand before it is needed.
ghost use Rattle.std.specs.Prelude.{◌≡◌, IfOk};
ghost use Rattle.guest_mem.specs.Pages.{IsEnough, most_met};

use crate::page::PAGE_LEN;
use arn_base::NoMemory;
use std::alloc::Global;
use std::marker::Model;

/// Memory for pages, in hand before it is needed: who writes with it takes none. It is seen as the
/// number of pages.
#[derive(Drop)]
pub struct Spare {
    pub(crate) pages: Vec<Box<[u8; 4096]>>,
}

impl Model for Spare {
    ghost use Rattle.std.specs.Prelude.{ℕ, length};

    ghost Value = { ℕ };

    ghost view = { λ spare. length spare.pages.items };
}

// How many pages a range of so many bytes meets at most.
fn most_met(len: u64) -> u64
    ensures { result ≡ most_met len }
{
    if len < 2 {
        len
    } else {
        (len - 2) / PAGE_LEN as u64 + 2
    }
}

impl Spare {
    /// Memory for a write of so many bytes.
    pub fn new(alloc: Global, len: u64) -> Result<Spare, NoMemory>
        ensures { IfOk result (IsEnough len) }
    {
        let count = most_met(len);
        let mut pages = Vec::with_capacity(alloc, count as usize)?;
        for _ in 0..count {
            pages.push(Box::new(alloc, [0; 4096])?)?;
        }
        Ok(Spare { pages })
    }
}
