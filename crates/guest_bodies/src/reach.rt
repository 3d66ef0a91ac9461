// The memories of a process that holds a segment.
ghost use Rattle.std.specs.Prelude.{◌≡◌, not, length};
ghost use Rattle.std.specs.List.{list_any};
ghost use Rattle.arn_base.specs.Window.{with_bytes};
ghost use Rattle.guest_bodies.specs.Kept.{windows_of};
ghost use Rattle.guest_mem.specs.Pages.{IsEnough};
ghost use Rattle.parts_model.specs.Memory.{private_window};

use arn_base::{BadAddress, Memory, StoreError};
use guest_mem::{Segment, Space, Spare};

/// The private window and the segment that a process holds, while it runs. Both are here by value, so that
/// whoever serves one instruction can't leave others in their place.
#[derive(Drop)]
pub struct Reach {
    pub space: Space,
    pub segment: Segment,
}

/// Writes bytes at an address of a private window, where they lie whole in it, with memory that is in
/// hand.
pub fn write_alone(space: &mut Space, at: u64, bytes: &[u8], spare: Spare)
    requires { IsEnough (length bytes.now) spare }
    ensures { private_window space.new.bytes ≡
        with_bytes (private_window space.old.bytes) at bytes.now }
{
    let _ = space.write_with(at, bytes, spare);
}

impl Reach {
    /// Writes bytes at an address, where they lie whole in one window, with memory that is in hand.
    pub fn write(&mut self, at: u64, bytes: &[u8], spare: Spare)
        requires { IsEnough (length bytes.now) spare }
        ensures { windows_of self.new ≡ with_bytes (windows_of self.old) at bytes.now }
    {
        if self.space.write_with(at, bytes, spare).is_err() {
            let _ = self.segment.write_from(at, bytes);
        }
    }
}

impl Memory for Reach {
    ghost windows = { windows_of };

    ghost wants_memory = { λ r. list_any not r.space.own };

    #[inline(always)]
    fn load(&self, at: u64, len: u8) -> Result<u64, BadAddress> {
        match self.space.load(at, len) {
            Err(BadAddress) => self.segment.load(at, len),
            found => found,
        }
    }

    #[tactic(auto, using(crate::proofs::Spelled::lengths))]
    #[inline(always)]
    fn store(&mut self, at: u64, len: u8, value: u64) -> Result<(), StoreError> {
        match self.space.store(at, len, value) {
            Err(StoreError::BadAddress) => self.segment.store(at, len, value),
            done => done,
        }
    }
}
