// What a process that holds a segment sees of its memory.
ghost use Rattle.std.specs.Prelude.{◌≡◌, ◌↔◌, ◌-◌, not, length, OnOk, OnErr, IsErr, IsNone, IsSome, IsTrue, Some, Err};
ghost use Rattle.std.specs.List.{list_any};
ghost use Rattle.arn_base.specs.Window.{bytes_at, with_bytes, bytes_of, IsAccessLength};
ghost use Rattle.guest_mem.specs.View.{both_windows};
ghost use Rattle.guest_mem.specs.Pages.{Lacks};

use crate::{Segment, Space};
use arn_base::{BadAddress, Memory, StoreError};
use parts_model::limits::WINDOW_START;

/// What a process that holds a segment sees: its private window and the shared window. One that holds none sees its
/// `Space` alone.
#[derive(Drop)]
pub struct SharedView<'a> {
    pub space: &'a mut Space,
    pub segment: &'a mut Segment,
}

impl SharedView<'_> {
    /// Copies the bytes of a range of addresses, as many as the buffer has.
    pub fn read_into(&self, at: u64, buf: &mut [u8]) -> Result<(), BadAddress>
        ensures ok { OnOk result (bytes_at (both_windows self.now) at (length buf.old) ≡ Some buf.new) }
        ensures bad_address { IsErr result ↔
            IsNone (bytes_at (both_windows self.now) at (length buf.old)) }
        ensures err { OnErr result (buf.new ≡ buf.old) }
    {
        match self.space.read_into(at, buf) {
            Err(BadAddress) => self.segment.read_into(at, buf),
            done => done,
        }
    }

    /// Writes bytes at an address. It takes memory only where a page of the private window isn't own.
    pub fn write_from(&mut self, at: u64, bytes: &[u8]) -> Result<(), StoreError>
        ensures ok { OnOk result
            (both_windows self.new ≡ with_bytes (both_windows self.old) at bytes.now) }
        ensures bad_address { (result ≡ Err StoreError.BadAddress) ↔
            IsNone (bytes_at (both_windows self.old) at (length bytes.now)) }
        ensures lacks { (result ≡ Err StoreError.NoMemory) →
            Lacks (at - WINDOW_START) (length bytes.now) self.old.space.now.own }
        ensures err { OnErr result (both_windows self.new ≡ both_windows self.old) }

        ensures same_space { self.new.space.ghost_name ≡ self.old.space.ghost_name }
        ensures same_segment { self.new.segment.ghost_name ≡ self.old.segment.ghost_name }
    {
        match self.space.write_from(at, bytes) {
            Err(StoreError::BadAddress) => self.segment.write_from(at, bytes),
            done => done,
        }
    }
}

impl Memory for SharedView<'_> {
    ghost windows = { both_windows };

    ghost wants_memory = { λ view. list_any not view.space.now.own };

    fn load(&self, at: u64, len: u8) -> Result<u64, BadAddress> {
        match self.space.load(at, len) {
            Err(BadAddress) => self.segment.load(at, len),
            found => found,
        }
    }

    #[tactic(auto, using(crate::proofs::Spelled::lengths))]
    fn store(&mut self, at: u64, len: u8, value: u64) -> Result<(), StoreError>
        requires { IsAccessLength len }

        ensures ok { OnOk result
            (both_windows self.new ≡ with_bytes (both_windows self.old) at (bytes_of len value)) }
        ensures whole { OnOk result (IsSome (bytes_at (both_windows self.old) at len)) }

        ensures bad_address { (result ≡ Err StoreError.BadAddress) ↔
            IsNone (bytes_at (both_windows self.old) at len) }
        ensures no_memory { (result ≡ Err StoreError.NoMemory) →
            IsTrue (list_any not self.old.space.now.own) }
        ensures lacks { (result ≡ Err StoreError.NoMemory) →
            Lacks (at - WINDOW_START) len self.old.space.now.own }
        ensures err { OnErr result (both_windows self.new ≡ both_windows self.old) }

        ensures same_space { self.new.space.ghost_name ≡ self.old.space.ghost_name }
        ensures same_segment { self.new.segment.ghost_name ≡ self.old.segment.ghost_name }
    {
        match self.space.store(at, len, value) {
            Err(StoreError::BadAddress) => self.segment.store(at, len, value),
            done => done,
        }
    }
}
