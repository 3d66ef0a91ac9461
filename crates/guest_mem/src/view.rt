// What one process sees of its memory.
ghost use Rattle.std.specs.Prelude.{◌≡◌, ◌↔◌, ◌-◌, not, length, OnOk, OnErr, IsErr, IsNone, IsSome, IsTrue, Some, Err};
ghost use Rattle.std.specs.Option.{ghost_name_of};
ghost use Rattle.std.specs.List.{list_any};
ghost use Rattle.arn_base.specs.Window.{bytes_at, with_bytes, bytes_of, IsAccessLength};
ghost use Rattle.guest_mem.specs.View.{view_windows};
ghost use Rattle.guest_mem.specs.Pages.{Lacks};

use crate::{Segment, Space};
use arn_base::{BadAddress, Memory, StoreError};
use parts_model::limits::WINDOW_START;

/// What one process sees: its private window and, where it holds a segment, the shared window.
#[derive(Drop)]
pub struct View<'a> {
    pub space: &'a mut Space,
    pub segment: Option<&'a mut Segment>,
}

impl<'a> View<'a> {
    /// What a process that holds a segment sees.
    pub fn with_segment(space: &'a mut Space, segment: &'a mut Segment) -> View<'a>
        ensures space { result.space ≡ space.entry }
        ensures segment { result.segment ≡ Some segment.entry }
    {
        View {
            space,
            segment: Some(segment),
        }
    }
}

impl View<'_> {
    /// Copies the bytes of a range of addresses, as many as the buffer has.
    pub fn read_into(&self, at: u64, buf: &mut [u8]) -> Result<(), BadAddress>
        ensures ok { OnOk result (bytes_at (view_windows self.now) at (length buf.old) ≡ Some buf.new) }
        ensures bad_address { IsErr result ↔
            IsNone (bytes_at (view_windows self.now) at (length buf.old)) }
        ensures err { OnErr result (buf.new ≡ buf.old) }
    {
        match (self.space.read_into(at, buf), &self.segment) {
            (Err(BadAddress), Some(segment)) => segment.read_into(at, buf),
            (done, _) => done,
        }
    }

    /// Writes bytes at an address. It takes memory only where a page of the private window isn't own.
    pub fn write_from(&mut self, at: u64, bytes: &[u8]) -> Result<(), StoreError>
        ensures ok { OnOk result
            (view_windows self.new ≡ with_bytes (view_windows self.old) at bytes.now) }
        ensures bad_address { (result ≡ Err StoreError.BadAddress) ↔
            IsNone (bytes_at (view_windows self.old) at (length bytes.now)) }
        ensures lacks { (result ≡ Err StoreError.NoMemory) →
            Lacks (at - WINDOW_START) (length bytes.now) self.old.space.now.own }
        ensures err { OnErr result (view_windows self.new ≡ view_windows self.old) }

        ensures same_space { self.new.space.ghost_name ≡ self.old.space.ghost_name }
        ensures same_segment { ghost_name_of self.new.segment ≡ ghost_name_of self.old.segment }
    {
        match (self.space.write_from(at, bytes), &mut self.segment) {
            (Err(StoreError::BadAddress), Some(segment)) => segment.write_from(at, bytes),
            (done, _) => done,
        }
    }
}

impl Memory for View<'_> {
    ghost windows = { view_windows };

    ghost wants_memory = { λ view. list_any not view.space.now.own };

    fn load(&self, at: u64, len: u8) -> Result<u64, BadAddress> {
        match (self.space.load(at, len), &self.segment) {
            (Err(BadAddress), Some(segment)) => segment.load(at, len),
            (found, _) => found,
        }
    }

    #[tactic(auto, using(crate::proofs::Spelled::lengths))]
    fn store(&mut self, at: u64, len: u8, value: u64) -> Result<(), StoreError>
        requires { IsAccessLength len }

        ensures ok { OnOk result
            (view_windows self.new ≡ with_bytes (view_windows self.old) at (bytes_of len value)) }
        ensures whole { OnOk result (IsSome (bytes_at (view_windows self.old) at len)) }

        ensures bad_address { (result ≡ Err StoreError.BadAddress) ↔
            IsNone (bytes_at (view_windows self.old) at len) }
        ensures no_memory { (result ≡ Err StoreError.NoMemory) →
            IsTrue (list_any not self.old.space.now.own) }
        ensures lacks { (result ≡ Err StoreError.NoMemory) →
            Lacks (at - WINDOW_START) len self.old.space.now.own }
        ensures err { OnErr result (view_windows self.new ≡ view_windows self.old) }

        ensures same_space { self.new.space.ghost_name ≡ self.old.space.ghost_name }
        ensures same_segment { ghost_name_of self.new.segment ≡ ghost_name_of self.old.segment }
    {
        match (self.space.store(at, len, value), &mut self.segment) {
            (Err(StoreError::BadAddress), Some(segment)) => segment.store(at, len, value),
            (done, _) => done,
        }
    }
}
