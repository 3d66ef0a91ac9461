// The pages of a process's private window.
ghost use Rattle.std.specs.Prelude.{◌≡◌, ◌↔◌, ◌-◌, not, false, length, option_map, slice_index_or, take, IfOk, OnOk, OnErr, IsErr, IsNone, IsSome, IsTrue, Some, Err};
ghost use Rattle.std.specs.List.{list_any};
ghost use Rattle.arn_base.specs.Window.{IsAccessLength, bytes_at, bytes_of, with_bytes};
ghost use Rattle.guest_mem.specs.Pages.{AreOwn, Gains, IsEnough, Lacks, Loses, NoneOwn};
ghost use Rattle.parts_model.specs.Blocks.{blocks_of};
ghost use Rattle.parts_model.specs.Memory.{zeros, private_window};

use crate::page::{PAGE_LEN, Page};
use crate::pages;
use crate::spare::Spare;
use arn_base::{BadAddress, Blocks, Bytes, Memory, NoMemory, StoreError};
use parts_model::limits::{WINDOW_LEN, WINDOW_START};
use std::alloc::Global;
use std::marker::Model;

/// The bytes of a private window, the first of them at `WINDOW_START`. They lie in pages, which spaces share until
/// they are written.
#[derive(Drop)]
pub struct Space {
    pages: Vec<Page>,
}

impl Model for Space {
    ghost use Rattle.guest_mem.specs.Pages.{ArePages, Paged, contents, joined, owned};

    ghost Value = { Paged };

    ghost view = { λ space. record {
      bytes = joined (contents space.pages.items);
      own = owned space.pages.items;
    } };

    ghost invariant = { λ space. ArePages (contents space.pages.items) };
}

#[tactic(auto, using(crate::proofs::Pieces::long))]
impl Space {
    /// A space of zeros, which owns no page.
    pub fn new(alloc: Global) -> Result<Space, NoMemory>
        ensures zeros { IfOk result (λ space. space.bytes ≡ zeros WINDOW_LEN) }
        ensures length { IfOk result (λ space. length space.bytes ≡ WINDOW_LEN) }
        ensures own { IfOk result (λ space. NoneOwn space.own) }
    {
        Ok(Space {
            pages: pages::zeros(alloc)?,
        })
    }

    /// Another space with the same bytes. It shares what is shared here, and owns a copy of each page that is owned here.
    pub fn copy(&self) -> Result<Space, NoMemory>
        ensures equal { IfOk result (λ space. space ≡ self.now) }
        ensures length { length self.now.bytes ≡ WINDOW_LEN }
    {
        Ok(Space {
            pages: pages::copy(*self.pages.allocator(), self.pages.as_slice())?,
        })
    }

    /// Makes each own page a shared one. The bytes stay, also where memory runs out.
    pub fn share(&mut self) -> Result<(), NoMemory>
        ensures bytes { self.new.bytes ≡ self.old.bytes }
        ensures ok { OnOk result (NoneOwn self.new.own) }
        ensures loses { Loses self.old.own self.new.own }
    {
        pages::share(*self.pages.allocator(), self.pages.as_mut_slice())
    }

    /// Makes each page of a range of addresses an own one. The bytes stay, also where memory runs out.
    pub fn own(&mut self, at: u64, len: u64) -> Result<(), StoreError>
        ensures bytes { self.new.bytes ≡ self.old.bytes }
        ensures bad_address { (result ≡ Err StoreError.BadAddress) ↔
            IsNone (bytes_at (private_window self.old.bytes) at len) }
        ensures refused { (result ≡ Err StoreError.BadAddress) → self.new ≡ self.old }
        ensures lacks { (result ≡ Err StoreError.NoMemory) →
            Lacks (at - WINDOW_START) len self.old.own }
        ensures gains { Gains (at - WINDOW_START) len self.old.own self.new.own }
        ensures own { OnOk result (AreOwn (at - WINDOW_START) len self.new.own) }
    {
        let alloc = *self.pages.allocator();
        pages::own_at(alloc, self.pages.as_mut_slice(), at, len)
    }

    /// Whether the space owns the page of a number.
    pub fn owns(&self, page: usize) -> bool
        ensures { result ≡ slice_index_or self.now.own page false }
    {
        pages::owns(self.pages.as_slice(), page)
    }

    /// The blocks of 256 bytes that aren't all zero, numbered from the window's first byte on.
    pub fn blocks(&self) -> Result<Blocks, NoMemory>
        ensures { IfOk result (λ blocks. blocks ≡ blocks_of self.now.bytes) }
    {
        pages::used_blocks(*self.pages.allocator(), self.pages.as_slice())
    }

    /// How many bytes the window has.
    pub fn len(&self) -> u64
        ensures value { result ≡ WINDOW_LEN }
        ensures length { length self.now.bytes ≡ WINDOW_LEN }
    {
        (self.pages.len() * PAGE_LEN) as u64
    }

    /// Whether a range of addresses lies whole in the window.
    pub fn can_reach(&self, at: u64, len: u64) -> bool
        ensures { IsTrue result ↔ IsSome (bytes_at (private_window self.now.bytes) at len) }
    {
        pages::can_reach(self.pages.as_slice(), at, len)
    }

    /// Copies the bytes of a range of addresses, as many as the buffer has.
    pub fn read_into(&self, at: u64, buf: &mut [u8]) -> Result<(), BadAddress>
        ensures ok { OnOk result
            (bytes_at (private_window self.now.bytes) at (length buf.old) ≡ Some buf.new) }
        ensures bad_address { IsErr result ↔
            IsNone (bytes_at (private_window self.now.bytes) at (length buf.old)) }
        ensures err { OnErr result (buf.new ≡ buf.old) }
        ensures length { length self.now.bytes ≡ WINDOW_LEN }
    {
        pages::read_into(self.pages.as_slice(), at, buf)
    }

    /// A copy of the first bytes of a range of addresses, where it lies whole in the window.
    pub fn first_of(&self, at: u64, len: u64, first: u64) -> Result<Option<Bytes>, NoMemory>
        ensures { IfOk result (λ copy. copy ≡
            option_map (take first) (bytes_at (private_window self.now.bytes) at len)) }
    {
        let alloc = *self.pages.allocator();
        pages::first_of(alloc, self.pages.as_slice(), at, len, first)
    }

    /// Writes bytes at an address. It first makes their pages own, and takes memory only where one isn't.
    pub fn write_from(&mut self, at: u64, bytes: &[u8]) -> Result<(), StoreError>
        ensures ok { OnOk result
            (private_window self.new.bytes ≡ with_bytes (private_window self.old.bytes) at bytes.now) }
        ensures bad_address { (result ≡ Err StoreError.BadAddress) ↔
            IsNone (bytes_at (private_window self.old.bytes) at (length bytes.now)) }
        ensures err { OnErr result (self.new.bytes ≡ self.old.bytes) }
        ensures refused { (result ≡ Err StoreError.BadAddress) → self.new ≡ self.old }
        ensures lacks { (result ≡ Err StoreError.NoMemory) →
            Lacks (at - WINDOW_START) (length bytes.now) self.old.own }
        ensures gains { Gains (at - WINDOW_START) (length bytes.now) self.old.own self.new.own }
        ensures own { OnOk result (AreOwn (at - WINDOW_START) (length bytes.now) self.new.own) }
        ensures length { length self.new.bytes ≡ WINDOW_LEN }
    {
        let alloc = *self.pages.allocator();
        pages::write_from(alloc, self.pages.as_mut_slice(), at, bytes)
    }

    /// Writes bytes at an address, with memory that is in hand for as many. So it takes none.
    pub fn write_with(&mut self, at: u64, bytes: &[u8], spare: Spare) -> Result<(), BadAddress>
        requires { IsEnough (length bytes.now) spare }
        ensures ok { OnOk result
            (private_window self.new.bytes ≡ with_bytes (private_window self.old.bytes) at bytes.now) }
        ensures bad_address { IsErr result ↔
            IsNone (bytes_at (private_window self.old.bytes) at (length bytes.now)) }
        ensures err { OnErr result (self.new ≡ self.old) }
        ensures gains { Gains (at - WINDOW_START) (length bytes.now) self.old.own self.new.own }
        ensures own { OnOk result (AreOwn (at - WINDOW_START) (length bytes.now) self.new.own) }
        ensures length { length self.new.bytes ≡ WINDOW_LEN }
    {
        pages::write_with(self.pages.as_mut_slice(), at, bytes, spare.pages)
    }
}

impl Memory for Space {
    ghost windows = { λ space. private_window space.bytes };

    ghost wants_memory = { λ space. list_any not space.own };

    #[inline(always)]
    fn load(&self, at: u64, len: u8) -> Result<u64, BadAddress> {
        pages::load(self.pages.as_slice(), at, len)
    }

    #[inline(always)]
    fn store(&mut self, at: u64, len: u8, value: u64) -> Result<(), StoreError>
        requires { IsAccessLength len }

        ensures ok { OnOk result (private_window self.new.bytes ≡
            with_bytes (private_window self.old.bytes) at (bytes_of len value)) }
        ensures whole { OnOk result (IsSome (bytes_at (private_window self.old.bytes) at len)) }

        ensures bad_address { (result ≡ Err StoreError.BadAddress) ↔
            IsNone (bytes_at (private_window self.old.bytes) at len) }
        ensures no_memory { (result ≡ Err StoreError.NoMemory) → IsTrue (list_any not self.old.own) }
        ensures err { OnErr result (private_window self.new.bytes ≡ private_window self.old.bytes) }

        ensures refused { (result ≡ Err StoreError.BadAddress) → self.new ≡ self.old }
        ensures lacks { (result ≡ Err StoreError.NoMemory) →
            Lacks (at - WINDOW_START) len self.old.own }
        ensures gains { Gains (at - WINDOW_START) len self.old.own self.new.own }
        ensures own { OnOk result (AreOwn (at - WINDOW_START) len self.new.own) }
    {
        let alloc = *self.pages.allocator();
        pages::store(alloc, self.pages.as_mut_slice(), at, len, value)
    }
}
