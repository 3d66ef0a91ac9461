// The numbers of a memory's bytes.
ghost use Rattle.std.specs.Prelude.{◌≡◌, ◌<◌, ◌≤◌, ◌+◌, ◌-◌, ◌*◌, ◌%◌, ◌^◌, ◌&&◌, nat_lt, nat_le, length, slice_index, ℕ, ◌↔◌, IsTrue, false, IfOk, IfSome, OnOk, OnErr};
ghost use Rattle.taint_pages.specs.Carried.{CarriesPages};
ghost use Rattle.taint_spans.specs.Carried.{CarriesOn, HaveNumbers};
ghost use Rattle.taint_pages.specs.Pages.{AreEight, AreSound, AreUnset, contents, FitsIn, Puts, Sets, SetsInside, page_len};
ghost use Rattle.taint_pages.specs.Rows.{PutsFrom};

use crate::page::{self, PAGE_LEN, Page, Unset};
use crate::row::Row;
use arn_base::NoMemory;
use rv64_isa::Reg;
use std::alloc::Global;
use std::marker::Model;
use taint_spans::Carrying;

/// The number of the set of each byte of a memory. A page whose bytes weren't set takes no memory, and neither does one that memories
/// share, until it is written.
#[derive(Drop)]
pub struct SetNumbers {
    pages: Vec<Page>,
    unset: Unset,
}

impl Model for SetNumbers {
    ghost use Rattle.std.specs.Prelude.{ℕ, List};
    ghost use Rattle.taint_pages.specs.Pages.{AreSound, contents, numbers_from};

    ghost Value = { List ℕ };

    ghost view = { λ n. numbers_from n.unset 0 (contents n.pages.items) };

    ghost invariant = { λ n. AreSound n.unset (contents n.pages.items) };
}

/// Gives each byte of these pages the number that its set has from now on.
fn carry_pages(carrying: &mut Carrying, unset: Unset, pages: &mut Vec<Page>) -> Result<(), NoMemory>
    requires { AreSound unset (contents pages.old.items) }
    ensures sound { AreSound unset (contents pages.new.items) }
    ensures carried { OnOk result (CarriesPages carrying.new unset
        (contents pages.old.items) (contents pages.new.items)) }
    ensures on { CarriesOn carrying.old carrying.new }
{
    let alloc = *pages.allocator();
    for place in 0..pages.len() {
        page::carry_page(alloc, carrying, unset, place, &mut pages[place])?;
    }
    Ok(())
}

impl SetNumbers {
    /// The bytes of so many pages, none of which has been set.
    pub fn new(alloc: Global, pages: usize, unset: Unset) -> Result<SetNumbers, NoMemory>
        requires { FitsIn unset (page_len * pages) }
        ensures { IfOk result (AreUnset unset (page_len * pages)) }
    {
        Ok(SetNumbers {
            pages: page::absent(alloc, pages)?,
            unset,
        })
    }

    /// The number of a byte.
    #[inline(always)]
    pub fn get(&self, at: usize) -> u32
        requires { at < length self.now }
        ensures { result ≡ slice_index self.now at }
    {
        let place = at / PAGE_LEN;
        page::number_of(
            self.unset,
            place * PAGE_LEN,
            &self.pages[place],
            at % PAGE_LEN,
        )
    }

    /// Whether there is such a byte.
    #[inline(always)]
    fn has(&self, at: usize) -> bool
        ensures { result ≡ nat_lt at (length self.now) }
    {
        at / PAGE_LEN < self.pages.len()
    }

    /// The number of a byte, 0 behind the last one.
    #[inline(always)]
    pub fn find(&self, at: usize) -> u32
        ensures { result ≡ slice_index self.now at }
    {
        if self.has(at) { self.get(at) } else { 0 }
    }

    /// Sets the number of a byte.
    #[inline(always)]
    pub fn set(&mut self, at: usize, number: u32) -> Result<(), NoMemory>
        requires { at < length self.old }
        ensures ok { OnOk result (Sets at number self.old self.new) }
        ensures err { OnErr result (self.new ≡ self.old) }
    {
        let alloc = *self.pages.allocator();
        let place = at / PAGE_LEN;
        let page = &mut self.pages[place];
        page::set_number(
            alloc,
            self.unset,
            place * PAGE_LEN,
            page,
            at % PAGE_LEN,
            number,
        )
    }

    /// Makes the pages that are kept shared ones, for which a copy takes no memory. The numbers stay.
    pub fn share(&mut self) -> Result<(), NoMemory>
        ensures { self.new ≡ self.old }
    {
        let alloc = *self.pages.allocator();
        page::share(alloc, self.pages.as_mut_slice())
    }

    /// The same numbers again. Shared pages are shared, and own ones copied.
    pub fn copy(&self) -> Result<SetNumbers, NoMemory>
        ensures { IfOk result (λ copy. copy ≡ self.now) }
    {
        Ok(SetNumbers {
            pages: page::copy(*self.pages.allocator(), self.pages.as_slice())?,
            unset: self.unset,
        })
    }

    /// Gives each byte the number that its set has from now on.
    pub fn carry(&mut self, carrying: &mut Carrying) -> Result<(), NoMemory>
        ensures numbers { OnOk result (HaveNumbers carrying.new self.old self.new) }
        ensures on { CarriesOn carrying.old carrying.new }
    {
        carry_pages(carrying, self.unset, &mut self.pages)
    }

    /// Whether there is such a byte, and so many from there on lie in its page.
    #[inline(always)]
    fn has_in_page(&self, at: usize, len: usize) -> bool
        ensures { result ≡ (nat_lt at (length self.now) && nat_le len (page_len - at % page_len)) }
    {
        self.has(at) && len <= PAGE_LEN - at % PAGE_LEN
    }

    /// Sets the number of a byte, where there is such a byte.
    #[inline(always)]
    fn replace(&mut self, at: usize, number: u32) -> Result<(), NoMemory>
        ensures ok { OnOk result (SetsInside at number self.old self.new) }
        ensures len { length self.new ≡ length self.old }
    {
        if self.has(at) {
            self.set(at, number)
        } else {
            Ok(())
        }
    }

    /// Sets the numbers of several bytes that follow each other. Those behind the last byte are left out.
    #[inline(always)]
    pub fn put(&mut self, at: usize, numbers: &[u32]) -> Result<(), NoMemory>
        requires small { at + length numbers.now < 2 ^ 32 }
        ensures ok { OnOk result (Puts at numbers.now self.old self.new) }
        ensures len { length self.new ≡ length self.old }
    {
        if self.has_in_page(at, numbers.len()) {
            self.put_in_page(at, numbers)
        } else {
            self.put_each(at, numbers)
        }
    }

    /// The same of bytes of one page.
    #[inline(always)]
    fn put_in_page(&mut self, at: usize, numbers: &[u32]) -> Result<(), NoMemory>
        requires there { at < length self.old }
        requires inside { at % page_len + length numbers.now ≤ page_len }
        ensures ok { OnOk result (Puts at numbers.now self.old self.new) }
        ensures len { length self.new ≡ length self.old }
    {
        let alloc = *self.pages.allocator();
        let place = at / PAGE_LEN;
        let page = &mut self.pages[place];
        page::put_numbers(
            alloc,
            self.unset,
            place * PAGE_LEN,
            page,
            at % PAGE_LEN,
            numbers,
        )
    }

    /// The same, one byte after the other.
    #[inline(never)]
    fn put_each(&mut self, at: usize, numbers: &[u32]) -> Result<(), NoMemory>
        requires small { at + length numbers.now < 2 ^ 32 }
        ensures ok { OnOk result (Puts at numbers.now self.old self.new) }
        ensures len { length self.new ≡ length self.old }
    {
        for (i, number) in numbers.iter().enumerate() {
            self.replace(at + i, *number)?;
        }
        Ok(())
    }

    /// The numbers of so many bytes that follow each other, at most eight, and zeros behind them and behind the
    /// last byte.
    #[inline(always)]
    pub fn eight(&self, at: usize, len: usize) -> [u32; 8]
        requires few { len ≤ 8 }
        requires small { at < 2 ^ 32 }
        ensures { AreEight self.now at len result }
    {
        if self.has_in_page(at, 8) {
            self.eight_in_page(at, len)
        } else {
            self.eight_each(at, len)
        }
    }

    /// Sets the numbers of a register that isn't x0 to those of so many bytes that follow each other, at most eight, and zeros behind
    /// them.
    #[inline(always)]
    pub fn move_to(&self, at: usize, len: usize, row: &mut Row, reg: Reg)
        requires few { len ≤ 8 }
        requires small { at < 2 ^ 32 }
        requires above { 0 < reg }
        ensures { PutsFrom self.now at len reg row.old row.new }
    {
        match self.kept(at, len) {
            Some(numbers) => row.put_first(reg, numbers),
            None => row.put_first(reg, &self.eight(at, len)),
        }
    }

    /// The numbers of several bytes that follow each other, where they lie together in a page that is kept. None may be answered
    /// of others, which are read one by one.
    #[inline(always)]
    fn kept(&self, at: usize, len: usize) -> Option<&[u32]>
        ensures len { IfSome result (λ numbers. length numbers.now ≡ len) }
        ensures numbers { IfSome result (λ numbers. (i : ℕ) → i < len →
            slice_index numbers.now i ≡ slice_index self.now (at + i)) }
    {
        if self.has_in_page(at, len) {
            self.kept_in_page(at, len)
        } else {
            None
        }
    }

    /// The same of bytes that lie in one page.
    #[inline(always)]
    fn kept_in_page(&self, at: usize, len: usize) -> Option<&[u32]>
        requires there { at < length self.now }
        requires inside { at % page_len + len ≤ page_len }
        ensures len { IfSome result (λ numbers. length numbers.now ≡ len) }
        ensures numbers { IfSome result (λ numbers. (i : ℕ) → i < len →
            slice_index numbers.now i ≡ slice_index self.now (at + i)) }
    {
        page::kept_in(&self.pages[at / PAGE_LEN], at % PAGE_LEN, len)
    }

    /// The numbers of so many bytes of one page, at most eight, and zeros behind them.
    #[inline(always)]
    fn eight_in_page(&self, at: usize, len: usize) -> [u32; 8]
        requires there { at < length self.now }
        requires inside { at % page_len + 8 ≤ page_len }
        requires few { len ≤ 8 }
        ensures { AreEight self.now at len result }
    {
        let place = at / PAGE_LEN;
        page::eight_of(
            self.unset,
            place * PAGE_LEN,
            &self.pages[place],
            at % PAGE_LEN,
            len,
        )
    }

    /// The same, one byte after the other.
    #[inline(never)]
    fn eight_each(&self, at: usize, len: usize) -> [u32; 8]
        requires few { len ≤ 8 }
        requires small { at < 2 ^ 32 }
        ensures { AreEight self.now at len result }
    {
        let mut numbers = [0; 8];
        for i in 0..len {
            numbers[i] = self.find(at + i);
        }
        numbers
    }
}
