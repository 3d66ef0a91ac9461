// A page of numbers.
ghost use Rattle.std.specs.Prelude.{◌≡◌, ◌<◌, ◌≤◌, ◌+◌, ◌*◌, ◌↔◌, ℕ, IsTrue, length, option_map, replicate, slice_index, None, Some, IfErr, IfOk, IfSome, OnOk, OnErr};
ghost use Rattle.taint_pages.specs.declared.page.Page.TheVariants.{Absent};
ghost use Rattle.taint_pages.specs.declared.page.Unset.{Unset as UnsetBytes};
ghost use Rattle.arn_base.specs.Disk.{overwrite};
ghost use Rattle.taint_pages.specs.Carried.{CarriesPage};
ghost use Rattle.taint_spans.specs.Carried.{CarriesOn};
ghost use Rattle.taint_pages.specs.Pages.{AreEight, AreEightOf, FitsIn, HaveUnset, IsPage, PutsIn, SetsOne, content, contents, number_in, page_len, unset_number};

use arn_base::NoMemory;
use core::mem::replace_with;
use std::alloc::{AllocFailed, Global};
use std::rc::Rc;
use taint_spans::{Carrying, FIRST_RECEIVED};

/// How many bytes a page is for.
pub const PAGE_LEN: usize = 4096;

/// Which number a byte has that wasn't set.
#[derive(Clone, Copy)]
pub enum Unset {
    /// 0.
    Zero,
    /// This one and the byte's place.
    From(u32),
}

/// The numbers of the bytes of a page. Those of bytes that weren't set may be absent. Kept ones are the memory's own, or shared with
/// other memories, which have the same, until they are written.
#[derive(Drop)]
pub enum Page {
    Absent,
    Own(Vec<u32>),
    Shared(Rc<Vec<u32>>),
}

impl Page {
    /// The numbers of a page that is kept.
    #[inline(always)]
    fn numbers(&self) -> Option<&[u32]>
        ensures { option_map (λ numbers. numbers.now) result ≡ content self.now }
    {
        match self {
            Page::Own(numbers) => Some(numbers.as_slice()),
            Page::Absent => None,
            Page::Shared(numbers) => Some(numbers.as_slice()),
        }
    }

    /// The same page again: shared where it is shared, and else copied.
    pub fn copy(&self, alloc: Global) -> Result<Page, NoMemory>
        ensures { IfOk result (λ copy. content copy ≡ content self.now) }
    {
        match self {
            Page::Absent => Ok(Page::Absent),
            Page::Own(numbers) => Ok(Page::Own(Vec::from_slice(alloc, numbers.as_slice())?)),
            Page::Shared(numbers) => Ok(Page::Shared(numbers.clone()?)),
        }
    }

    /// Makes an own page a shared one. Its numbers stay.
    pub fn share(&mut self, alloc: Global) -> Result<(), NoMemory>
        ensures { content self.new ≡ content self.old }
    {
        replace_with(self, alloc, shared)
    }

    /// Takes the numbers out of a page that is kept, which is absent then. They are copied where other pages share them.
    fn take(&mut self, alloc: Global) -> Result<Option<Vec<u32>>, NoMemory>
        ensures ok { IfOk result (λ taken.
            option_map (λ numbers. numbers.items) taken ≡ content self.old) }
        ensures absent { OnOk result (self.new ≡ Absent) }
        ensures err { OnErr result (self.new ≡ self.old) }
    {
        replace_with(self, alloc, taken)
    }
}

/// A page that isn't an own one, of the same numbers.
fn shared(page: Page, alloc: Global) -> (Page, Result<(), NoMemory>)
    ensures { content result.0 ≡ content page }
{
    match page {
        Page::Own(numbers) => match Rc::new(alloc, numbers) {
            Ok(numbers) => (Page::Shared(numbers), Ok(())),
            Err(AllocFailed { value }) => (Page::Own(value), Err(NoMemory)),
        },
        Page::Absent => (Page::Absent, Ok(())),
        Page::Shared(numbers) => (Page::Shared(numbers), Ok(())),
    }
}

/// An absent page, and the numbers that were kept.
fn taken(page: Page, alloc: Global) -> (Page, Result<Option<Vec<u32>>, NoMemory>)
    ensures ok { IfOk result.1 (λ taken.
        option_map (λ numbers. numbers.items) taken ≡ content page) }
    ensures absent { OnOk result.1 (result.0 ≡ Absent) }
    ensures err { OnErr result.1 (result.0 ≡ page) }
{
    match page {
        Page::Absent => (Page::Absent, Ok(None)),
        Page::Own(numbers) => (Page::Absent, Ok(Some(numbers))),
        Page::Shared(numbers) => match unshared(numbers, alloc) {
            Ok(numbers) => (Page::Absent, Ok(Some(numbers))),
            Err(numbers) => (Page::Shared(numbers), Err(NoMemory)),
        },
    }
}

/// Numbers that nobody else shares. Where nobody shares these, this takes no memory.
fn unshared(numbers: Rc<Vec<u32>>, alloc: Global) -> Result<Vec<u32>, Rc<Vec<u32>>>
    ensures ok { IfOk result (λ own. own.items ≡ numbers.value.items) }
    ensures err { IfErr result (λ same. same ≡ numbers) }
{
    match Rc::try_unwrap(numbers) {
        Ok(numbers) => Ok(numbers),
        Err(numbers) => match Vec::from_slice(alloc, numbers.as_slice()) {
            Ok(copy) => Ok(copy),
            Err(_) => Err(numbers),
        },
    }
}

/// The number of a byte that wasn't set.
#[inline(always)]
fn unset_at(unset: Unset, base: usize, at: usize) -> u32
    requires fits { FitsIn unset (base + page_len) }
    requires inside { at < page_len }
    ensures { result ≡ unset_number unset (base + at) }
{
    match unset {
        Unset::Zero => 0,
        Unset::From(first) => first + (base + at) as u32,
    }
}

/// The number of byte `at` of a page whose first byte has the place `base`.
#[inline(always)]
pub fn number_of(unset: Unset, base: usize, page: &Page, at: usize) -> u32
    requires page { IsPage (content page.now) }
    requires inside { at < page_len }
    requires fits { FitsIn unset (base + page_len) }
    ensures { result ≡ number_in unset base (content page.now) at }
{
    match page.numbers() {
        Some(numbers) => numbers[at],
        None => unset_at(unset, base, at),
    }
}

/// The numbers of a page whose bytes weren't set.
fn unset_page(alloc: Global, unset: Unset, base: usize) -> Result<Vec<u32>, NoMemory>
    requires fits { FitsIn unset (base + page_len) }
    ensures len { IfOk result (λ numbers. length numbers.items ≡ page_len) }
    ensures unset { IfOk result (λ numbers. (k : ℕ) → k < page_len →
        slice_index numbers.items k ≡ unset_number unset (base + k)) }
{
    let mut numbers = Vec::new(alloc);
    for at in 0..PAGE_LEN {
        numbers.push(unset_at(unset, base, at))?;
    }
    Ok(numbers)
}

/// Sets the number of a byte. A page is made for a number that the byte hasn't had.
#[inline(always)]
pub fn set_number(
    alloc: Global,
    unset: Unset,
    base: usize,
    page: &mut Page,
    at: usize,
    number: u32,
) -> Result<(), NoMemory>
    requires page { IsPage (content page.old) }
    requires inside { at < page_len }
    requires fits { FitsIn unset (base + page_len) }
    ensures page { IsPage (content page.new) }
    ensures ok { OnOk result
        (SetsOne unset base at number (content page.old) (content page.new)) }
    ensures err { OnErr result (content page.new ≡ content page.old) }
{
    match page {
        Page::Own(kept) => {
            kept[at] = number;
            Ok(())
        }
        Page::Absent if number == unset_at(unset, base, at) => Ok(()),
        _ => set_apart(alloc, unset, base, page, at, number),
    }
}

/// The same of a page that isn't an own one, and becomes one.
#[inline(never)]
fn set_apart(
    alloc: Global,
    unset: Unset,
    base: usize,
    page: &mut Page,
    at: usize,
    number: u32,
) -> Result<(), NoMemory>
    requires page { IsPage (content page.old) }
    requires inside { at < page_len }
    requires fits { FitsIn unset (base + page_len) }
    ensures page { IsPage (content page.new) }
    ensures ok { OnOk result
        (SetsOne unset base at number (content page.old) (content page.new)) }
    ensures err { OnErr result (content page.new ≡ content page.old) }
{
    match page.take(alloc)? {
        Some(mut kept) => {
            kept[at] = number;
            *page = Page::Own(kept);
        }
        None => *page = made_for(alloc, unset, base, at, number)?,
    }
    Ok(())
}

/// A page for a byte of this number, the others not being set.
fn made_for(
    alloc: Global,
    unset: Unset,
    base: usize,
    at: usize,
    number: u32,
) -> Result<Page, NoMemory>
    requires inside { at < page_len }
    requires fits { FitsIn unset (base + page_len) }
    ensures page { IfOk result (λ page. IsPage (content page)) }
    ensures one { IfOk result (λ page. SetsOne unset base at number None (content page)) }
{
    if number == unset_at(unset, base, at) {
        return Ok(Page::Absent);
    }
    let mut numbers = unset_page(alloc, unset, base)?;
    numbers[at] = number;
    Ok(Page::Own(numbers))
}

/// The numbers of so many bytes of a page that has them, at most eight, and zeros behind them.
#[inline(always)]
fn eight_kept(numbers: &[u32], at: usize, len: usize) -> [u32; 8]
    requires inside { at + 8 ≤ length numbers.now }
    requires few { len ≤ 8 }
    ensures { AreEight numbers.now at len result }
{
    let mut eight = [0; 8];
    for i in 0..8 {
        let number = numbers[at + i];
        eight[i] = if i < len { number } else { 0 };
    }
    eight
}

/// The same of a page whose bytes weren't set.
fn eight_unset(unset: Unset, base: usize, at: usize, len: usize) -> [u32; 8]
    requires inside { at + 8 ≤ page_len }
    requires few { len ≤ 8 }
    requires fits { FitsIn unset (base + page_len) }
    ensures { AreEightOf unset base None at len result }
{
    let mut eight = [0; 8];
    for i in 0..8 {
        let number = unset_at(unset, base, at + i);
        eight[i] = if i < len { number } else { 0 };
    }
    eight
}

/// The numbers of so many bytes of a page, at most eight, and zeros behind them.
#[inline(always)]
pub fn eight_of(unset: Unset, base: usize, page: &Page, at: usize, len: usize) -> [u32; 8]
    requires page { IsPage (content page.now) }
    requires inside { at + 8 ≤ page_len }
    requires few { len ≤ 8 }
    requires fits { FitsIn unset (base + page_len) }
    ensures { AreEightOf unset base (content page.now) at len result }
{
    match page.numbers() {
        Some(numbers) => eight_kept(numbers, at, len),
        None => eight_unset(unset, base, at, len),
    }
}

/// The numbers of several bytes of a page, if it is kept.
#[inline(always)]
pub fn kept_in(page: &Page, at: usize, len: usize) -> Option<&[u32]>
    requires page { IsPage (content page.now) }
    requires inside { at + len ≤ page_len }
    ensures len { IfSome result (λ numbers. length numbers.now ≡ len) }
    ensures numbers { (unset : UnsetBytes) → (base : ℕ) → IfSome result (λ numbers. (i : ℕ) → i < len →
        slice_index numbers.now i ≡ number_in unset base (content page.now) (at + i)) }
{
    match page.numbers() {
        Some(numbers) => Some(&numbers[at..at + len]),
        None => None,
    }
}

/// Whether several bytes of a page have the numbers of bytes that weren't set.
fn have_unset(unset: Unset, base: usize, at: usize, numbers: &[u32]) -> bool
    requires inside { at + length numbers.now ≤ page_len }
    requires fits { FitsIn unset (base + page_len) }
    ensures { IsTrue result ↔ HaveUnset unset (base + at) numbers.now }
{
    for (i, number) in numbers.iter().enumerate() {
        if *number != unset_at(unset, base, at + i) {
            return false;
        }
    }
    true
}

/// Puts numbers over those from one place on. One and eight, which most instructions store, are moved without a call.
#[inline(always)]
fn overwrite(kept: &mut [u32], at: usize, numbers: &[u32])
    requires { at + length numbers.now ≤ length kept.old }
    ensures { kept.new ≡ overwrite kept.old at numbers.now }
{
    match numbers.len() {
        1 => kept[at] = numbers[0],
        8 => kept[at..at + 8].copy_from_slice(numbers),
        len => kept[at..at + len].copy_from_slice(numbers),
    }
}

/// Sets the numbers of several bytes of a page. A page is made where these have another number than before.
#[inline(always)]
pub fn put_numbers(
    alloc: Global,
    unset: Unset,
    base: usize,
    page: &mut Page,
    at: usize,
    numbers: &[u32],
) -> Result<(), NoMemory>
    requires page { IsPage (content page.old) }
    requires inside { at + length numbers.now ≤ page_len }
    requires fits { FitsIn unset (base + page_len) }
    ensures page { IsPage (content page.new) }
    ensures ok { OnOk result
        (PutsIn unset base at numbers.now (content page.old) (content page.new)) }
    ensures err { OnErr result (content page.new ≡ content page.old) }
{
    match page {
        Page::Own(kept) => {
            overwrite(kept, at, numbers);
            Ok(())
        }
        Page::Absent if have_unset(unset, base, at, numbers) => Ok(()),
        _ => put_apart(alloc, unset, base, page, at, numbers),
    }
}

/// The same of a page that isn't an own one, and becomes one.
#[inline(never)]
fn put_apart(
    alloc: Global,
    unset: Unset,
    base: usize,
    page: &mut Page,
    at: usize,
    numbers: &[u32],
) -> Result<(), NoMemory>
    requires page { IsPage (content page.old) }
    requires inside { at + length numbers.now ≤ page_len }
    requires fits { FitsIn unset (base + page_len) }
    ensures page { IsPage (content page.new) }
    ensures ok { OnOk result
        (PutsIn unset base at numbers.now (content page.old) (content page.new)) }
    ensures err { OnErr result (content page.new ≡ content page.old) }
{
    match page.take(alloc)? {
        Some(mut kept) => {
            overwrite(&mut kept, at, numbers);
            *page = Page::Own(kept);
        }
        None => *page = made_of(alloc, unset, base, at, numbers)?,
    }
    Ok(())
}

/// A page for several bytes of these numbers, the others not being set.
fn made_of(
    alloc: Global,
    unset: Unset,
    base: usize,
    at: usize,
    numbers: &[u32],
) -> Result<Page, NoMemory>
    requires inside { at + length numbers.now ≤ page_len }
    requires fits { FitsIn unset (base + page_len) }
    ensures page { IfOk result (λ page. IsPage (content page)) }
    ensures put { IfOk result (λ page. PutsIn unset base at numbers.now None (content page)) }
{
    if have_unset(unset, base, at, numbers) {
        return Ok(Page::Absent);
    }
    let mut kept = unset_page(alloc, unset, base)?;
    overwrite(&mut kept, at, numbers);
    Ok(Page::Own(kept))
}

/// The numbers that bytes of a page which weren't set have from now on.
fn carry_made(
    alloc: Global,
    carrying: &mut Carrying,
    unset: Unset,
    base: usize,
) -> Result<Vec<u32>, NoMemory>
    requires fits { FitsIn unset (base + page_len) }
    ensures len { IfOk result (λ numbers. length numbers.items ≡ page_len) }
    ensures carried { IfOk result (λ numbers.
        CarriesPage carrying.new unset base None (Some numbers.items)) }
    ensures on { CarriesOn carrying.old carrying.new }
{
    let mut numbers = unset_page(alloc, unset, base)?;
    carrying.carry_all(&mut numbers)?;
    Ok(numbers)
}

/// The same of a page at a place. It may be absent where the numbers stay, as those of received bytes do.
fn carry_unset(
    alloc: Global,
    carrying: &mut Carrying,
    unset: Unset,
    place: usize,
) -> Result<Page, NoMemory>
    requires fits { FitsIn unset (place * page_len + page_len) }
    ensures page { IfOk result (λ page. IsPage (content page)) }
    ensures carried { IfOk result (λ page.
        CarriesPage carrying.new unset (place * page_len) None (content page)) }
    ensures on { CarriesOn carrying.old carrying.new }
{
    carrying.keeps();
    match unset {
        Unset::From(first) if first < FIRST_RECEIVED => {
            let numbers = carry_made(alloc, carrying, unset, place * PAGE_LEN)?;
            Ok(Page::Own(numbers))
        }
        _ => Ok(Page::Absent),
    }
}

/// Gives each byte of the page at a place the number that its set has from now on. A shared page becomes an own one.
pub fn carry_page(
    alloc: Global,
    carrying: &mut Carrying,
    unset: Unset,
    place: usize,
    page: &mut Page,
) -> Result<(), NoMemory>
    requires page { IsPage (content page.old) }
    requires fits { FitsIn unset (place * page_len + page_len) }
    ensures page { IsPage (content page.new) }
    ensures carried { OnOk result (CarriesPage carrying.new unset (place * page_len)
        (content page.old) (content page.new)) }
    ensures on { CarriesOn carrying.old carrying.new }
{
    match page.take(alloc)? {
        Some(mut numbers) => {
            carrying.carry_all(&mut numbers)?;
            *page = Page::Own(numbers);
        }
        None => *page = carry_unset(alloc, carrying, unset, place)?,
    }
    Ok(())
}

/// Makes each own page a shared one. The numbers stay.
pub fn share(alloc: Global, pages: &mut [Page]) -> Result<(), NoMemory>
    ensures { contents pages.new ≡ contents pages.old }
{
    for place in 0..pages.len() {
        pages[place].share(alloc)?;
    }
    Ok(())
}

/// The same pages again: shared ones are shared, and own ones copied.
pub fn copy(alloc: Global, pages: &[Page]) -> Result<Vec<Page>, NoMemory>
    ensures { IfOk result (λ copy. contents copy.items ≡ contents pages.now) }
{
    let mut copies = Vec::with_capacity(alloc, pages.len())?;
    for page in pages {
        copies.push(page.copy(alloc)?)?;
    }
    Ok(copies)
}

/// So many pages that are absent.
pub fn absent(alloc: Global, count: usize) -> Result<Vec<Page>, NoMemory>
    ensures { IfOk result (λ pages. pages.items ≡ replicate count Absent) }
{
    let mut pages = Vec::new(alloc);
    for _ in 0..count {
        pages.push(Page::Absent)?;
    }
    Ok(pages)
}
