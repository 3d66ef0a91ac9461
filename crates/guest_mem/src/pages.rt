// The pages of a private window, one behind the other.
ghost use Rattle.std.specs.Prelude.{◌≡◌, ◌<◌, ◌≤◌, ◌+◌, ◌-◌, ◌*◌, ◌/◌, ◌%◌, ◌^◌, ◌++◌, ◌↔◌, false, true, option_map, ℕ, List, length, take, drop, slice_index_or, slice_set, IsTrue, IsOk, IsErr, IsSome, IsNone, IfOk, IfSome, OnOk, OnErr, Some, Err};
ghost use Rattle.std.specs.Result.{result_ok};
ghost use Rattle.arn_base.specs.Disk.{overwrite};
ghost use Rattle.arn_base.specs.Window.{IsAccessLength, number_of, number_at, bytes_of, bytes_at, with_bytes};
ghost use Rattle.guest_mem.specs.Pages.{ArePages, AreOwn, Gains, Lacks, Loses, Meets, NoneOwn, contents, is_own, joined, most_met, owned, page_bytes};
ghost use Rattle.parts_model.specs.Blocks.{blocks_of, used_blocks};
ghost use Rattle.parts_model.specs.Memory.{zeros, private_window};

use crate::blocks::add_used;
use crate::extent::Extent;
use crate::numbers;
use crate::page::{PAGE_COUNT, PAGE_LEN, Page};
use arn_base::{BadAddress, Blocks, Bytes, NoMemory, StoreError};
use parts_model::limits::{BLOCK_LEN, WINDOW_LEN, WINDOW_START};
use std::alloc::Global;
use std::cmp::min;

// Where the pages lie.
const PRIVATE: Extent = Extent {
    from: WINDOW_START,
    len: WINDOW_LEN,
};

// How many blocks a page has.
const PAGE_BLOCKS: u16 = (PAGE_LEN / BLOCK_LEN) as u16;

// The place of a range of addresses among the pages' bytes.
#[inline(always)]
fn place_of(pages: &[Page], at: u64, len: u64) -> Result<usize, BadAddress>
    requires { ArePages (contents pages.now) }
    ensures whole { IsOk result ↔
        IsSome (bytes_at (private_window (joined (contents pages.now))) at len) }
    ensures place { IfOk result (λ place. at ≡ WINDOW_START + place) }
    ensures inside { IfOk result (λ place. place + len ≤ WINDOW_LEN) }
    ensures bytes { IfOk result (λ place.
        bytes_at (private_window (joined (contents pages.now))) at len ≡
        Some (take len (drop place (joined (contents pages.now))))) }
    ensures written { IfOk result (λ place. (bytes : List ℕ) → length bytes ≡ len →
        with_bytes (private_window (joined (contents pages.now))) at bytes ≡
        private_window (overwrite (joined (contents pages.now)) place bytes)) }
{
    PRIVATE.place(at, len)
}

/// Whether a range of addresses lies whole in the window.
pub fn can_reach(pages: &[Page], at: u64, len: u64) -> bool
    requires { ArePages (contents pages.now) }
    ensures { IsTrue result ↔
        IsSome (bytes_at (private_window (joined (contents pages.now))) at len) }
{
    place_of(pages, at, len).is_ok()
}

/// Whether the page of a number is an own one.
pub fn owns(pages: &[Page], number: usize) -> bool
    ensures { result ≡ slice_index_or (owned pages.now) number false }
{
    match pages.get(number) {
        Some(page) => page.is_own(),
        None => false,
    }
}

/// A window of zeros. Its pages share theirs.
pub fn zeros(alloc: Global) -> Result<Vec<Page>, NoMemory>
    ensures pages { IfOk result (λ pages. ArePages (contents pages.items)) }
    ensures bytes { IfOk result (λ pages. joined (contents pages.items) ≡ zeros WINDOW_LEN) }
    ensures own { IfOk result (λ pages. NoneOwn (owned pages.items)) }
{
    let page = Page::zeros(alloc)?;
    let mut pages = Vec::with_capacity(alloc, PAGE_COUNT)?;
    for _ in 0..PAGE_COUNT {
        pages.push(page.copy(alloc)?)?;
    }
    Ok(pages)
}

/// The same pages again: shared ones are shared, and own ones copied.
pub fn copy(alloc: Global, pages: &[Page]) -> Result<Vec<Page>, NoMemory>
    ensures bytes { IfOk result (λ copy. contents copy.items ≡ contents pages.now) }
    ensures own { IfOk result (λ copy. owned copy.items ≡ owned pages.now) }
{
    let mut copies = Vec::with_capacity(alloc, pages.len())?;
    for page in pages {
        copies.push(page.copy(alloc)?)?;
    }
    Ok(copies)
}

// Makes one page a shared one.
fn share_one(alloc: Global, pages: &mut [Page], number: usize) -> Result<(), NoMemory>
    requires inside { number < length pages.old }
    ensures bytes { contents pages.new ≡ contents pages.old }
    ensures ok { OnOk result (owned pages.new ≡ slice_set (owned pages.old) number false) }
    ensures err { OnErr result (owned pages.new ≡ owned pages.old) }
{
    pages[number].share(alloc)
}

/// Makes each own page a shared one. The bytes stay.
pub fn share(alloc: Global, pages: &mut [Page]) -> Result<(), NoMemory>
    ensures bytes { contents pages.new ≡ contents pages.old }
    ensures loses { Loses (owned pages.old) (owned pages.new) }
    ensures ok { OnOk result (NoneOwn (owned pages.new)) }
{
    for number in 0..pages.len() {
        share_one(alloc, pages, number)?;
    }
    Ok(())
}

// Makes one page an own one.
fn own_one(alloc: Global, pages: &mut [Page], number: usize) -> Result<(), NoMemory>
    requires inside { number < length pages.old }
    ensures bytes { contents pages.new ≡ contents pages.old }
    ensures ok { OnOk result (owned pages.new ≡ slice_set (owned pages.old) number true) }
    ensures err { OnErr result (owned pages.new ≡ owned pages.old) }
    ensures lacked { OnErr result (slice_index_or (owned pages.old) number false ≡ false) }
{
    pages[number].own(alloc)
}

// The number behind the last page of a range.
fn behind(place: usize, len: usize) -> usize
    requires { place + len ≤ WINDOW_LEN }
    ensures few { result ≤ PAGE_COUNT }
    ensures count { result ≤ place / PAGE_LEN + most_met len }
    ensures met { (page : ℕ) → place / PAGE_LEN ≤ page → page < result → Meets place len page }
    ensures first { (page : ℕ) → Meets place len page → place / PAGE_LEN ≤ page }
    ensures last { (page : ℕ) → Meets place len page → page < result }
{
    if len == 0 {
        place / PAGE_LEN
    } else {
        (place + len - 1) / PAGE_LEN + 1
    }
}

// Makes the pages of a range own ones. The bytes stay.
fn own(alloc: Global, pages: &mut [Page], place: usize, len: usize) -> Result<(), NoMemory>
    requires count { length pages.old ≡ PAGE_COUNT }
    requires whole { place + len ≤ WINDOW_LEN }
    ensures bytes { contents pages.new ≡ contents pages.old }
    ensures gains { Gains place len (owned pages.old) (owned pages.new) }
    ensures ok { OnOk result (AreOwn place len (owned pages.new)) }
    ensures err { OnErr result (Lacks place len (owned pages.old)) }
{
    for number in place / PAGE_LEN..behind(place, len) {
        own_one(alloc, pages, number)?;
    }
    Ok(())
}

// Makes one page an own one, with memory that is in hand.
fn own_one_with(pages: &mut [Page], number: usize, spare: &mut Vec<Box<[u8; 4096]>>)
    requires inside { number < length pages.old }
    requires some { 0 < length spare.old.items }
    ensures bytes { contents pages.new ≡ contents pages.old }
    ensures own { owned pages.new ≡ slice_set (owned pages.old) number true }
    ensures spare { length spare.old.items ≤ length spare.new.items + 1 }
{
    if pages[number].is_own() {
        return;
    }
    match spare.pop() {
        Some(memory) => pages[number].own_in(memory),
        None => unreachable!(),
    }
}

// Makes the pages of a range own ones, with memory that is in hand. The bytes stay.
fn own_with(pages: &mut [Page], place: usize, len: usize, mut spare: Vec<Box<[u8; 4096]>>)
    requires count { length pages.old ≡ PAGE_COUNT }
    requires whole { place + len ≤ WINDOW_LEN }
    requires enough { most_met len ≤ length spare.items }
    ensures bytes { contents pages.new ≡ contents pages.old }
    ensures gains { Gains place len (owned pages.old) (owned pages.new) }
    ensures own { AreOwn place len (owned pages.new) }
{
    for number in place / PAGE_LEN..behind(place, len) {
        own_one_with(pages, number, &mut spare);
    }
}

// How many of so many bytes from a place on lie in its page.
fn in_page(place: usize, len: usize) -> usize
    ensures page { place % PAGE_LEN + result ≤ PAGE_LEN }
    ensures few { result ≤ len }
    ensures some { 0 < len → 0 < result }
{
    min(PAGE_LEN - place % PAGE_LEN, len)
}

// Copies bytes of a page to a buffer.
fn copy_out(page: &Page, offset: usize, buf: &mut [u8])
    requires page { length (page_bytes page.now) ≡ PAGE_LEN }
    requires short { offset + length buf.old ≤ PAGE_LEN }
    ensures { buf.new ≡ take (length buf.old) (drop offset (page_bytes page.now)) }
{
    buf.copy_from_slice(&page.bytes()[offset..offset + buf.len()]);
}

// Copies bytes to a buffer up to a page's end, and says how many.
fn read_piece(pages: &[Page], place: usize, buf: &mut [u8]) -> usize
    requires pages { ArePages (contents pages.now) }
    requires whole { place + length buf.old ≤ WINDOW_LEN }
    requires some { 0 < length buf.old }
    ensures some { 0 < result }
    ensures few { result ≤ length buf.old }
    ensures read { buf.new ≡
        take result (drop place (joined (contents pages.now))) ++ drop result buf.old }
{
    let count = in_page(place, buf.len());
    copy_out(
        &pages[place / PAGE_LEN],
        place % PAGE_LEN,
        &mut buf[..count],
    );
    count
}

// Copies bytes to a buffer, as many as it has.
fn read(pages: &[Page], place: usize, buf: &mut [u8])
    requires pages { ArePages (contents pages.now) }
    requires whole { place + length buf.old ≤ WINDOW_LEN }
    ensures { buf.new ≡ take (length buf.old) (drop place (joined (contents pages.now))) }
{
    let mut done = 0;
    'pieces: while done < buf.len() {
        done += read_piece(pages, place + done, &mut buf[done..]);
    }
}

// Adds bytes of a page to others.
fn add_from(page: &Page, offset: usize, count: usize, bytes: &mut Vec<u8>) -> Result<(), NoMemory>
    requires page { length (page_bytes page.now) ≡ PAGE_LEN }
    requires short { offset + count ≤ PAGE_LEN }
    ensures { OnOk result (bytes.new.items ≡
        bytes.old.items ++ take count (drop offset (page_bytes page.now))) }
{
    Ok(bytes.extend_from_slice(&page.bytes()[offset..offset + count])?)
}

// Adds bytes of the window to others up to a page's end, and says how many.
fn add_piece(
    pages: &[Page],
    place: usize,
    len: usize,
    bytes: &mut Vec<u8>,
) -> Result<usize, NoMemory>
    requires pages { ArePages (contents pages.now) }
    requires whole { place + len ≤ WINDOW_LEN }
    requires some { 0 < len }
    ensures some { IfOk result (λ count. 0 < count) }
    ensures few { IfOk result (λ count. count ≤ len) }
    ensures read { IfOk result (λ count. bytes.new.items ≡
        bytes.old.items ++ take count (drop place (joined (contents pages.now)))) }
{
    let count = in_page(place, len);
    let page = &pages[place / PAGE_LEN];
    add_from(page, place % PAGE_LEN, count, bytes)?;
    Ok(count)
}

// A copy of bytes of the window.
fn part(alloc: Global, pages: &[Page], place: usize, len: usize) -> Result<Vec<u8>, NoMemory>
    requires pages { ArePages (contents pages.now) }
    requires whole { place + len ≤ WINDOW_LEN }
    ensures { IfOk result (λ part.
        part.items ≡ take len (drop place (joined (contents pages.now)))) }
{
    let mut bytes = Vec::with_capacity(alloc, len)?;
    let mut done = 0;
    'pieces: while done < len {
        done += add_piece(pages, place + done, len - done, &mut bytes)?;
    }
    Ok(bytes)
}

// Writes bytes in an own page.
#[inline(always)]
fn write_in(page: &mut Page, offset: usize, bytes: &[u8])
    requires page { length (page_bytes page.old) ≡ PAGE_LEN }
    requires short { offset + length bytes.now ≤ PAGE_LEN }
    requires own { is_own page.old ≡ true }
    ensures bytes { page_bytes page.new ≡ overwrite (page_bytes page.old) offset bytes.now }
    ensures own { is_own page.new ≡ true }
{
    match page {
        Page::Own(kept) => kept[offset..offset + bytes.len()].copy_from_slice(bytes),
        Page::Shared(_) => unreachable!(),
    }
}

// Writes the first bytes up to a page's end, and says how many.
fn write_piece(pages: &mut [Page], place: usize, bytes: &[u8]) -> usize
    requires pages { ArePages (contents pages.old) }
    requires whole { place + length bytes.now ≤ WINDOW_LEN }
    requires some { 0 < length bytes.now }
    requires own { AreOwn place (length bytes.now) (owned pages.old) }
    ensures some { 0 < result }
    ensures few { result ≤ length bytes.now }
    ensures bytes { joined (contents pages.new) ≡
        overwrite (joined (contents pages.old)) place (take result bytes.now) }
    ensures own { owned pages.new ≡ owned pages.old }
    ensures pages { ArePages (contents pages.new) }
{
    let count = in_page(place, bytes.len());
    write_in(
        &mut pages[place / PAGE_LEN],
        place % PAGE_LEN,
        &bytes[..count],
    );
    count
}

// Writes bytes in own pages.
fn write(pages: &mut [Page], place: usize, bytes: &[u8])
    requires pages { ArePages (contents pages.old) }
    requires whole { place + length bytes.now ≤ WINDOW_LEN }
    requires own { AreOwn place (length bytes.now) (owned pages.old) }
    ensures bytes { joined (contents pages.new) ≡
        overwrite (joined (contents pages.old)) place bytes.now }
    ensures own { owned pages.new ≡ owned pages.old }
    ensures pages { ArePages (contents pages.new) }
{
    let mut done = 0;
    'pieces: while done < bytes.len() {
        done += write_piece(pages, place + done, &bytes[done..]);
    }
}

/// Copies the bytes of a range of addresses, as many as the buffer has.
pub fn read_into(pages: &[Page], at: u64, buf: &mut [u8]) -> Result<(), BadAddress>
    requires { ArePages (contents pages.now) }
    ensures ok { OnOk result
        (bytes_at (private_window (joined (contents pages.now))) at (length buf.old) ≡ Some buf.new) }
    ensures bad_address { IsErr result ↔
        IsNone (bytes_at (private_window (joined (contents pages.now))) at (length buf.old)) }
    ensures err { OnErr result (buf.new ≡ buf.old) }
{
    let place = place_of(pages, at, buf.len() as u64)?;
    read(pages, place, buf);
    Ok(())
}

/// A copy of the first bytes of a range of addresses, where it lies whole in the window.
pub fn first_of(
    alloc: Global,
    pages: &[Page],
    at: u64,
    len: u64,
    first: u64,
) -> Result<Option<Bytes>, NoMemory>
    requires { ArePages (contents pages.now) }
    ensures { IfOk result (λ copy. copy ≡ option_map (take first)
        (bytes_at (private_window (joined (contents pages.now))) at len)) }
{
    match place_of(pages, at, len) {
        Ok(place) => {
            let bytes = part(alloc, pages, place, first.min(len) as usize)?;
            Ok(Some(Bytes::from(bytes)))
        }
        Err(BadAddress) => Ok(None),
    }
}

/// Makes the pages of a range of addresses own ones.
pub fn own_at(alloc: Global, pages: &mut [Page], at: u64, len: u64) -> Result<(), StoreError>
    requires { ArePages (contents pages.old) }
    ensures bytes { contents pages.new ≡ contents pages.old }
    ensures bad_address { (result ≡ Err StoreError.BadAddress) ↔
        IsNone (bytes_at (private_window (joined (contents pages.old))) at len) }
    ensures lacks { (result ≡ Err StoreError.NoMemory) →
        Lacks (at - WINDOW_START) len (owned pages.old) }
    ensures refused { (result ≡ Err StoreError.BadAddress) → owned pages.new ≡ owned pages.old }
    ensures gains { Gains (at - WINDOW_START) len (owned pages.old) (owned pages.new) }
    ensures own { OnOk result (AreOwn (at - WINDOW_START) len (owned pages.new)) }
{
    let place = place_of(pages, at, len)?;
    Ok(own(alloc, pages, place, len as usize)?)
}

/// Writes bytes at an address, once each of their pages is own.
pub fn write_from(
    alloc: Global,
    pages: &mut [Page],
    at: u64,
    bytes: &[u8],
) -> Result<(), StoreError>
    requires { ArePages (contents pages.old) }
    ensures pages { ArePages (contents pages.new) }
    ensures ok { OnOk result (private_window (joined (contents pages.new)) ≡
        with_bytes (private_window (joined (contents pages.old))) at bytes.now) }
    ensures bad_address { (result ≡ Err StoreError.BadAddress) ↔
        IsNone (bytes_at (private_window (joined (contents pages.old))) at (length bytes.now)) }
    ensures err { OnErr result (contents pages.new ≡ contents pages.old) }
    ensures lacks { (result ≡ Err StoreError.NoMemory) →
        Lacks (at - WINDOW_START) (length bytes.now) (owned pages.old) }
    ensures refused { (result ≡ Err StoreError.BadAddress) → owned pages.new ≡ owned pages.old }
    ensures gains { Gains (at - WINDOW_START) (length bytes.now) (owned pages.old) (owned pages.new) }
    ensures own { OnOk result (AreOwn (at - WINDOW_START) (length bytes.now) (owned pages.new)) }
{
    let place = place_of(pages, at, bytes.len() as u64)?;
    own(alloc, pages, place, bytes.len())?;
    write(pages, place, bytes);
    Ok(())
}

/// Writes bytes at an address, once each of their pages is own, with memory that is in hand.
pub fn write_with(
    pages: &mut [Page],
    at: u64,
    bytes: &[u8],
    spare: Vec<Box<[u8; 4096]>>,
) -> Result<(), BadAddress>
    requires pages { ArePages (contents pages.old) }
    requires enough { most_met (length bytes.now) ≤ length spare.items }
    ensures pages { ArePages (contents pages.new) }
    ensures ok { OnOk result (private_window (joined (contents pages.new)) ≡
        with_bytes (private_window (joined (contents pages.old))) at bytes.now) }
    ensures bad_address { IsErr result ↔
        IsNone (bytes_at (private_window (joined (contents pages.old))) at (length bytes.now)) }
    ensures err { OnErr result (contents pages.new ≡ contents pages.old) }
    ensures refused { OnErr result (owned pages.new ≡ owned pages.old) }
    ensures gains { Gains (at - WINDOW_START) (length bytes.now) (owned pages.old) (owned pages.new) }
    ensures own { OnOk result (AreOwn (at - WINDOW_START) (length bytes.now) (owned pages.new)) }
{
    let place = place_of(pages, at, bytes.len() as u64)?;
    own_with(pages, place, bytes.len(), spare);
    write(pages, place, bytes);
    Ok(())
}

// The number at a place, where it lies whole in one page.
#[inline(always)]
fn load_near(pages: &[Page], place: u64, len: u8) -> Option<u64>
    requires length { IsAccessLength len }
    requires pages { ArePages (contents pages.now) }
    ensures whole { IfSome result (λ number. place + len ≤ WINDOW_LEN) }
    ensures number { IfSome result
        (λ number. number ≡ number_of (take len (drop place (joined (contents pages.now))))) }
    ensures fits { IfSome result (λ number. number < 2 ^ (8 * len)) }
{
    let offset = place as usize % PAGE_LEN;
    if offset > PAGE_LEN - len as usize {
        return None;
    }
    match pages.get(place as usize / PAGE_LEN) {
        Some(page) => Some(numbers::load(page.bytes(), offset, len)),
        None => None,
    }
}

// The number at an address, wherever it lies.
#[inline(never)]
fn load_far(pages: &[Page], at: u64, len: u8) -> Result<u64, BadAddress>
    requires length { IsAccessLength len }
    requires pages { ArePages (contents pages.now) }
    ensures number { result_ok result ≡
        number_at (private_window (joined (contents pages.now))) at len }
    ensures fits { IfOk result (λ number. number < 2 ^ (8 * len)) }
{
    let mut spelled = [0; 8];
    read_into(pages, at, &mut spelled[..len as usize])?;
    Ok(numbers::load(&spelled, 0, len))
}

/// The number at an address.
#[inline(always)]
pub fn load(pages: &[Page], at: u64, len: u8) -> Result<u64, BadAddress>
    requires length { IsAccessLength len }
    requires pages { ArePages (contents pages.now) }
    ensures number { result_ok result ≡
        number_at (private_window (joined (contents pages.now))) at len }
    ensures fits { IfOk result (λ number. number < 2 ^ (8 * len)) }
{
    let place = PRIVATE.offset(at);
    if let Some(number) = load_near(pages, place, len) {
        return Ok(number);
    }
    if place >= WINDOW_LEN {
        return Err(BadAddress);
    }
    load_far(pages, at, len)
}

// Writes a number in an own page.
#[inline(always)]
fn store_in(page: &mut Page, offset: usize, len: u8, value: u64) -> bool
    requires length { IsAccessLength len }
    requires page { length (page_bytes page.old) ≡ PAGE_LEN }
    requires short { offset + len ≤ PAGE_LEN }
    ensures own { result ≡ is_own page.old }
    ensures len { length (page_bytes page.new) ≡ PAGE_LEN }
    ensures bytes { IsTrue result →
        page_bytes page.new ≡ overwrite (page_bytes page.old) offset (bytes_of len value) }
    ensures still { is_own page.new ≡ is_own page.old }
    ensures no { result ≡ false → page.new ≡ page.old }
{
    match page {
        Page::Own(bytes) => {
            numbers::store(bytes.as_mut_slice(), offset, len, value);
            true
        }
        Page::Shared(_) => false,
    }
}

// Writes a number at a place, where it lies whole in one own page.
#[inline(always)]
fn store_near(pages: &mut [Page], place: u64, len: u8, value: u64) -> bool
    requires length { IsAccessLength len }
    requires pages { ArePages (contents pages.old) }
    ensures whole { IsTrue result → place + len ≤ WINDOW_LEN }
    ensures own { IsTrue result → AreOwn place len (owned pages.old) }
    ensures bytes { IsTrue result → joined (contents pages.new) ≡
        overwrite (joined (contents pages.old)) place (bytes_of len value) }
    ensures no { result ≡ false → contents pages.new ≡ contents pages.old }
    ensures still { owned pages.new ≡ owned pages.old }
    ensures pages { ArePages (contents pages.new) }
{
    let offset = place as usize % PAGE_LEN;
    let number = place as usize / PAGE_LEN;
    if number >= pages.len() || offset > PAGE_LEN - len as usize {
        return false;
    }
    store_in(&mut pages[number], offset, len, value)
}

// Writes a number at an address, wherever it lies.
#[inline(never)]
fn store_far(
    alloc: Global,
    pages: &mut [Page],
    at: u64,
    len: u8,
    value: u64,
) -> Result<(), StoreError>
    requires length { IsAccessLength len }
    requires pages { ArePages (contents pages.old) }
    ensures pages { ArePages (contents pages.new) }
    ensures ok { OnOk result (private_window (joined (contents pages.new)) ≡
        with_bytes (private_window (joined (contents pages.old))) at (bytes_of len value)) }
    ensures bad_address { (result ≡ Err StoreError.BadAddress) ↔
        IsNone (bytes_at (private_window (joined (contents pages.old))) at len) }
    ensures err { OnErr result (contents pages.new ≡ contents pages.old) }
    ensures lacks { (result ≡ Err StoreError.NoMemory) →
        Lacks (at - WINDOW_START) len (owned pages.old) }
    ensures refused { (result ≡ Err StoreError.BadAddress) → owned pages.new ≡ owned pages.old }
    ensures gains { Gains (at - WINDOW_START) len (owned pages.old) (owned pages.new) }
    ensures own { OnOk result (AreOwn (at - WINDOW_START) len (owned pages.new)) }
{
    let mut spelled = [0; 8];
    numbers::store(&mut spelled, 0, len, value);
    write_from(alloc, pages, at, &spelled[..len as usize])
}

/// Writes a number at an address.
#[inline(always)]
pub fn store(
    alloc: Global,
    pages: &mut [Page],
    at: u64,
    len: u8,
    value: u64,
) -> Result<(), StoreError>
    requires length { IsAccessLength len }
    requires pages { ArePages (contents pages.old) }
    ensures pages { ArePages (contents pages.new) }
    ensures ok { OnOk result (private_window (joined (contents pages.new)) ≡
        with_bytes (private_window (joined (contents pages.old))) at (bytes_of len value)) }
    ensures bad_address { (result ≡ Err StoreError.BadAddress) ↔
        IsNone (bytes_at (private_window (joined (contents pages.old))) at len) }
    ensures err { OnErr result (contents pages.new ≡ contents pages.old) }
    ensures lacks { (result ≡ Err StoreError.NoMemory) →
        Lacks (at - WINDOW_START) len (owned pages.old) }
    ensures refused { (result ≡ Err StoreError.BadAddress) → owned pages.new ≡ owned pages.old }
    ensures gains { Gains (at - WINDOW_START) len (owned pages.old) (owned pages.new) }
    ensures own { OnOk result (AreOwn (at - WINDOW_START) len (owned pages.new)) }
{
    let place = PRIVATE.offset(at);
    if store_near(pages, place, len, value) {
        return Ok(());
    }
    if place >= WINDOW_LEN {
        return Err(StoreError::BadAddress);
    }
    store_far(alloc, pages, at, len, value)
}

/// The blocks that aren't all zero, in order of number.
pub fn used_blocks(alloc: Global, pages: &[Page]) -> Result<Blocks, NoMemory>
    requires { ArePages (contents pages.now) }
    ensures { IfOk result (λ blocks. blocks ≡ blocks_of (joined (contents pages.now))) }
{
    let mut blocks = Blocks::new(alloc);
    for (index, page) in pages.iter().enumerate() {
        add_used(&mut blocks, PAGE_BLOCKS * index as u16, page.bytes())?;
    }
    Ok(blocks)
}
