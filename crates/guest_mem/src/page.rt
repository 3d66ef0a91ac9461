// A page of a private window.
ghost use Rattle.std.specs.Prelude.{◌≡◌, true, false, length, IfOk, OnOk, OnErr};
ghost use Rattle.guest_mem.specs.Pages.{page_bytes, is_own};
ghost use Rattle.parts_model.specs.Memory.{zeros};

use arn_base::NoMemory;
use core::mem::replace_with;
use std::alloc::{AllocFailed, Global};
use std::rc::Rc;

/// How many bytes a page has.
pub const PAGE_LEN: usize = 4096;

/// How many pages a window has.
pub const PAGE_COUNT: usize = 64;

/// The bytes of a page: the window's own, or shared with other pages, which hold the same.
#[derive(Drop)]
pub enum Page {
    Own(Box<[u8; 4096]>),
    Shared(Rc<Box<[u8; 4096]>>),
}

impl Page {
    /// A shared page of zeros.
    pub fn zeros(alloc: Global) -> Result<Page, NoMemory>
        ensures bytes { IfOk result (λ page. page_bytes page ≡ zeros PAGE_LEN) }
        ensures own { IfOk result (λ page. is_own page ≡ false) }
    {
        Ok(Page::Shared(Rc::new(alloc, zeros(alloc)?)?))
    }

    /// The page's bytes.
    #[inline(always)]
    pub fn bytes(&self) -> &[u8]
        ensures { result.now ≡ page_bytes self.now }
    {
        match self {
            Page::Own(bytes) => bytes.as_slice(),
            Page::Shared(bytes) => bytes.as_slice(),
        }
    }

    /// The same bytes again: shared where they are shared, and else copied.
    pub fn copy(&self, alloc: Global) -> Result<Page, NoMemory>
        ensures bytes { IfOk result (λ page. page_bytes page ≡ page_bytes self.now) }
        ensures own { IfOk result (λ page. is_own page ≡ is_own self.now) }
    {
        match self {
            Page::Own(bytes) => Ok(Page::Own(Box::new(alloc, **bytes)?)),
            Page::Shared(bytes) => Ok(Page::Shared(bytes.clone()?)),
        }
    }

    /// Makes the page a shared one. Its bytes stay.
    pub fn share(&mut self, alloc: Global) -> Result<(), NoMemory>
        ensures bytes { page_bytes self.new ≡ page_bytes self.old }
        ensures ok { OnOk result (is_own self.new ≡ false) }
        ensures err { OnErr result (is_own self.new ≡ is_own self.old) }
    {
        replace_with(self, alloc, shared)
    }

    /// Whether the page is an own one.
    pub fn is_own(&self) -> bool
        ensures { result ≡ is_own self.now }
    {
        matches!(self, Page::Own(_))
    }

    /// Makes the page an own one, in this memory where other pages share it. Its bytes stay.
    pub fn own_in(&mut self, memory: Box<[u8; 4096]>)
        ensures bytes { page_bytes self.new ≡ page_bytes self.old }
        ensures own { is_own self.new ≡ true }
    {
        replace_with(self, memory, owned_in)
    }

    /// Makes the page an own one. Its bytes stay. Where no other page shares them, this takes no memory.
    pub fn own(&mut self, alloc: Global) -> Result<(), NoMemory>
        ensures bytes { page_bytes self.new ≡ page_bytes self.old }
        ensures ok { OnOk result (is_own self.new ≡ true) }
        ensures old { OnErr result (is_own self.old ≡ false) }
        ensures err { OnErr result (is_own self.new ≡ false) }
    {
        replace_with(self, alloc, owned)
    }
}

fn zeros(alloc: Global) -> Result<Box<[u8; 4096]>, NoMemory>
    ensures { IfOk result (λ bytes. bytes.value ≡ zeros PAGE_LEN) }
{
    Ok(Box::new(alloc, [0; 4096])?)
}

fn shared(page: Page, alloc: Global) -> (Page, Result<(), NoMemory>)
    ensures bytes { page_bytes result.0 ≡ page_bytes page }
    ensures ok { OnOk result.1 (is_own result.0 ≡ false) }
    ensures err { OnErr result.1 (is_own result.0 ≡ is_own page) }
{
    match page {
        Page::Own(bytes) => match Rc::new(alloc, bytes) {
            Ok(bytes) => (Page::Shared(bytes), Ok(())),
            Err(AllocFailed { value }) => (Page::Own(value), Err(NoMemory)),
        },
        Page::Shared(bytes) => (Page::Shared(bytes), Ok(())),
    }
}

fn owned(page: Page, alloc: Global) -> (Page, Result<(), NoMemory>)
    ensures bytes { page_bytes result.0 ≡ page_bytes page }
    ensures ok { OnOk result.1 (is_own result.0 ≡ true) }
    ensures old { OnErr result.1 (is_own page ≡ false) }
    ensures err { OnErr result.1 (is_own result.0 ≡ false) }
{
    match page {
        Page::Own(bytes) => (Page::Own(bytes), Ok(())),
        Page::Shared(bytes) => unshared(bytes, alloc),
    }
}

fn unshared(bytes: Rc<Box<[u8; 4096]>>, alloc: Global) -> (Page, Result<(), NoMemory>)
    ensures bytes { page_bytes result.0 ≡ bytes.value.value }
    ensures ok { OnOk result.1 (is_own result.0 ≡ true) }
    ensures err { OnErr result.1 (is_own result.0 ≡ false) }
{
    match Rc::try_unwrap(bytes) {
        Ok(bytes) => (Page::Own(bytes), Ok(())),
        Err(bytes) => match Box::new(alloc, **bytes) {
            Ok(copy) => (Page::Own(copy), Ok(())),
            Err(_) => (Page::Shared(bytes), Err(NoMemory)),
        },
    }
}

fn owned_in(page: Page, memory: Box<[u8; 4096]>) -> (Page, ())
    ensures bytes { page_bytes result.0 ≡ page_bytes page }
    ensures own { is_own result.0 ≡ true }
{
    match page {
        Page::Own(bytes) => (Page::Own(bytes), ()),
        Page::Shared(bytes) => (Page::Own(unshared_in(bytes, memory)), ()),
    }
}

fn unshared_in(bytes: Rc<Box<[u8; 4096]>>, memory: Box<[u8; 4096]>) -> Box<[u8; 4096]>
    ensures { result.value ≡ bytes.value.value }
{
    match Rc::try_unwrap(bytes) {
        Ok(bytes) => bytes,
        Err(bytes) => {
            let mut copy = memory;
            *copy = **bytes;
            copy
        }
    }
}
