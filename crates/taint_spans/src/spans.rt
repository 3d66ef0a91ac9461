// Spans by place.
ghost use Rattle.std.specs.Prelude.{◌≡◌, ◌⊎◌, ◌<◌, ◌++◌, ◌∷◌, [], IfOk, IfSome, List, Some, length, slice_get};
ghost use Rattle.taint_spans.specs.declared.span.Span.{Span};

use crate::span::Span;
use arn_base::NoMemory;
use std::alloc::Global;
use std::marker::Model;

/// How many places of spans are remembered.
const RECENT: usize = 0x1000;

/// How far the number that is made of a span is shifted, so that it is below `RECENT`.
const SHIFT: u32 = 20;

/// Where the place of a span is remembered.
#[inline(always)]
fn slot(span: Span) -> usize {
    let base = span.base.wrapping_mul(0x9E37_79B1);
    let first = span.first.wrapping_mul(0x85EB_CA77);
    let len = span.len.wrapping_mul(0xC2B2_AE3D);
    (base.wrapping_add(first).wrapping_add(len) >> SHIFT) as usize
}

/// Spans by place. Of the spans that share a slot, the place of the one that was added last is remembered, so a span that is
/// asked for again soon is found. One that isn't is added once more.
#[derive(Drop)]
pub struct Spans {
    items: Vec<Span>,
    recent: Vec<u32>,
}

impl Model for Spans {
    ghost Value = { List Span };

    ghost view = { λ s. s.items.items };
}

impl Spans {
    /// No spans.
    pub fn new(alloc: Global) -> Result<Spans, NoMemory>
        ensures { IfOk result (λ spans. spans ≡ []) }
    {
        Ok(Spans {
            items: Vec::new(alloc),
            recent: vec![in alloc; 0; RECENT]?,
        })
    }

    /// How many spans there are.
    #[inline(always)]
    pub fn len(&self) -> usize
        ensures { result ≡ length self.now }
    {
        self.items.len()
    }

    /// The span at a place, if there is one.
    #[inline(always)]
    pub fn get(&self, place: usize) -> Option<Span>
        ensures { result ≡ slice_get self.now place }
    {
        self.items.get(place).copied()
    }

    /// The span at a place.
    #[inline(always)]
    pub fn at(&self, place: usize) -> Span
        requires { place < length self.now }
        ensures { slice_get self.now place ≡ Some result }
    {
        self.items[place]
    }

    /// The place of a span, if it is remembered in its slot.
    #[inline(always)]
    fn recent(&self, span: Span, slot: usize) -> Option<usize>
        ensures { IfSome result (λ place. slice_get self.now place ≡ Some span) }
    {
        let place = *self.recent.get(slot)? as usize;
        if self.get(place)? == span {
            Some(place)
        } else {
            None
        }
    }

    /// Remembers a place in a slot, if it has few enough bits.
    #[inline(always)]
    fn remember(&mut self, slot: usize, place: usize)
        ensures { self.new ≡ self.old }
    {
        if slot < self.recent.len() && place <= u32::MAX as usize {
            self.recent[slot] = place as u32;
        }
    }

    /// The place of a span, which is added where it isn't found.
    #[inline(always)]
    pub fn keep(&mut self, span: Span) -> Result<usize, NoMemory>
        ensures there { IfOk result (λ place. slice_get self.new place ≡ Some span) }
        ensures more { (self.new ≡ self.old) ⊎ (self.new ≡ self.old ++ span ∷ []) }
    {
        let slot = slot(span);
        if let Some(place) = self.recent(span, slot) {
            return Ok(place);
        }
        let place = self.len();
        self.items.push(span)?;
        self.remember(slot, place);
        Ok(place)
    }
}
