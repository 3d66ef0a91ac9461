// The sets of bytes by number.
ghost use Rattle.std.specs.Prelude.{◌≡◌, ◌↔◌, ◌<◌, ◌≤◌, ◌+◌, ◌^◌, ℕ, true, false, [], IfOk};
ghost use Rattle.set_store.specs.Sets.{HaveSame, IsUnionOf};
ghost use Rattle.taint_sets.specs.Numbered as plain;
ghost use Rattle.taint_sets.specs.Numbered.{first_received};
ghost use Rattle.taint_spans.specs.Numbered.{AreReceivedFrom, IsSet, IsSpanOf, StandAsBefore, first_span, is_span, members_of};
ghost use Rattle.taint_spans.specs.Sound.{AreSpans, lists_of};
ghost use Rattle.taint_spans.specs.Spans.{IsSpan, span_members};

use crate::known::{known, remember};
use crate::settling::{members, settle};
use crate::span::{EMPTY, Span, has_all, longer};
use crate::spans::Spans;
use arn_base::NoMemory;
use set_store::Item;
use std::alloc::Global;
use std::marker::Model;
use taint_sets::{ByteSets, FIRST_RECEIVED};

/// The first number of a span.
pub(crate) const FIRST_SPAN: u32 = 0x4000_0000;

/// How many spans are kept before it may be worth while to let go of some.
const MANY: usize = 0x10_0000;

/// Whether a number is a span's.
#[inline(always)]
pub(crate) fn is_of_span(number: u32) -> bool
    ensures { result ≡ is_span number }
{
    FIRST_SPAN <= number && number < FIRST_RECEIVED
}

/// A number that isn't a span's. There is no memory for so many sets that one of theirs is.
#[inline(always)]
pub(crate) fn narrow(number: u32) -> Result<u32, NoMemory>
    ensures { IfOk result (λ same. (same ≡ number) × (is_span number ≡ false)) }
{
    if is_of_span(number) {
        Err(NoMemory)
    } else {
        Ok(number)
    }
}

/// The number of the span at a place. There is no memory for so many that it isn't one.
#[inline(always)]
pub(crate) fn number_of(place: usize) -> Result<u32, NoMemory>
    ensures { IfOk result (λ number. (number ≡ first_span + place) × (is_span number ≡ true)) }
{
    if place < FIRST_SPAN as usize {
        Ok(FIRST_SPAN + place as u32)
    } else {
        Err(NoMemory)
    }
}

/// Sets of items by number. A union with a received byte is kept as a span: a set, and received bytes in a row besides. It
/// becomes a set of its own only where it is joined with another one. What is asked for is added, and nothing is taken away,
/// so a number stands for its set as long as these are kept. What is named of them may be carried over.
#[derive(Drop)]
pub struct SpanSets {
    sets: ByteSets,
    spans: Spans,
    settled: Vec<u32>,
    many: usize,
}

impl Model for SpanSets {
    ghost use Rattle.taint_spans.specs.Numbered.{Numbered};
    ghost use Rattle.taint_spans.specs.Sound.{IsSound, lists_of};

    ghost Value = { Numbered };

    ghost view = { λ s. record { sets = s.sets; spans = lists_of s.sets s.spans } };

    ghost invariant = { λ s. IsSound s.sets s.spans s.settled.items };
}

impl SpanSets {
    /// The empty set alone. The unions of at most `memo` pairs are remembered.
    pub fn new(alloc: Global, memo: u32) -> Result<SpanSets, NoMemory>
        ensures alone { IfOk result (λ sets. (set : ℕ) → IsSet sets set ↔ (set ≡ 0)) }
        ensures empty { IfOk result (λ sets. members_of sets 0 ≡ []) }
    {
        Ok(SpanSets {
            sets: ByteSets::new(alloc, memo)?,
            spans: Spans::new(alloc)?,
            settled: Vec::new(alloc),
            many: MANY,
        })
    }

    /// The empty set, whose number is 0.
    #[inline(always)]
    pub fn empty(&self) -> u32
        ensures zero { result ≡ 0 }
        ensures set { IsSet self.now result }
        ensures empty { members_of self.now result ≡ [] }
    {
        let _ = self.sets.empty();
        EMPTY
    }

    /// Whether so many sets or spans are kept that those which nobody names should go: 2^20 of the ones or the others, and
    /// twice as many as were left the last time.
    #[inline(always)]
    pub fn are_many(&self) -> bool {
        self.spans.len() >= self.many || self.sets.are_many()
    }

    /// The sets that aren't spans, and the spans.
    pub(crate) fn parts(self) -> (ByteSets, Spans)
        ensures sets { result.0 ≡ self.sets }
        ensures spans { lists_of result.0 result.1 ≡ self.spans }
        ensures sound { AreSpans result.0 result.1 }
    {
        (self.sets, self.spans)
    }

    /// These sets and spans. Of none it is remembered which set it came to. Only where twice as many spans are kept should
    /// some go again.
    pub(crate) fn of(sets: ByteSets, spans: Spans, alloc: Global) -> SpanSets
        requires { AreSpans sets spans }
        ensures sets { result.sets ≡ sets }
        ensures spans { result.spans ≡ lists_of sets spans }
    {
        SpanSets {
            many: MANY.max(spans.len().saturating_mul(2)),
            sets,
            spans,
            settled: Vec::new(alloc),
        }
    }

    /// So many bytes of an event are received, from one on. The number of the first is given, and those of the others
    /// follow. 2^31 bytes or more in all count as want of memory.
    pub fn receive(&mut self, event: u64, at: u64, len: usize) -> Result<u32, NoMemory>
        requires { at + len ≤ 2 ^ 64 }
        ensures received { IfOk result (AreReceivedFrom self.new event at len) }
        ensures before { StandAsBefore self.old self.new }
    {
        self.sets.receive(event, at, len)
    }

    /// The span that a set is.
    #[inline(always)]
    fn span(&self, set: u32) -> Span
        requires { IsSet self.now set }
        ensures { IsSpanOf self.now set result }
    {
        let _ = self.empty();
        if is_of_span(set) {
            return self.spans.at((set - FIRST_SPAN) as usize);
        }
        if set < FIRST_SPAN {
            Span {
                base: set,
                first: set,
                len: 0,
            }
        } else {
            Span {
                base: EMPTY,
                first: set,
                len: 1,
            }
        }
    }

    /// The number of a span.
    fn keep(&mut self, span: Span) -> Result<u32, NoMemory>
        requires { IsSpan self.old.sets span }
        ensures set { IfOk result (IsSet self.new) }
        ensures members { IfOk result (λ set. members_of self.new set ≡ span_members self.old.sets span) }
        ensures before { StandAsBefore self.old self.new }
    {
        number_of(self.spans.keep(span)?)
    }

    /// The number of a set that isn't a span's. That of a span is remembered.
    fn settle(&mut self, set: u32) -> Result<u32, NoMemory>
        requires { IsSet self.old set }
        ensures set { IfOk result (plain.IsSet self.new.sets) }
        ensures members { IfOk result (λ same.
            HaveSame (plain.members_of self.new.sets same) (members_of self.old set)) }
        ensures before { StandAsBefore self.old self.new }
        ensures plain { plain.StandAsBefore self.old.sets self.new.sets }
    {
        if !is_of_span(set) {
            return Ok(set);
        }
        let place = (set - FIRST_SPAN) as usize;
        if let Some(known) = known(self.settled.as_slice(), place) {
            return Ok(known);
        }
        let settled = settle(&mut self.sets, self.spans.at(place))?;
        remember(&mut self.settled, place, settled)
    }

    /// The set of all members of two sets, as one that isn't a span.
    fn join(&mut self, first: u32, second: u32) -> Result<u32, NoMemory>
        requires first { IsSet self.old first }
        requires second { IsSet self.old second }
        ensures set { IfOk result (IsSet self.new) }
        ensures members { IfOk result (λ set.
            IsUnionOf (members_of self.new set) (members_of self.old first) (members_of self.old second)) }
        ensures before { StandAsBefore self.old self.new }
    {
        let first = self.settle(first)?;
        let second = self.settle(second)?;
        narrow(self.sets.unite(first, second)?)
    }

    /// The set with a received byte besides.
    fn add(&mut self, set: u32, span: Span, byte: u32) -> Result<u32, NoMemory>
        requires set { IsSet self.old set }
        requires span { IsSpanOf self.old set span }
        requires byte { IsSet self.old byte }
        requires received { first_received ≤ byte }
        ensures set { IfOk result (IsSet self.new) }
        ensures members { IfOk result (λ more.
            IsUnionOf (members_of self.new more) (members_of self.old set) (members_of self.old byte)) }
        ensures before { StandAsBefore self.old self.new }
    {
        if let Some(longer) = longer(span, byte) {
            return self.keep(longer);
        }
        let base = self.settle(set)?;
        self.keep(Span {
            base,
            first: byte,
            len: 1,
        })
    }

    /// The set of all members of two sets, the lower number first, where the higher one isn't that of a set that is kept.
    #[inline(never)]
    fn widen(&mut self, low: u32, high: u32) -> Result<u32, NoMemory>
        requires first { IsSet self.old low }
        requires second { IsSet self.old high }
        ensures set { IfOk result (IsSet self.new) }
        ensures members { IfOk result (λ set.
            IsUnionOf (members_of self.new set) (members_of self.old low) (members_of self.old high)) }
        ensures before { StandAsBefore self.old self.new }
    {
        let _ = self.empty();
        let lower = self.span(low);
        let higher = self.span(high);
        if has_all(higher, lower) {
            return Ok(high);
        }
        if has_all(lower, higher) {
            return Ok(low);
        }
        if high >= FIRST_RECEIVED {
            self.add(low, lower, high)
        } else {
            self.join(low, high)
        }
    }

    /// The set of all members of two sets.
    #[inline(always)]
    pub fn unite(&mut self, first: u32, second: u32) -> Result<u32, NoMemory>
        requires first { IsSet self.old first }
        requires second { IsSet self.old second }
        ensures set { IfOk result (IsSet self.new) }
        ensures members { IfOk result (λ set.
            IsUnionOf (members_of self.new set) (members_of self.old first) (members_of self.old second)) }
        ensures before { StandAsBefore self.old self.new }
    {
        let empty = self.empty();
        if first == second || second == empty {
            return Ok(first);
        }
        if first == empty {
            return Ok(second);
        }
        if first < FIRST_SPAN && second < FIRST_SPAN {
            return self.join(first, second);
        }
        self.widen(first.min(second), first.max(second))
    }

    /// The members of a set; none where a number stands for no set.
    pub fn members(&self, set: u32) -> Result<Vec<Item>, NoMemory>
        ensures { IfOk result (λ items. items.items ≡ members_of self.now set) }
    {
        if !is_of_span(set) {
            return self.sets.members(set);
        }
        match self.spans.get((set - FIRST_SPAN) as usize) {
            Some(span) => members(&self.sets, span),
            None => Ok(Vec::new(*self.settled.allocator())),
        }
    }
}
