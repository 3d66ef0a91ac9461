// Sets that are carried over into fresh ones, so that those which nobody names go.
ghost use Rattle.std.specs.Prelude.{◌≡◌, ◌<◌, ◌≤◌, ℕ, true, false, [], length, IfOk, OnOk};
ghost use Rattle.taint_spans.specs.Carried.{CarriesOn, HasNumber, HaveNumbers, KeepZeros};
ghost use Rattle.taint_spans.specs.Numbered.{IsSet, IsSpanOf, first_received, first_span, is_span, members_of};
ghost use Rattle.taint_spans.specs.Spans.{IsSpan, span_members};

use crate::known::{known, remember};
use crate::sets::{FIRST_SPAN, SpanSets, is_of_span, narrow, number_of};
use crate::span::{EMPTY, Span};
use crate::spans::Spans;
use arn_base::NoMemory;
use std::alloc::Global;
use std::marker::Model;

/// Sets that are carried over into fresh ones, one after the other. Received bytes keep their numbers.
#[derive(Drop)]
pub struct Carrying {
    from: Spans,
    plain: taint_sets::Carrying,
    into: Spans,
    carried: Vec<u32>,
    alloc: Global,
}

impl Model for Carrying {
    ghost use Rattle.taint_spans.specs.Carried.{Carried};
    ghost use Rattle.taint_spans.specs.Sound.{IsCarrying, carried_of};

    ghost Value = { Carried };

    ghost view = { λ c. carried_of c.plain c.from c.into };

    ghost invariant = { λ c. IsCarrying c.plain c.from c.into c.carried.items };
}

impl Carrying {
    /// None of these sets is carried over yet. The unions of at most `memo` pairs of fresh sets are remembered.
    pub fn new(alloc: Global, sets: SpanSets, memo: u32) -> Result<Carrying, NoMemory>
        ensures { IfOk result (λ carrying. carrying.from ≡ sets) }
    {
        let (sets, from) = sets.parts();
        Ok(Carrying {
            from,
            plain: taint_sets::Carrying::new(alloc, sets, memo)?,
            into: Spans::new(alloc)?,
            carried: Vec::new(alloc),
            alloc,
        })
    }

    /// The fresh sets.
    pub fn done(self) -> SpanSets
        ensures { result ≡ self.into }
    {
        SpanSets::of(self.plain.done(), self.into, self.alloc)
    }

    /// The empty set and received bytes keep their numbers.
    pub fn keeps(&self)
        ensures empty { HasNumber self.now 0 0 }
        ensures received { (number : ℕ) → first_received ≤ number → HasNumber self.now number number }
        ensures set { IsSet self.now.into 0 }
        ensures none { members_of self.now.into 0 ≡ [] }
    {
        self.plain.keeps();
    }

    /// The number that a set has from now on. The empty set keeps 0.
    pub fn carry(&mut self, set: u32) -> Result<u32, NoMemory>
        ensures number { IfOk result (HasNumber self.new set) }
        ensures zero { set ≡ 0 → IfOk result (λ number. number ≡ 0) }
        ensures on { CarriesOn self.old self.new }
    {
        if is_of_span(set) {
            self.carry_span(set)
        } else {
            self.carry_plain(set)
        }
    }

    /// The same of a set that isn't a span.
    fn carry_plain(&mut self, set: u32) -> Result<u32, NoMemory>
        requires { is_span set ≡ false }
        ensures number { IfOk result (HasNumber self.new set) }
        ensures zero { set ≡ 0 → IfOk result (λ number. number ≡ 0) }
        ensures on { CarriesOn self.old self.new }
    {
        self.plain.keeps();
        narrow(self.plain.carry(set)?)
    }

    /// The same of a span. Its number is remembered.
    fn carry_span(&mut self, set: u32) -> Result<u32, NoMemory>
        requires { is_span set ≡ true }
        ensures number { IfOk result (HasNumber self.new set) }
        ensures on { CarriesOn self.old self.new }
    {
        let place = (set - FIRST_SPAN) as usize;
        if let Some(known) = known(self.carried.as_slice(), place) {
            return Ok(known);
        }
        self.keeps();
        let Some(span) = self.from.get(place) else {
            return Ok(EMPTY);
        };
        let number = self.carry_anew(set, span)?;
        remember(&mut self.carried, place, number)
    }

    /// The same of a span of which no number is remembered: its set is carried over.
    fn carry_anew(&mut self, set: u32, span: Span) -> Result<u32, NoMemory>
        requires { IsSpanOf self.old.from set span }
        ensures number { IfOk result (HasNumber self.new set) }
        ensures on { CarriesOn self.old self.new }
    {
        self.plain.keeps();
        let base = self.plain.carry(span.base)?;
        self.keep(Span { base, ..span })
    }

    /// The number of a fresh span.
    fn keep(&mut self, span: Span) -> Result<u32, NoMemory>
        requires { IsSpan self.old.into.sets span }
        ensures set { IfOk result (IsSet self.new.into) }
        ensures members { IfOk result (λ set.
            members_of self.new.into set ≡ span_members self.old.into.sets span) }
        ensures from { self.new.from ≡ self.old.from }
        ensures on { CarriesOn self.old self.new }
    {
        number_of(self.into.keep(span)?)
    }

    /// Puts in the place of each number the one that its set has from now on.
    pub fn carry_all(&mut self, numbers: &mut [u32]) -> Result<(), NoMemory>
        ensures numbers { OnOk result (HaveNumbers self.new numbers.old numbers.new) }
        ensures len { length numbers.new ≡ length numbers.old }
        ensures zeros { KeepZeros numbers.old numbers.new }
        ensures on { CarriesOn self.old self.new }
    {
        for place in 0..numbers.len() {
            numbers[place] = self.carry(numbers[place])?;
        }
        Ok(())
    }
}
