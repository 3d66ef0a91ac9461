// The sets of bytes by number.
ghost use Rattle.std.specs.Prelude.{◌≡◌, ◌↔◌, ◌<◌, ◌≤◌, ◌+◌, ◌^◌, ℕ, [], IfOk, IfSome, OnOk, Some, None};
ghost use Rattle.set_store.specs.Carried.{AreCarried};
ghost use Rattle.set_store.specs.Sets as stored;
ghost use Rattle.set_store.specs.Sets.{IsUnionOf};
ghost use Rattle.taint_sets.specs.Numbered.{AreReceivedFrom, IsRowOf, IsSet, StandAsBefore, first_received, members_of};
ghost use Rattle.taint_sets.specs.Runs.{item_among};

use crate::run::{self, Run};
use arn_base::NoMemory;
use set_store::{Item, Sets};
use std::alloc::Global;
use std::marker::Model;

/// The number of the empty set.
const EMPTY: u32 = 0;

/// The first number of a received byte: all numbers below are those of sets that are kept.
pub const FIRST_RECEIVED: u32 = 0x8000_0000;

/// How many sets are kept before it may be worth while to let go of some.
const MANY: usize = 0x10_0000;

/// How many bytes of an event lie in one row.
const ROW_LEN: u32 = 64;

/// The number of a set that is kept in 32 bits. There is no memory for so many that it isn't below those of received bytes.
#[inline(always)]
fn narrow(set: usize) -> Result<u32, NoMemory>
    ensures { IfOk result (λ number. (number ≡ set) × (number < first_received)) }
{
    if set < FIRST_RECEIVED as usize {
        Ok(set as u32)
    } else {
        Err(NoMemory)
    }
}

/// Sets of items by number. Each received byte is an item by itself, whose number follows from that of the first that was
/// received with it; it is kept as a set only where it is joined with others. What is asked for is added, and nothing is
/// taken away, so a number stands for its set as long as these are kept. What is named of them may be carried over.
#[derive(Drop)]
pub struct ByteSets {
    kept: Sets,
    runs: Vec<Run>,
    next: u32,
    many: usize,
}

impl Model for ByteSets {
    ghost use Rattle.taint_sets.specs.Numbered.{Numbered};
    ghost use Rattle.taint_sets.specs.Sound.{IsSound};

    ghost Value = { Numbered };

    ghost view = { λ s. record { kept = s.kept; runs = s.runs.items } };

    ghost invariant = { λ s. IsSound s.runs.items s.next };
}

impl ByteSets {
    /// The empty set alone. The unions of at most `memo` pairs are remembered.
    pub fn new(alloc: Global, memo: u32) -> Result<ByteSets, NoMemory>
        ensures alone { IfOk result (λ sets. (set : ℕ) → IsSet sets set ↔ (set ≡ 0)) }
        ensures empty { IfOk result (λ sets. members_of sets 0 ≡ []) }
    {
        Ok(ByteSets {
            kept: Sets::new(alloc, memo)?,
            runs: Vec::new(alloc),
            next: FIRST_RECEIVED,
            many: MANY,
        })
    }

    /// Whether so many sets are kept that those which nobody names should go: 2^20, and twice as many as were left the last
    /// time.
    #[inline(always)]
    pub fn are_many(&self) -> bool {
        self.kept.len() >= self.many
    }

    /// How many sets are kept.
    pub(crate) fn count(&self) -> usize {
        self.kept.len()
    }

    /// The sets that are kept, and sets in their place with the same received bytes, of which none but the empty one is kept.
    /// The unions of at most `memo` pairs of these are remembered.
    pub(crate) fn emptied(self, alloc: Global, memo: u32) -> Result<(Sets, ByteSets), NoMemory>
        ensures kept { IfOk result (λ parts. parts.0 ≡ self.kept) }
        ensures runs { IfOk result (λ parts. parts.1.runs ≡ self.runs) }
    {
        let fresh = Sets::new(alloc, memo)?;
        let emptied = ByteSets {
            kept: fresh,
            runs: self.runs,
            next: self.next,
            many: MANY,
        };
        Ok((self.kept, emptied))
    }

    /// All sets that are named were carried over: only where twice as many are kept should some go again.
    pub(crate) fn settle(&mut self)
        ensures { self.new ≡ self.old }
    {
        self.many = MANY.max(self.kept.len().saturating_mul(2));
    }

    /// Carries a set of others over, whose numbers so far are noted.
    pub(crate) fn carry(
        &mut self,
        from: &Sets,
        numbers: &mut [u32],
        set: u32,
    ) -> Result<u32, NoMemory>
        requires { AreCarried from.now self.old.kept numbers.old }
        ensures small { IfOk result (λ number. number < first_received) }
        ensures there { IfOk result (stored.IsSet self.new.kept) }
        ensures members { IfOk result (λ number.
            stored.members_of self.new.kept number ≡ stored.members_of from.now set) }
        ensures noted { AreCarried from.now self.new.kept numbers.new }
        ensures kept { stored.StandAsBefore self.old.kept self.new.kept }
        ensures runs { self.new.runs ≡ self.old.runs }
    {
        narrow(self.kept.carry(from, numbers, set as usize)?)
    }

    /// The empty set, whose number is 0.
    #[inline(always)]
    pub fn empty(&self) -> u32
        ensures zero { result ≡ 0 }
        ensures set { IsSet self.now result }
        ensures empty { members_of self.now result ≡ [] }
    {
        let _ = self.kept.empty();
        EMPTY
    }

    /// So many bytes of an event are received, from one on. The number of the first is given, and those of the others
    /// follow. 2^31 bytes or more in all count as want of memory.
    pub fn receive(&mut self, event: u64, at: u64, len: usize) -> Result<u32, NoMemory>
        requires { at + len ≤ 2 ^ 64 }
        ensures received { IfOk result (AreReceivedFrom self.new event at len) }
        ensures before { StandAsBefore self.old self.new }
    {
        let first = self.next;
        let len = narrow(len)?;
        let Some(next) = first.checked_add(len) else {
            return Err(NoMemory);
        };
        self.runs.push(Run {
            first,
            len,
            event,
            at,
        })?;
        self.next = next;
        Ok(first)
    }

    /// The received byte of a number, if it is one.
    fn received(&self, number: u32) -> Option<Item>
        ensures { result ≡ item_among self.now.runs number }
    {
        run::find(self.runs.as_slice(), number)
    }

    /// The number of a set among those that are kept. A received byte is kept from now on.
    #[inline(always)]
    fn keep(&mut self, set: u32) -> Result<usize, NoMemory>
        requires { IsSet self.old set }
        ensures there { IfOk result (stored.IsSet self.new.kept) }
        ensures members { IfOk result (λ kept. stored.members_of self.new.kept kept ≡ members_of self.old set) }
        ensures kept { stored.StandAsBefore self.old.kept self.new.kept }
        ensures before { StandAsBefore self.old self.new }
    {
        if set < FIRST_RECEIVED {
            return Ok(set as usize);
        }
        self.keep_received(set)
    }

    /// The same of a received byte.
    #[inline(never)]
    fn keep_received(&mut self, number: u32) -> Result<usize, NoMemory>
        requires there { IsSet self.old number }
        requires received { first_received ≤ number }
        ensures there { IfOk result (stored.IsSet self.new.kept) }
        ensures members { IfOk result (λ kept. stored.members_of self.new.kept kept ≡ members_of self.old number) }
        ensures kept { stored.StandAsBefore self.old.kept self.new.kept }
        ensures before { StandAsBefore self.old self.new }
    {
        match self.received(number) {
            Some(item) => self.kept.single(item),
            None => unreachable!(),
        }
    }

    /// The set of all members of two sets.
    #[inline(always)]
    pub fn unite(&mut self, first: u32, second: u32) -> Result<u32, NoMemory>
        requires first { IsSet self.old first }
        requires second { IsSet self.old second }
        ensures set { IfOk result (IsSet self.new) }
        ensures members { IfOk result (λ set.
            IsUnionOf (members_of self.new set) (members_of self.old first) (members_of self.old second)) }
        ensures before { StandAsBefore self.old self.new }
    {
        let empty = self.empty();
        if first == second || second == empty {
            return Ok(first);
        }
        if first == empty {
            return Ok(second);
        }
        self.joined(first, second)
    }

    /// The same, as a set that is kept.
    fn joined(&mut self, first: u32, second: u32) -> Result<u32, NoMemory>
        requires first { IsSet self.old first }
        requires second { IsSet self.old second }
        ensures set { IfOk result (IsSet self.new) }
        ensures members { IfOk result (λ set.
            IsUnionOf (members_of self.new set) (members_of self.old first) (members_of self.old second)) }
        ensures before { StandAsBefore self.old self.new }
    {
        let first = self.keep(first)?;
        let second = self.keep(second)?;
        narrow(self.kept.union(first, second)?)
    }

    /// The set of the first of so many sets whose numbers follow each other, and how many these are. They are received bytes of one
    /// row of 64, as many as there are, or one set.
    pub fn row(&mut self, first: u32, len: u32) -> Result<(u32, u32), NoMemory>
        requires some { 0 < len }
        requires there { IsSet self.old first }
        ensures few { IfOk result (λ row. (0 < row.1) × (row.1 ≤ len)) }
        ensures set { IfOk result (λ row. IsSet self.new row.0) }
        ensures members { IfOk result (λ row. IsRowOf self.old first row.1 (members_of self.new row.0)) }
        ensures before { StandAsBefore self.old self.new }
    {
        match run::stretch(self.runs.as_slice(), first) {
            Some((item, stretch)) if first >= FIRST_RECEIVED => {
                let count = stretch.min(len).min(ROW_LEN - (item.at % 64) as u32);
                let set = narrow(self.kept.neighbours(item, u64::from(count))?)?;
                Ok((set, count))
            }
            _ => Ok((first, 1)),
        }
    }

    /// The members of a set that is kept, none where there is no such set.
    fn kept_members(&self, set: usize) -> Result<Vec<Item>, NoMemory>
        ensures { IfOk result (λ items. items.items ≡ stored.members_of self.now.kept set) }
    {
        if set < self.kept.len() {
            self.kept.members(set)
        } else {
            Ok(Vec::new(*self.runs.allocator()))
        }
    }

    /// The members of a set; none where a number stands for no set.
    pub fn members(&self, set: u32) -> Result<Vec<Item>, NoMemory>
        ensures { IfOk result (λ items. items.items ≡ members_of self.now set) }
    {
        if set < FIRST_RECEIVED {
            return self.kept_members(set as usize);
        }
        let mut items = Vec::new(*self.runs.allocator());
        if let Some(item) = self.received(set) {
            items.push(item)?;
        }
        Ok(items)
    }
}
