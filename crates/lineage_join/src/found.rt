// The pairs that were found.
ghost use Rattle.std.specs.Prelude.{◌≡◌, ◌↔◌, [], Contains, List, map, OnOk, IfOk};
ghost use Rattle.arn_base.specs.declared.records.Pair.{Pair};
ghost use Rattle.lineage_join.specs.declared.found.Hit.{Hit};
ghost use Rattle.lineage_join.specs.Hits.{HaveSameHits, pair_of};
ghost use Rattle.lineage_join.specs.Rising.{IsRising};
ghost use Rattle.lineage_join.specs.Waits.{HasAlso};

use arn_base::{NoMemory, Pair, Pairs};
use std::alloc::Global;
use std::marker::Model;

/// How many hits are kept at least before those that stand several times are let go.
const MANY: usize = 0x10_0000;

/// A pair, in the order of pairs.
#[derive(Clone, Copy, PartialEq, Eq, PartialOrd, Ord)]
pub struct Hit {
    pub byte: u32,
    pub event: u64,
    pub at: u32,
}

/// Pairs as they are found, so that one may stand several times.
#[derive(Drop)]
pub struct Found {
    hits: Vec<Hit>,
    /// With so many hits, those that stand several times are let go.
    many: usize,
}

impl Model for Found {
    ghost use Rattle.std.specs.Prelude.{List, map};
    ghost use Rattle.arn_base.specs.declared.records.Pair.{Pair};
    ghost use Rattle.lineage_join.specs.Hits.{pair_of};

    ghost Value = { List Pair };

    ghost view = { λ s. map pair_of s.hits.items };
}

/// Sorts hits, and keeps each once.
fn settle(hits: &mut Vec<Hit>)
    ensures members { HaveSameHits hits.old.items hits.new.items }
    ensures rising { IsRising (map pair_of hits.new.items) }
{
    hits.sort_unstable();
    hits.dedup();
}

fn pairs_of(alloc: Global, hits: &[Hit]) -> Result<Pairs, NoMemory>
    ensures { IfOk result (λ pairs. pairs ≡ map pair_of hits.now) }
{
    let mut pairs = Pairs::new(alloc);
    for hit in hits {
        pairs.push(Pair {
            event: hit.event,
            at: hit.at,
            byte: hit.byte,
        })?;
    }
    Ok(pairs)
}

impl Found {
    pub fn new(alloc: Global) -> Found
        ensures { result ≡ [] }
    {
        Found {
            hits: Vec::new(alloc),
            many: MANY,
        }
    }

    /// Adds one more.
    pub fn add(&mut self, event: u64, at: u32, byte: u32) -> Result<(), NoMemory>
        ensures { OnOk result (HasAlso self.old (record { event = event; at = at; byte = byte }) self.new) }
    {
        self.hits.push(Hit { byte, event, at })?;
        if self.hits.len() >= self.many {
            settle(&mut self.hits);
            self.many = MANY.max(self.hits.len().saturating_mul(2));
        }
        Ok(())
    }

    /// The pairs, rising, each once.
    pub fn pairs(mut self, alloc: Global) -> Result<Pairs, NoMemory>
        ensures members { IfOk result (λ pairs. (pair : Pair) → Contains pairs pair ↔ Contains self pair) }
        ensures rising { IfOk result IsRising }
    {
        settle(&mut self.hits);
        pairs_of(alloc, self.hits.as_slice())
    }
}
