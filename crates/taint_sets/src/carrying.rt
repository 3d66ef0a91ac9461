// Sets that are carried over into fresh ones, so that those which nobody names go.
ghost use Rattle.std.specs.Prelude.{◌≡◌, ◌<◌, ◌≤◌, ℕ, [], IfOk};
ghost use Rattle.taint_sets.specs.Carried.{CarriesOn, HasNumber};
ghost use Rattle.taint_sets.specs.Numbered.{IsSet, first_received, members_of};

use crate::sets::{ByteSets, FIRST_RECEIVED};
use arn_base::NoMemory;
use set_store::Sets;
use std::alloc::Global;
use std::marker::Model;

/// Sets that are carried over into fresh ones, one after the other. Received bytes keep their numbers.
#[derive(Drop)]
pub struct Carrying {
    from: Sets,
    into: ByteSets,
    numbers: Vec<u32>,
}

impl Model for Carrying {
    ghost use Rattle.set_store.specs.Carried.{AreCarried};
    ghost use Rattle.taint_sets.specs.Carried.{Carried};

    ghost Value = { Carried };

    ghost view = { λ c. record { from = record { kept = c.from; runs = c.into.runs }; into = c.into } };

    ghost invariant = { λ c. AreCarried c.from c.into.kept c.numbers.items };
}

impl Carrying {
    /// None of these sets is carried over yet. The unions of at most `memo` pairs of fresh sets are remembered.
    pub fn new(alloc: Global, sets: ByteSets, memo: u32) -> Result<Carrying, NoMemory>
        ensures { IfOk result (λ carrying. carrying.from ≡ sets) }
    {
        let numbers = vec![in alloc; 0; sets.count()]?;
        match sets.emptied(alloc, memo) {
            Ok((from, into)) => Ok(Carrying {
                from,
                into,
                numbers,
            }),
            Err(lack) => Err(lack),
        }
    }

    /// The fresh sets.
    pub fn done(self) -> ByteSets
        ensures { result ≡ self.into }
    {
        let mut sets = self.into;
        sets.settle();
        sets
    }

    /// The empty set and received bytes keep their numbers.
    pub fn keeps(&self)
        ensures empty { HasNumber self.now 0 0 }
        ensures received { (number : ℕ) → first_received ≤ number → HasNumber self.now number number }
        ensures set { IsSet self.now.into 0 }
        ensures none { members_of self.now.into 0 ≡ [] }
    {
        let _ = self.into.empty();
        let _ = self.from.empty();
    }

    /// The number that a set has from now on. The empty set keeps 0.
    pub fn carry(&mut self, set: u32) -> Result<u32, NoMemory>
        ensures number { IfOk result (HasNumber self.new set) }
        ensures zero { set ≡ 0 → IfOk result (λ number. number ≡ 0) }
        ensures on { CarriesOn self.old self.new }
    {
        if set == 0 || set >= FIRST_RECEIVED {
            self.keeps();
            return Ok(set);
        }
        self.carry_kept(set)
    }

    /// The same of a set that is kept.
    fn carry_kept(&mut self, set: u32) -> Result<u32, NoMemory>
        requires { set < first_received }
        ensures number { IfOk result (HasNumber self.new set) }
        ensures on { CarriesOn self.old self.new }
    {
        self.into
            .carry(&self.from, self.numbers.as_mut_slice(), set)
    }
}
