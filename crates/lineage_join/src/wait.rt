// What is still to be followed.
ghost use Rattle.std.specs.Prelude.{◌≡◌, ◌<◌, ◌^◌, ℕ, List, All, OnOk, IfNone, IfSome, []};
ghost use Rattle.lineage_join.specs.Waits.{HasAlso, IsNumbered, IsTaken};

use arn_base::NoMemory;
use std::alloc::Global;
use std::collections::BTreeSet;
use std::marker::Model;

/// What a byte of an event is.
#[derive(Clone, Copy, PartialEq, Eq, PartialOrd, Ord)]
pub enum Kind {
    /// One that a process received.
    Received,
    /// One that the event shows.
    Byte,
    /// One with which a child began.
    Start,
}

/// A byte of an event that reaches byte `byte` of the target.
#[derive(Clone, Copy, PartialEq, Eq, PartialOrd, Ord)]
pub struct Wait {
    pub event: u64,
    pub kind: Kind,
    pub at: u64,
    pub byte: u32,
}

/// What is still to be followed, each once.
#[derive(Drop)]
pub struct Waiting {
    set: BTreeSet<Wait>,
}

impl Model for Waiting {
    ghost use Rattle.std.specs.Prelude.{List, All};
    ghost use Rattle.lineage_join.specs.Waits.{IsNumbered};
    ghost use Rattle.lineage_join.specs.declared.wait.Wait.{Wait};

    ghost Value = { List Wait };

    ghost view = { λ s. s.set.keys };

    ghost invariant = { λ s. All IsNumbered s.set.keys };
}

impl Waiting {
    pub fn new(alloc: Global) -> Waiting
        ensures { result ≡ [] }
    {
        Waiting {
            set: BTreeSet::new(alloc),
        }
    }

    /// Adds one more.
    pub fn add(&mut self, event: u64, kind: Kind, at: u64, byte: u32) -> Result<(), NoMemory>
        ensures ok { OnOk result (HasAlso self.old (record { event = event; kind = kind; at = at; byte = byte }) self.new) }
        ensures numbered { All IsNumbered self.new }
    {
        self.set.insert(Wait {
            event,
            kind,
            at,
            byte,
        })?;
        Ok(())
    }

    /// Takes the last, that of the latest event.
    pub fn next(&mut self) -> Option<Wait>
        ensures none { IfNone result (self.old ≡ []) }
        ensures some { IfSome result (λ wait. IsTaken self.old wait self.new) }
        ensures numbered { All IsNumbered self.new }
    {
        self.set.pop_last()
    }
}
