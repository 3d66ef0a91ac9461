// Calls that fail by their numbers.
ghost use Rattle.std.specs.Prelude.{◌≡◌, ◌+◌, ◌↔◌, min, IsTrue, IsErr, Contains};
ghost use Rattle.arn_base.specs.Faults.{greatest, NeverFalls};

use arn_base::{Failed, Numbers};

/// Counts calls, from 0 on, and fails those whose numbers are listed.
#[derive(Drop)]
pub struct CallFuse {
    pub fails: Numbers,
    pub calls: u64,
    pub faults: u64,
}

fn is_listed(numbers: &[u32], call: u64) -> bool
    ensures { IsTrue result ↔ Contains numbers.now call }
{
    numbers.iter().any(|number| *number as u64 == call)
}

impl CallFuse {
    pub fn new(fails: Numbers) -> CallFuse
        ensures { result ≡ record { fails = fails; calls = 0; faults = 0 } }
    {
        CallFuse {
            fails,
            calls: 0,
            faults: 0,
        }
    }

    /// Counts a call, which fails where its number is listed.
    pub fn pass(&mut self) -> Result<(), Failed>
        ensures fails { IsErr result ↔ Contains self.old.fails self.old.calls }
        ensures same { self.new.fails ≡ self.old.fails }
        ensures calls { self.new.calls ≡ min (self.old.calls + 1) greatest }
        ensures fault { Contains self.old.fails self.old.calls →
            self.new.faults ≡ min (self.old.faults + 1) greatest }
        ensures no_fault { ¬ Contains self.old.fails self.old.calls →
            self.new.faults ≡ self.old.faults }
        ensures faults { NeverFalls self.old.faults self.new.faults }
    {
        let blows = is_listed(self.fails.as_slice(), self.calls);
        self.calls = self.calls.saturating_add(1);
        if blows {
            self.faults = self.faults.saturating_add(1);
            return Err(Failed);
        }
        Ok(())
    }
}
