// The numbers of unplugged devices.
ghost use Rattle.std.specs.Prelude.{◌≡◌, ◌==◌, ◌++◌, ◌∷◌, ◌↔◌, [], false, true, IsTrue, Ok, OnErr};
ghost use Rattle.std.specs.List.{list_any};

use arn_base::NoMemory;
use indexmap::IndexSet;
use std::alloc::Global;
use std::marker::Model;

/// The numbers of the devices that were unplugged, in the order in which they were.
#[derive(Drop)]
pub struct Unplugged {
    numbers: IndexSet<u32>,
}

impl Model for Unplugged {
    ghost use Rattle.std.specs.Prelude.{List, ℕ};

    ghost Value = { List ℕ };

    ghost view = { λ s. s.numbers.keys };
}

impl Unplugged {
    pub fn new(alloc: Global) -> Unplugged
        ensures { result ≡ [] }
    {
        Unplugged {
            numbers: IndexSet::new(alloc),
        }
    }

    /// Whether the device of this number was unplugged.
    pub fn contains(&self, device: u32) -> bool
        ensures { result ≡ list_any (λ d. d == device) self.now }
    {
        self.numbers.contains(&device)
    }

    /// Adds a number. False comes exactly where it was there before.
    pub fn add(&mut self, device: u32) -> Result<bool, NoMemory>
        ensures added { result ≡ Ok true → self.new ≡ self.old ++ device ∷ [] }
        ensures before { (result ≡ Ok false) ↔ IsTrue (list_any (λ d. d == device) self.old) }
        ensures same { result ≡ Ok false → self.new ≡ self.old }
        ensures err { OnErr result (self.new ≡ self.old) }
    {
        Ok(self.numbers.insert(device)?)
    }
}
