// Choosers of slices.
ghost use Rattle.std.specs.Prelude.{◌≡◌, ◌%◌, ◌^◌, ℕ, Some, slice_get, unwrap_or};
ghost use Rattle.rand_pcg.specs.Lcg.{started, increment_of};
ghost use Rattle.rand_pcg.specs.Pcg.{multiplier_64};
ghost use Rattle.guest_devices.specs.Scripts.{last_choice};
ghost use Rattle.guest_devices.specs.Seeded.{choice_at, after_choices};

use arn_base::{Choice, Chooser};
use rand_core::utils::NextWord;
use rand_pcg::Lcg64Xsh32;

/// Gives the choices of a list, one after another, and then index 0 and count 1.
#[derive(Drop)]
pub struct ScriptChooser {
    choices: Vec<Choice>,
    next: usize,
}

impl ScriptChooser {
    pub fn new(choices: Vec<Choice>) -> ScriptChooser
        ensures { (k : ℕ) → ⟦<ScriptChooser as Chooser>⟧.choices result k ≡
            Some (unwrap_or (slice_get choices.items k) last_choice) }
    {
        ScriptChooser { choices, next: 0 }
    }
}

impl Chooser for ScriptChooser {
    ghost use Rattle.std.specs.Prelude.{◌+◌, Some, slice_get, unwrap_or};
    ghost use Rattle.guest_devices.specs.Scripts.{last_choice};

    ghost choices = { λ c k. Some (unwrap_or (slice_get c.choices.items (c.next + k)) last_choice) };

    fn choose(&mut self, _runnable: u32) -> Choice {
        match self.choices.get(self.next) {
            Some(choice) => {
                self.next += 1;
                *choice
            }
            None => Choice { index: 0, count: 1 },
        }
    }
}

/// Gives the indices 0, 1, 2 and so on, and 0 again after the greatest `u32`; and always one count.
#[derive(Drop)]
pub struct RoundChooser {
    next: u32,
    count: u32,
}

impl RoundChooser {
    pub fn new(count: u32) -> RoundChooser
        ensures { (k : ℕ) → ⟦<RoundChooser as Chooser>⟧.choices result k ≡
            Some (record { index = k % 2 ^ 32; count = count }) }
    {
        RoundChooser { next: 0, count }
    }
}

impl Chooser for RoundChooser {
    ghost use Rattle.std.specs.Prelude.{◌+◌, ◌%◌, ◌^◌, Some};

    ghost choices = { λ c k. Some (record { index = (c.next + k) % 2 ^ 32; count = c.count }) };

    fn choose(&mut self, _runnable: u32) -> Choice {
        let index = self.next;
        self.next = index.wrapping_add(1);
        Choice {
            index,
            count: self.count,
        }
    }
}

/// Gives the choices of a seeded generator. One word is the index, the next modulo 1,000 plus 1 is
/// the count.
#[derive(Drop)]
pub struct SeededChooser {
    words: Lcg64Xsh32,
}

impl SeededChooser {
    pub fn new(seed: u64) -> SeededChooser
        ensures { (k : ℕ) → ⟦<SeededChooser as Chooser>⟧.choices result k ≡
            Some (choice_at (after_choices (started 64 multiplier_64 seed (increment_of 64 1)) k)) }
    {
        SeededChooser {
            words: Lcg64Xsh32::new(seed, 1),
        }
    }
}

impl Chooser for SeededChooser {
    ghost use Rattle.std.specs.Prelude.{Some};
    ghost use Rattle.guest_devices.specs.Seeded.{choice_at, after_choices};

    ghost choices = { λ c k. Some (choice_at (after_choices c.words k)) };

    fn choose(&mut self, _runnable: u32) -> Choice {
        let index = self.words.next_word();
        let count = self.words.next_word() % 1000 + 1;
        Choice { index, count }
    }
}
