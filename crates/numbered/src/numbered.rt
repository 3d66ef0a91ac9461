// Values by number.
ghost use Rattle.std.specs.Prelude.{◌≡◌, ◌≢◌, ◌<◌, ◌≤◌, ◌+◌, ℕ, [], length, max, is_some, slice_set, Some, None, IsSome, OnOk, OnErr, IfOk, option_copied};
ghost use Rattle.std.specs.Borrow.{Lends, sem};
ghost use Rattle.std.specs.contracts.option.Option.{the_row};
ghost use Rattle.parts_model.specs.Numbered.{nth};

use arn_base::NoMemory;
use std::alloc::Global;
use std::marker::Model;

/// Values by number. A number may have none, and a value may come under it again.
#[derive(Drop)]
pub struct Numbered<T> {
    items: Vec<Option<T>>,
}

impl<T> Model for Numbered<T> {
    ghost use Rattle.std.specs.Prelude.{List, Option};

    ghost Value = { List (Option T) };

    ghost view = { λ s. s.items.items };
}

// The value that is there, for writing.
#[inline]
fn value_mut<T>(slot: &mut Option<T>) -> &mut T
    requires { IsSome slot.old }
    ensures* writes_back { sem 𝓛 (Lends (the_row T.row) T.row slot.entry result Some) }
    ensures value { slot.old ≡ Some result.now }
{
    match slot {
        Some(value) => value,
        None => unreachable!(),
    }
}

// The value that is there.
#[inline]
fn value<V>(slot: Option<V>) -> V
    requires { IsSome slot }
    ensures { slot ≡ Some result }
{
    match slot {
        Some(value) => value,
        None => unreachable!(),
    }
}

impl<T: Drop> Numbered<T> {
    ghost use Rattle.numbered.specs.Lends.{lends_value};

    /// No value.
    pub fn new(alloc: Global) -> Numbered<T>
        ensures { result ≡ [] }
    {
        Numbered {
            items: Vec::new(alloc),
        }
    }

    /// How many numbers there are, those without a value among them.
    #[inline]
    pub fn len(&self) -> usize
        ensures { result ≡ length self.now }
    {
        self.items.len()
    }

    /// What each number has.
    #[inline]
    pub fn as_slice(&self) -> &[Option<T>]
        ensures { result.now ≡ self.now }
    {
        self.items.as_slice()
    }

    /// Whether a number has a value.
    #[inline]
    pub fn has(&self, number: usize) -> bool
        ensures { result ≡ is_some (nth self.now number) }
    {
        match self.items.get(number) {
            Some(slot) => slot.is_some(),
            None => false,
        }
    }

    /// The value of a number, if it has one.
    #[inline]
    pub fn get(&self, number: usize) -> Option<&T>
        ensures { option_copied result ≡ nth self.now number }
    {
        match self.items.get(number) {
            Some(slot) => slot.as_ref(),
            None => None,
        }
    }

    /// The value of a number that has one.
    #[inline]
    pub fn at(&self, number: usize) -> &T
        requires { IsSome (nth self.now number) }
        ensures { nth self.now number ≡ Some result.now }
    {
        value(self.get(number))
    }

    /// The value of a number that has one, for writing.
    #[inline]
    pub fn at_mut(&mut self, number: usize) -> &mut T
        requires { IsSome (nth self.old number) }
        ensures* writes_back { sem 𝓛 (lends_value T.row self.entry number result) }
        ensures value { nth self.old number ≡ Some result.now }
    {
        value_mut(&mut self.items[number])
    }

    /// Makes room for a value under a number.
    pub fn make_room(&mut self, number: u32) -> Result<(), NoMemory>
        ensures room { OnOk result (number < length self.new) }
        ensures len { OnOk result (length self.new ≡ max (length self.old) (number + 1)) }
        ensures longer { length self.old ≤ length self.new }
        ensures same { (n : ℕ) → nth self.new n ≡ nth self.old n }
        ensures err { OnErr result (self.new ≡ self.old) }
    {
        let wanted = number as usize + 1;
        if self.items.len() >= wanted {
            return Ok(());
        }
        self.items.reserve(wanted - self.items.len())?;
        while self.items.len() < wanted {
            self.items.push_reserved(None);
        }
        Ok(())
    }

    /// Puts a value under a number for which there is room, in the place of one that it may have.
    #[inline]
    pub fn put(&mut self, number: usize, value: T)
        requires { number < length self.old }
        ensures { self.new ≡ slice_set self.old number (Some value) }
    {
        self.items[number] = Some(value);
    }

    /// Takes the value of a number away, if it has one.
    #[inline]
    pub fn take(&mut self, number: usize) -> Option<T>
        ensures value { result ≡ nth self.old number }
        ensures rest { self.new ≡ slice_set self.old number None }
    {
        match self.items.get_mut(number) {
            Some(slot) => slot.take(),
            None => None,
        }
    }

    /// Takes the value of a number that has one.
    #[inline]
    pub fn take_at(&mut self, number: usize) -> T
        requires { IsSome (nth self.old number) }
        ensures value { nth self.old number ≡ Some result }
        ensures rest { self.new ≡ slice_set self.old number None }
    {
        value(self.take(number))
    }

    /// Lets the value of a number go, if it has one.
    pub fn remove(&mut self, number: usize)
        ensures { self.new ≡ slice_set self.old number None }
    {
        let _ = self.take(number);
    }

    /// The first number that has no value: the next one, where each has one.
    pub fn free(&self) -> usize
        ensures none { nth self.now result ≡ None }
        ensures first { (n : ℕ) → n < result → IsSome (nth self.now n) }
        ensures few { result ≤ length self.now }
    {
        for (number, slot) in self.items.iter().enumerate() {
            if slot.is_none() {
                return number;
            }
        }
        self.items.len()
    }

    /// The first number that has no value, with room for one.
    pub fn free_room(&mut self) -> Result<usize, NoMemory>
        ensures room { IfOk result (λ number. number < length self.new) }
        ensures none { IfOk result (λ number. nth self.new number ≡ None) }
        ensures first { IfOk result (λ number. (n : ℕ) → n < number → IsSome (nth self.old n)) }
        ensures longer { length self.old ≤ length self.new }
        ensures same { (n : ℕ) → nth self.new n ≡ nth self.old n }
        ensures err { OnErr result (self.new ≡ self.old) }
    {
        let number = self.free();
        if number == self.items.len() {
            self.items.push(None)?;
        }
        Ok(number)
    }

    /// Puts a value under the first number that has none, and says which.
    pub fn add(&mut self, value: T) -> Result<usize, NoMemory>
        ensures none { IfOk result (λ number. nth self.old number ≡ None) }
        ensures first { IfOk result (λ number. (n : ℕ) → n < number → IsSome (nth self.old n)) }
        ensures one { IfOk result (λ number. nth self.new number ≡ Some value) }
        ensures others { IfOk result (λ number.
            (n : ℕ) → n ≢ number → nth self.new n ≡ nth self.old n) }
        ensures err { OnErr result (self.new ≡ self.old) }
    {
        let number = self.free_room()?;
        self.put(number, value);
        Ok(number)
    }
}
