// For each number a row of numbers.
ghost use Rattle.std.specs.Prelude.{◌≡◌, ◌<◌, ◌≤◌, ◌^◌, ◌++◌, ◌∷◌, [], ℕ, length, slice_set, All, OnOk, OnErr};
ghost use Rattle.exchange_graph.specs.Rows.{row_of, row_with, IsClosed};

use arn_base::{NoMemory, Numbers};
use std::alloc::Global;
use std::marker::Model;

/// Rows by number. Each number in a row has a row.
#[derive(Drop)]
pub struct Rows {
    rows: Vec<Numbers>,
}

impl Model for Rows {
    ghost use Rattle.std.specs.Prelude.{List, ℕ};

    ghost Value = { List (List ℕ) };

    ghost use Rattle.exchange_graph.specs.Rows.{IsClosed};

    ghost view = { λ s. s.rows.items };

    ghost invariant = { λ s. IsClosed s.rows.items };
}

/// Makes empty rows up to a number.
fn make_room(rows: &mut Vec<Numbers>, number: u32) -> Result<(), NoMemory>
    requires few { length rows.old.items ≤ 2 ^ 32 }
    ensures room { OnOk result (number < length rows.new.items) }
    ensures few { length rows.new.items ≤ 2 ^ 32 }
    ensures longer { length rows.old.items ≤ length rows.new.items }
    ensures same { (n : ℕ) → row_of rows.new.items n ≡ row_of rows.old.items n }
{
    let alloc = *rows.allocator();
    while rows.len() <= number as usize {
        rows.push(Numbers::new(alloc))?;
    }
    Ok(())
}

/// Adds a number behind a row.
fn push_to(rows: &mut [Numbers], from: u32, to: u32) -> Result<(), NoMemory>
    requires inside { from < length rows.old }
    ensures ok { OnOk result (rows.new ≡ slice_set rows.old from (row_of rows.old from ++ to ∷ [])) }
    ensures err { OnErr result (rows.new ≡ rows.old) }
{
    rows[from as usize].push(to)
}

/// The row of a number.
fn row_in(rows: &[Numbers], number: u32) -> &[u32]
    ensures { result.now ≡ row_of rows.now number }
{
    if number as usize >= rows.len() {
        return &[];
    }
    rows[number as usize].as_slice()
}

impl Rows {
    pub fn new(alloc: Global) -> Rows
        ensures { result ≡ [] }
    {
        Rows {
            rows: Vec::new(alloc),
        }
    }

    /// Adds a number behind the row of another.
    pub fn add(&mut self, from: u32, to: u32) -> Result<(), NoMemory>
        ensures ok { OnOk result ((n : ℕ) → row_of self.new n ≡ row_with self.old from to n) }
    {
        make_room(&mut self.rows, from.max(to))?;
        push_to(&mut self.rows, from, to)
    }

    /// The row of a number.
    pub fn row(&self, number: u32) -> &[u32]
        ensures row { result.now ≡ row_of self.now number }
        ensures inside { All (λ n. n < length self.now) result.now }
    {
        row_in(self.rows.as_slice(), number)
    }

    /// How many rows there are.
    pub fn len(&self) -> usize
        ensures len { result ≡ length self.now }
        ensures closed { IsClosed self.now }
    {
        self.rows.len()
    }

    pub fn allocator(&self) -> Global {
        *self.rows.allocator()
    }
}
