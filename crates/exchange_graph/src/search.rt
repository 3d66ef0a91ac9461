// The numbers that are reached from others.
ghost use Rattle.std.specs.Prelude.{◌≡◌, ◌<◌, ◌≤◌, ◌^◌, [], ℕ, false, List, length, replicate, All, OnOk, IfOk};
ghost use Rattle.exchange_graph.specs.Reach.{Reach, Lists};
ghost use Rattle.exchange_graph.specs.Search.{with_mark, with_marks, marked_from, IsUnderWay, IsFound};

use crate::rows::Rows;
use arn_base::{NoMemory, Numbers};
use std::alloc::Global;
use std::marker::Model;

/// Which numbers are found, and which of them are still to be followed.
#[derive(Drop)]
struct Search {
    marks: Vec<bool>,
    waiting: Vec<u32>,
}

impl Model for Search {
    ghost use Rattle.exchange_graph.specs.Search.{Found};

    ghost Value = { Found };

    ghost view = { λ s. record { marks = s.marks.items; waiting = s.waiting.items } };
}

impl Search {
    /// Of so many numbers none is found.
    fn new(alloc: Global, len: usize) -> Result<Search, NoMemory>
        ensures { IfOk result (λ made. made ≡ record { marks = replicate len false; waiting = [] }) }
    {
        Ok(Search {
            marks: vec![in alloc; false; len]?,
            waiting: Vec::new(alloc),
        })
    }

    fn mark(&mut self, number: u32) -> Result<(), NoMemory>
        requires { number < length self.old.marks }
        ensures { OnOk result (self.new ≡ with_mark self.old number) }
    {
        if self.marks[number as usize] {
            return Ok(());
        }
        self.waiting.push(number)?;
        self.marks[number as usize] = true;
        Ok(())
    }

    fn mark_all(&mut self, numbers: &[u32]) -> Result<(), NoMemory>
        requires { All (λ n. n < length self.old.marks) numbers.now }
        ensures { OnOk result (self.new ≡ with_marks self.old numbers.now) }
    {
        for number in numbers {
            self.mark(*number)?;
        }
        Ok(())
    }
}

/// How many marks there are to be, where there are so many rows.
fn room_for(rows: usize, from: &[u32]) -> usize
    requires { rows ≤ 2 ^ 32 }
    ensures few { result ≤ 2 ^ 32 }
    ensures rows { rows ≤ result }
    ensures from { All (λ n. n < result) from.now }
{
    let mut room = rows;
    for number in from {
        room = room.max(*number as usize + 1);
    }
    room
}

/// Follows what is found, until nothing is left to be followed.
fn follow(search: &mut Search, rows: &Rows) -> Result<(), NoMemory>
    requires room { length rows.now ≤ length search.old.marks }
    ensures same { OnOk result (length search.new.marks ≡ length search.old.marks) }
    ensures ok { (from : List ℕ) → IsUnderWay rows.now from search.old → OnOk result (IsFound rows.now from search.new.marks) }
{
    while let Some(next) = search.waiting.pop() {
        search.mark_all(rows.row(next))?;
    }
    Ok(())
}

/// The numbers that are marked.
fn marked(alloc: Global, marks: &[bool]) -> Result<Numbers, NoMemory>
    requires few { length marks.now ≤ 2 ^ 32 }
    ensures { IfOk result (λ numbers. numbers ≡ marked_from 0 marks.now) }
{
    let mut numbers = Numbers::new(alloc);
    for number in 0..marks.len() {
        if marks[number] {
            numbers.push(number as u32)?;
        }
    }
    Ok(numbers)
}

/// The numbers that are reached from these.
pub fn reach(rows: &Rows, from: &[u32]) -> Result<Numbers, NoMemory>
    ensures { IfOk result (λ numbers. Lists numbers (Reach rows.now from.now)) }
{
    let alloc = rows.allocator();
    let mut search = Search::new(alloc, room_for(rows.len(), from))?;
    search.mark_all(from)?;
    follow(&mut search, rows)?;
    marked(alloc, search.marks.as_slice())
}
