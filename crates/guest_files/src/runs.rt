// The event byte of each place of a file, in runs.
ghost use Rattle.std.specs.Prelude.{◌≡◌, ◌+◌, ◌-◌, ◌≤◌, ◌<◌, ◌^◌, ◌++◌, ◌∷◌, [], ℕ, IfOk, OnOk, OnErr, drop, length, option_to_list, take, vec_len, vec_capacity};
ghost use Rattle.std.specs.List.{insert};
ghost use Rattle.std.specs.List.Sorted.{IsNonDecreasingBy};
ghost use Rattle.parts_model.specs.Tagged.{origins_of};
ghost use Rattle.guest_files.specs.Runs.{AreRuns, count_before, count_until, first_bytes, from_place, is_of_write, left_behind, next_start, origins_between, with_run, HaveBetween};

use arn_base::{NoMemory, Origin, Origins};
use std::alloc::Global;
use std::marker::Model;

/// Places side by side that hold bytes of one write: those from `start` on, until the next run or
/// the end. The first byte of the write was written at `base`.
#[derive(Clone, Copy)]
pub struct Run {
    pub start: u32,
    pub base: u32,
    pub event: u64,
}

impl Run {
    fn new(event: u64, at: u32) -> Run
        ensures { result ≡ record { start = at; base = at; event = event } }
    {
        Run {
            start: at,
            base: at,
            event,
        }
    }

    // The run from a further place on.
    fn from_place(self, place: u32) -> Run
        ensures { result ≡ from_place self place }
    {
        Run {
            start: place,
            ..self
        }
    }

    // Whether both are of what one event wrote at once.
    fn is_of_write(self, other: Run) -> bool
        ensures { result ≡ is_of_write self other }
    {
        self.event == other.event && self.base == other.base
    }

    // Its bytes from a place up to another.
    fn origin(self, place: u32, end: u32) -> Origin
        requires written { self.base ≤ place }
        requires order { place ≤ end }
        ensures { result ≡ record {
          event = self.event;
          at = place - self.base;
          len = end - place;
        } }
    {
        Origin {
            event: self.event,
            at: place - self.base,
            len: end - place,
        }
    }
}

// How many runs begin before a place.
fn count_before(runs: &[Run], place: u32) -> usize
    requires { IsNonDecreasingBy (λ r. r.start) runs.now }
    ensures count { result ≡ count_before place runs.now }
    ensures few { result ≤ length runs.now }
{
    runs.partition_point(|run| run.start < place)
}

// How many runs begin up to a place.
fn count_until(runs: &[Run], place: u32) -> usize
    requires { IsNonDecreasingBy (λ r. r.start) runs.now }
    ensures count { result ≡ count_until place runs.now }
    ensures few { result ≤ length runs.now }
{
    runs.partition_point(|run| run.start <= place)
}

// Where the run of this number begins, or the end.
fn next_start(runs: &[Run], number: usize, end: u32) -> u32
    ensures { result ≡ next_start (drop number runs.now) end }
{
    match runs.get(number) {
        Some(run) => run.start,
        None => end,
    }
}

// What is left behind a new run that ends in a place, of the run that the place is in.
fn left_behind(runs: &[Run], new: Run, place: u32, end: u32) -> Option<Run>
    requires { AreRuns 0 runs.now end }
    ensures { result ≡ left_behind runs.now new place end }
{
    if place >= end {
        return None;
    }
    let run = runs[count_until(runs, place) - 1];
    if new.is_of_write(run) {
        None
    } else {
        Some(run.from_place(place))
    }
}

// Puts a run before those from a number on, where there is room for it.
fn put(runs: &mut Vec<Run>, number: usize, run: Run)
    requires within { number ≤ length runs.old.items }
    requires room { vec_len runs.old < vec_capacity runs.old }
    ensures put { runs.new.items ≡ insert runs.old.items number run }
    ensures len { vec_len runs.new ≡ vec_len runs.old + 1 }
    ensures capacity { vec_capacity runs.old ≤ vec_capacity runs.new }
{
    match runs.insert(number, run) {
        Ok(()) => {}
        Err(_) => unreachable!(),
    }
}

// Puts a run and what is left behind it in place of those from a number up to another.
fn replace(runs: &mut Vec<Run>, first: usize, last: usize, new: Run, left: Option<Run>)
    requires order { first ≤ last }
    requires within { last ≤ length runs.old.items }
    requires room { vec_len runs.old + 2 ≤ vec_capacity runs.old }
    ensures { runs.new.items ≡ take first runs.old.items ++
        new ∷ (option_to_list left ++ drop last runs.old.items) }
{
    let _ = runs.drain(first..last);
    if let Some(run) = left {
        put(runs, first, run);
    }
    put(runs, first, new);
}

// Lays a new run that ends in a place over the others.
fn lay(runs: &mut Vec<Run>, new: Run, place: u32, end: u32) -> Result<(), NoMemory>
    requires runs { AreRuns 0 runs.old.items end }
    requires order { new.start < place }
    ensures laid { OnOk result (runs.new.items ≡ with_run runs.old.items new place end) }
    ensures err { OnErr result (runs.new.items ≡ runs.old.items) }
{
    runs.reserve(2)?;
    let left = left_behind(runs.as_slice(), new, place, end);
    let first = count_before(runs.as_slice(), new.start);
    let last = count_until(runs.as_slice(), place);
    replace(runs, first, last, new, left);
    Ok(())
}

// The bytes of runs from a place up to another, as origins. The first of them is in the run of this
// number.
fn origins_between(runs: &Vec<Run>, first: usize, place: u32, end: u32) -> Result<Origins, NoMemory>
    requires there { HaveBetween (drop first runs.now.items) place end }
    ensures origins { IfOk result (λ origins. origins ≡
        origins_between (drop first runs.now.items) place end) }
    ensures few { IfOk result (λ origins. length origins ≤ end - place) }
{
    let mut origins = Origins::new(*runs.allocator());
    let mut at = place;
    for number in first..runs.len() {
        if at >= end {
            break;
        }
        let next = next_start(runs.as_slice(), number + 1, end).min(end);
        origins.push(runs[number].origin(at, next))?;
        at = next;
    }
    Ok(origins)
}

/// The event byte of each place of a file.
#[derive(Drop)]
pub struct Runs {
    all: Vec<Run>,
    len: u32,
}

impl Model for Runs {
    ghost use Rattle.std.specs.Prelude.{List};
    ghost use Rattle.arn_base.specs.declared.records.Src.{Src};
    ghost use Rattle.guest_files.specs.Runs.{AreRuns, source_at, sources_from};

    ghost Value = { List Src };

    ghost view = { λ runs. sources_from (source_at runs.all.items) 0 runs.len };

    ghost invariant = { λ runs. AreRuns 0 runs.all.items runs.len };
}

impl Runs {
    pub fn new(alloc: Global) -> Runs
        ensures { result ≡ [] }
    {
        Runs {
            all: Vec::new(alloc),
            len: 0,
        }
    }

    /// Has the first bytes of an event, so many, from a place on.
    pub fn lay(&mut self, place: u32, count: u32, event: u64) -> Result<(), NoMemory>
        requires within { place ≤ length self.old }
        requires few { place + count < 2 ^ 32 }
        ensures laid { OnOk result (self.new ≡
            take place self.old ++ first_bytes event count ++ drop (place + count) self.old) }
        ensures err { OnErr result (self.new ≡ self.old) }
    {
        if count == 0 {
            return Ok(());
        }
        let end = place + count;
        lay(&mut self.all, Run::new(event, place), end, self.len)?;
        self.len = self.len.max(end);
        Ok(())
    }

    /// The event bytes from a place up to another, as the longest runs.
    pub fn origins(&self, place: u32, end: u32) -> Result<Origins, NoMemory>
        requires order { place ≤ end }
        requires within { end ≤ length self.now }
        ensures origins { IfOk result (λ origins. origins ≡
            origins_of (take (end - place) (drop place self.now))) }
        ensures few { IfOk result (λ origins. length origins ≤ end - place) }
    {
        let first = count_until(self.all.as_slice(), place).saturating_sub(1);
        origins_between(&self.all, first, place, end)
    }
}
