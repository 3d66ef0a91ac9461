// Who lives at a moment.
ghost use Rattle.std.specs.Prelude.{◌≡◌, ◌+◌, ◌-◌, ◌<◌, ◌≤◌, ◌^◌, ℕ, false, filter, get_or, length, max, slice_set, IfOk};
ghost use Rattle.std.specs.List.{range_with_len};
ghost use Rattle.acts_model.specs.Records.{life_told, lives_after};
ghost use Rattle.history_index.specs.Indexes.{AreCountable, Indexes};
ghost use Rattle.history_model.specs.Broken as broken;
ghost use Rattle.history_model.specs.Moments.{lives_at};
ghost use Rattle.past_lives.specs.Members as members;

use crate::events::happened;
use crate::lives::{Life, told_by};
use acts_model::child_told;
use arn_base::{NoMemory, Numbers, Record};
use history_index::Index;
use std::alloc::Global;

// The greatest number of a process, with one record more.
fn greatest_after(entry: &Record, before: u64) -> u64
    ensures { result ≡ broken.greatest_after entry.now before }
{
    match entry {
        Record::Boot { .. } if before < 1 => 1,
        _ => match child_told(entry) {
            Some(child) if before < child.number => child.number,
            _ => before,
        },
    }
}

// The greatest number of a process.
fn greatest(entries: &[Record]) -> u64
    ensures { result ≡ broken.greatest entries.now }
{
    let mut greatest = 0;
    for entry in entries {
        greatest = greatest_after(entry, greatest);
    }
    greatest
}

// Sets the flag of a process that begins, or unsets that of one that ends.
fn tell(flags: &mut Vec<bool>, life: Life)
    ensures { flags.new.items ≡ slice_set flags.old.items life.pid life.lives }
{
    if (life.pid as usize) < flags.len() {
        flags[life.pid as usize] = life.lives;
    }
}

// Whether each process lives at a moment, by number.
fn flags(
    alloc: Global,
    entries: &[Record],
    index: &Index,
    moment: u64,
) -> Result<Vec<bool>, NoMemory>
    requires countable { AreCountable entries.now }
    requires indexed { Indexes index.now entries.now }
    ensures len { IfOk result (λ flags. length flags.items ≡ broken.greatest entries.now + 1) }
    ensures few { IfOk result (λ flags. length flags.items ≤ 2 ^ 32) }
    ensures lives { (pid : ℕ) → pid ≤ broken.greatest entries.now →
        IfOk result (λ flags. get_or flags.items pid false ≡ lives_at entries.now moment pid) }
{
    let mut flags = vec![in alloc; false; greatest(entries) as usize + 1]?;
    for event in 0..index.events() {
        if let Some(entry) = happened(entries, index, moment, event) {
            if let Some(life) = told_by(entry) {
                tell(&mut flags, life);
            }
        }
    }
    Ok(flags)
}

// The numbers of the flags that are set, but the first.
fn set_in(alloc: Global, flags: &[bool]) -> Result<Numbers, NoMemory>
    requires some { 0 < length flags.now }
    requires few { length flags.now ≤ 2 ^ 32 }
    ensures { IfOk result (λ live. live ≡
        filter (λ pid. get_or flags.now pid false) (range_with_len 1 (length flags.now - 1))) }
{
    let mut live = Numbers::new(alloc);
    for pid in 1..flags.len() {
        if flags[pid] {
            live.push(pid as u32)?;
        }
    }
    Ok(live)
}

/// The processes that live at a moment, in order of number.
pub fn live_at(
    alloc: Global,
    entries: &[Record],
    index: &Index,
    moment: u64,
) -> Result<Numbers, NoMemory>
    requires countable { AreCountable entries.now }
    requires indexed { Indexes index.now entries.now }
    ensures { IfOk result (λ live. live ≡ members.live_at entries.now moment) }
{
    let flags = flags(alloc, entries, index, moment)?;
    set_in(alloc, flags.as_slice())
}
