// Sets with received bytes besides: what they have, and what becomes of them where sets are carried over.
ghost use Rattle.std.specs.Prelude.{◌<◌, IfOk};
ghost use Rattle.taint_spans.specs.Numbered.{IsSet, StandAsBefore, first_received};

use arn_base::NoMemory;
use set_store::Item;
use std::alloc::Global;
use std::process::Abort;
use taint_spans::{Carrying, SpanSets};

const FIRST: Item = Item { event: 3, at: 10 };

const SECOND: Item = Item { event: 3, at: 11 };

const THIRD: Item = Item { event: 3, at: 20 };

// The number of a byte that is received by itself.
fn received(sets: &mut SpanSets, item: Item) -> Result<u32, NoMemory>
    requires { item.at < 2_000 }
    ensures set { IfOk result (IsSet sets.new) }
    ensures before { StandAsBefore sets.old sets.new }
{
    sets.receive(item.event, item.at, 1)
}

// Whether a set has these members and no other.
fn has(sets: &SpanSets, set: u32, wanted: &[Item]) -> Result<bool, NoMemory> {
    let found = sets.members(set)?;
    Ok(found.len() == wanted.len() && wanted.iter().all(|item| found.as_slice().contains(item)))
}

// A set of two bytes in a row, and one with a byte besides that isn't in the row.
fn two_and_three(sets: &mut SpanSets) -> Result<(u32, u32), NoMemory> {
    let first = received(sets, FIRST)?;
    let second = received(sets, SECOND)?;
    let third = received(sets, THIRD)?;
    let two = sets.unite(first, second)?;
    Ok((two, sets.unite(third, two)?))
}

// The two sets have these bytes.
fn assert_both(rt: &impl Abort, sets: &SpanSets, two: u32, three: u32) -> Result<(), NoMemory> {
    assert!(rt; has(sets, two, &[FIRST, SECOND])?);
    assert!(rt; has(sets, three, &[FIRST, SECOND, THIRD])?);
    Ok(())
}

// Carries sets over, and puts in the place of each number the one that it has from then on.
fn carried(alloc: Global, sets: SpanSets, numbers: &mut [u32]) -> Result<SpanSets, NoMemory> {
    let mut carrying = Carrying::new(alloc, sets, 1)?;
    carrying.carry_all(numbers)?;
    Ok(carrying.done())
}

fn carry_both(rt: &(impl Abort + AllocGlobal)) -> Result<(), NoMemory> {
    let mut sets = SpanSets::new(rt.alloc(), 1)?;
    let (two, three) = two_and_three(&mut sets)?;
    assert_both(rt, &sets, two, three)?;
    let mut numbers = [two, three];
    let sets = carried(rt.alloc(), sets, &mut numbers)?;
    assert_both(rt, &sets, numbers[0], numbers[1])
}

#[test]
fn what_is_named_of_spans_is_carried_over(rt: HostRuntime) -> Result<(), NoMemory> {
    carry_both(&rt)
}
