use crate::same::assert_same;
use arn_base::NoMemory;
use set_store::{Item, Sets};
use std::process::Abort;

const FIRST: Item = Item { event: 1, at: 0 };

const SECOND: Item = Item { event: 2, at: 5 };

const THIRD: Item = Item { event: 4, at: 70 };

// Whether these are the members of a set.
fn has(sets: &Sets, set: usize, wanted: &[Item]) -> Result<bool, NoMemory> {
    if set < sets.len() {
        let members = sets.members(set)?;
        return Ok(members.as_slice() == wanted);
    }
    Ok(false)
}

// Whether one item is in a set.
fn contains(sets: &Sets, set: usize, item: Item) -> bool {
    set < sets.len() && sets.contains(set, item)
}

fn single(sets: &mut Sets, item: Item) -> Result<usize, NoMemory> {
    sets.single(item)
}

fn union(rt: &impl Abort, sets: &mut Sets, a: usize, b: usize) -> Result<usize, NoMemory> {
    assert!(rt; a < sets.len() && b < sets.len());
    sets.union(a, b)
}

// Two pairs in turn: a memo of one has dropped each of them before it is asked again.
fn ask_unions(
    rt: &impl Abort,
    sets: &mut Sets,
    [empty, a, b, both]: [usize; 4],
) -> Result<(), NoMemory> {
    for (first, second, wanted) in [
        (a, both, both),
        (a, b, both),
        (a, both, both),
        (a, b, both),
        (a, a, a),
        (a, empty, a),
        (empty, b, b),
    ] {
        let found = union(rt, sets, first, second)?;
        assert_same(rt, (first, second, found), (first, second, wanted));
    }
    Ok(())
}

// What is asked of sets, whatever is remembered.
fn ask(rt: &impl Abort, sets: &mut Sets) -> Result<(), NoMemory> {
    let empty = sets.empty();
    let a = single(sets, FIRST)?;
    let b = single(sets, SECOND)?;
    let both = union(rt, sets, b, a)?;
    assert!(rt; has(sets, both, &[FIRST, SECOND])?);
    assert!(rt; contains(sets, both, SECOND) && !contains(sets, a, SECOND));
    ask_unions(rt, sets, [empty, a, b, both])?;
    assert!(rt; single(sets, FIRST)? == a);
    assert!(rt; has(sets, empty, &[])?);
    assert!(rt; has(sets, both, &[FIRST, SECOND])?);
    // The empty set, two of one member, and their union.
    assert!(rt; sets.len() == 4);
    Ok(())
}

fn check(rt: &(impl Abort + AllocGlobal), memo: u32) -> Result<(), NoMemory> {
    let mut sets = Sets::new(rt.alloc(), memo)?;
    ask(rt, &mut sets)
}

// Carries a set over, and looks how many sets there are then.
fn carry(
    rt: &(impl Abort + AllocGlobal),
    from: &Sets,
    into: &mut Sets,
    set: usize,
    wanted: &[Item],
    len: usize,
) -> Result<(), NoMemory> {
    let mut noted = vec![in rt.alloc(); 0; from.len()]?;
    let numbers = noted.as_mut_slice();
    let number = into.carry(from, numbers, set)?;
    assert!(rt; has(into, number, wanted)?);
    assert!(rt; into.len() == len);
    let again = into.carry(from, numbers, set)?;
    assert_same(rt, (set, again), (set, number));
    Ok(())
}

#[test]
fn what_is_named_is_carried_over(rt: HostRuntime) -> Result<(), NoMemory> {
    let mut from = Sets::new(rt.alloc(), 1)?;
    let a = single(&mut from, FIRST)?;
    let c = single(&mut from, THIRD)?;
    let b = single(&mut from, SECOND)?;
    let both = union(&rt, &mut from, a, b)?;
    let all = union(&rt, &mut from, both, c)?;
    let mut into = Sets::new(rt.alloc(), 1)?;
    // The empty set is there, and one that isn't there is empty.
    carry(&rt, &from, &mut into, 0, &[], 1)?;
    carry(&rt, &from, &mut into, from.len(), &[], 1)?;
    // Both of its members are, and nothing else.
    carry(&rt, &from, &mut into, both, &[FIRST, SECOND], 4)?;
    carry(&rt, &from, &mut into, b, &[SECOND], 4)?;
    carry(&rt, &from, &mut into, all, &[FIRST, SECOND, THIRD], 6)
}

#[test]
fn equal_sets_have_equal_numbers(rt: HostRuntime) -> Result<(), NoMemory> {
    check(&rt, 0)?;
    check(&rt, 1)?;
    check(&rt, 65_536)
}
