use crate::same::assert_same;
use numbered::Numbered;
use std::test::Fail;

#[test]
fn values_stand_under_their_numbers(rt: HostRuntime) -> Result<(), Fail> {
    let mut values = Numbered::new(rt.alloc());
    let first = values.add(7u32)?;
    let second = values.add(8)?;
    assert_same(&rt, first, 0);
    assert_same(&rt, second, 1);
    values.make_room(3)?;
    values.put(3, 9);
    assert_same(&rt, values.len(), 4);
    assert_same(&rt, values.get(1).copied(), Some(8));
    assert_same(&rt, values.get(2).copied(), None);
    assert_same(&rt, values.get(4).copied(), None);
    assert_same(&rt, values.take(0), Some(7));
    assert_same(&rt, values.has(0), false);
    assert_same(&rt, values.free(), 0);
    assert_same(&rt, values.add(10)?, 0);
    assert_same(&rt, values.add(11)?, 2);
    values.remove(3);
    assert_same(&rt, values.free_room()?, 3);
    values.make_room(5)?;
    assert_same(&rt, values.len(), 6);
    values.put(5, 12);
    assert_same(&rt, values.get(5).copied(), Some(12));
    Ok(())
}
