use crate::same::assert_same;
use replay_groups::Groups;
use std::test::Fail;

#[test]
fn groups_have_their_members(rt: HostRuntime) -> Result<(), Fail> {
    let mut groups = Groups::new(rt.alloc());
    groups.reserve(1)?;
    groups.start(1)?;
    groups.start(2)?;
    groups.join(3, 1)?;
    groups.reserve(2)?;
    groups.join(4, 2)?;
    groups.start(5)?;
    assert_same(&rt, groups.of(1), Some(1));
    assert_same(&rt, groups.of(3), Some(1));
    assert_same(&rt, groups.of(5), Some(5));
    assert_same(&rt, groups.of(0), None);
    assert_same(&rt, groups.of(6), None);
    assert_same(&rt, groups.members(1), [1, 3].as_slice());
    assert_same(&rt, groups.members(2), [2, 4].as_slice());
    assert_same(&rt, groups.members(5), [5].as_slice());
    assert_same(&rt, groups.members(3).len(), 0);
    Ok(())
}
