// Who lives at a moment.
use crate::fixtures::{LOOP, forked};
use crate::same::assert_same;
use arn_base::{Numbers, Record};
use history_index::{Index, IndexError, are_countable};
use state_viewer::{VersionError, processes};
use std::process::Abort;
use std::test::Fail;

// Who lives at a moment, by records that 32 bits count.
fn living(
    rt: &impl Abort,
    entries: &Vec<Record>,
    moment: u64,
) -> Result<Result<Numbers, VersionError>, IndexError> {
    let alloc = *entries.allocator();
    let entries = entries.as_slice();
    assert!(rt; are_countable(entries));
    let index = Index::build(alloc, entries)?;
    Ok(processes(alloc, entries, &index, moment))
}

// Process 1 runs four instructions, and then forks process 2, which starts a group.
#[test]
fn a_child_begins_behind_its_fork(rt: HostRuntime) -> Result<(), Fail> {
    let entries = forked(rt.alloc(), LOOP, 4)?;
    let before = living(&rt, &entries, 3)??;
    assert_same(&rt, before.as_slice(), [1].as_slice());
    let behind = living(&rt, &entries, 4)??;
    assert_same(&rt, behind.as_slice(), [1, 2].as_slice());
    let later = living(&rt, &entries, 5)?;
    assert_same(&rt, later.err(), Some(VersionError::NoMoment));
    Ok(())
}
