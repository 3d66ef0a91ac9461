use crate::same::assert_same;
use guest_procs::{Ended, ProcError, Procs};
use std::test::Fail;

#[test]
fn there_are_at_most_64_processes(rt: HostRuntime) -> Result<(), Fail> {
    let mut procs = Procs::new(rt.alloc());
    for made in 0..64 {
        let pid = procs.boot()?;
        assert_same(&rt, pid, made + 1);
    }
    assert_same(&rt, procs.live().len(), 64);
    assert_same(&rt, procs.boot(), Err(ProcError::TooMany));
    Ok(())
}

#[test]
fn there_are_at_most_16_descriptors(rt: HostRuntime) -> Result<(), Fail> {
    let mut procs = Procs::new(rt.alloc());
    procs.boot()?;
    for count in 0..16 {
        let number = procs.place(1, 7)?;
        assert_same(&rt, number, count);
    }
    assert_same(&rt, procs.free(1), 0);
    assert_same(&rt, procs.place(1, 7), Err(ProcError::TooMany));
    Ok(())
}

#[test]
fn a_descriptor_is_opened_and_closed(rt: HostRuntime) -> Result<(), Fail> {
    let mut procs = Procs::new(rt.alloc());
    procs.boot()?;
    assert_same(&rt, procs.place(1, 7), Ok(0));
    assert_same(&rt, procs.descriptor(1, 0), Some(7));
    assert_same(&rt, procs.free(1), 15);
    assert_same(&rt, procs.lift(1, 0), Some(7));
    assert_same(&rt, procs.lift(1, 0), None);
    assert_same(&rt, procs.descriptor(1, 16), None);
    Ok(())
}

// Here the comparisons also tell which processes there are, as `fork` and `boot` require.
#[test]
fn a_child_is_waited_for(rt: HostRuntime) -> Result<(), Fail> {
    let mut procs = Procs::new(rt.alloc());
    assert_eq!(rt; procs.boot(), Ok(1));
    assert_eq!(rt; procs.reap(1), Err(ProcError::NoChild));
    assert_eq!(rt; procs.fork(1), Ok(2));
    assert_eq!(rt; procs.fork(1), Ok(3));
    assert_eq!(rt; procs.reap(1), Err(ProcError::NotReady));
    assert_eq!(rt; procs.end(3, 5, 9), Ok(()));
    assert_eq!(rt; procs.end(3, 5, 9), Err(ProcError::NoProcess));
    assert_eq!(rt; procs.live(), [1, 2].as_slice());
    let ended = Ended {
        pid: 3,
        status: 5,
        event: 9,
    };
    assert_eq!(rt; procs.next_ended(1), Ok(ended));
    assert_eq!(rt; procs.reap(1), Ok(ended));
    assert_eq!(rt; procs.reap(1), Err(ProcError::NotReady));
    assert_eq!(rt; procs.boot(), Ok(4));
    Ok(())
}
