use crate::same::{assert_gives, assert_same, origin};
use arn_base::Give;
use guest_pipes::{PipeError, Pipes, Side};
use std::process::Abort;
use std::test::Fail;

fn make(rt: &impl Abort, pipes: &mut Pipes) -> Result<u32, PipeError> {
    assert!(rt; pipes.count_made() < 1_000);
    pipes.make()
}

fn put(rt: &impl Abort, pipes: &mut Pipes, bytes: &[u8], event: u64) -> Result<u32, PipeError> {
    assert!(rt; pipes.is_there(0));
    pipes.put(0, bytes, event)
}

fn take(rt: &impl Abort, pipes: &mut Pipes, max: u32) -> Result<Give, PipeError> {
    assert!(rt; pipes.is_there(0));
    pipes.take(0, max)
}

fn can_put(rt: &impl Abort, pipes: &Pipes) -> bool {
    assert!(rt; pipes.is_there(0));
    pipes.can_put(0)
}

fn can_take(rt: &impl Abort, pipes: &Pipes) -> bool {
    assert!(rt; pipes.is_there(0));
    pipes.can_take(0)
}

#[test]
fn a_full_pipe_takes_no_byte(rt: HostRuntime) -> Result<(), Fail> {
    let mut pipes = Pipes::new(rt.alloc());
    assert_same(&rt, make(&rt, &mut pipes), Ok(0));
    let mut most = vec![in rt.alloc(); 7u8; 4_096]?;
    most[0] = 1;
    assert_same(&rt, put(&rt, &mut pipes, &most, 2), Ok(4_096));
    assert!(rt; !can_put(&rt, &pipes));
    assert_same(
        &rt,
        put(&rt, &mut pipes, b"abcde", 3),
        Err(PipeError::NotReady),
    );
    assert_same(&rt, put(&rt, &mut pipes, b"", 3), Ok(0));
    let give = take(&rt, &mut pipes, 1)?;
    assert_same(&rt, give.bytes.as_slice(), [1].as_slice());
    assert_same(&rt, put(&rt, &mut pipes, b"abcde", 4), Ok(1));
    pipes.close_end(0, Side::Reader);
    assert!(rt; can_put(&rt, &pipes));
    assert_same(&rt, put(&rt, &mut pipes, b"a", 5), Err(PipeError::Broken));
    Ok(())
}

#[test]
fn there_are_at_most_64_pipes(rt: HostRuntime) {
    let mut pipes = Pipes::new(rt.alloc());
    for made in 0..64 {
        assert_same(&rt, make(&rt, &mut pipes), Ok(made));
    }
    assert_same(&rt, pipes.free(), 0);
    assert_same(&rt, make(&rt, &mut pipes), Err(PipeError::TooMany));
    pipes.close_end(5, Side::Reader);
    assert_same(&rt, pipes.free(), 0);
    pipes.close_end(5, Side::Writer);
    assert!(rt; !pipes.is_there(5));
    assert_same(&rt, make(&rt, &mut pipes), Ok(64));
    pipes.remove_last();
    assert_same(&rt, pipes.free(), 1);
    assert_same(&rt, make(&rt, &mut pipes), Ok(64));
}

#[test]
fn two_writers_are_two_origins(rt: HostRuntime) -> Result<(), Fail> {
    let mut pipes = Pipes::new(rt.alloc());
    assert_same(&rt, make(&rt, &mut pipes), Ok(0));
    assert_same(&rt, put(&rt, &mut pipes, b"ab", 7), Ok(2));
    assert_same(&rt, put(&rt, &mut pipes, b"c", 9), Ok(1));
    let first = take(&rt, &mut pipes, 65_536)?;
    assert_gives(&rt, &first, b"abc", &[origin(7, 0, 2), origin(9, 0, 1)]);
    assert_same(&rt, put(&rt, &mut pipes, b"d", 7), Ok(1));
    let second = take(&rt, &mut pipes, 65_536)?;
    assert_gives(&rt, &second, b"d", &[origin(7, 0, 1)]);
    Ok(())
}

#[test]
fn an_empty_pipe_waits_for_its_writer(rt: HostRuntime) -> Result<(), Fail> {
    let mut pipes = Pipes::new(rt.alloc());
    assert_same(&rt, make(&rt, &mut pipes), Ok(0));
    assert!(rt; !can_take(&rt, &pipes));
    assert_same(
        &rt,
        take(&rt, &mut pipes, 1).err(),
        Some(PipeError::NotReady),
    );
    pipes.close_end(0, Side::Writer);
    assert!(rt; can_take(&rt, &pipes));
    let give = take(&rt, &mut pipes, 1)?;
    assert_gives(&rt, &give, &[], &[]);
    Ok(())
}
