use crate::same::assert_same;
use arn_base::{BadAddress, Blocks, Memory, StoreError};
use guest_mem::{Segment, SharedView, Space, Spare, View};
use std::process::Abort;
use std::test::Fail;

#[test]
fn a_store_lies_whole_in_the_window(rt: HostRuntime) -> Result<(), Fail> {
    let mut space = Space::new(rt.alloc())?;
    assert_same(&rt, space.store(0x4_fff8, 8, 0x0807_0605_0403_0201), Ok(()));
    assert_same(
        &rt,
        space.store(0x4_fff9, 8, 0),
        Err(StoreError::BadAddress),
    );
    let mut read = [0; 8];
    space.read_into(0x4_fff8, &mut read)?;
    assert_same(&rt, read.as_slice(), [1, 2, 3, 4, 5, 6, 7, 8].as_slice());
    assert_same(&rt, space.load(0x4_fffa, 2), Ok(0x0403));
    assert_same(&rt, space.load(0x5_0000, 1), Err(BadAddress));
    Ok(())
}

// The number of the only block, and its first byte.
fn first_byte(rt: &impl Abort, blocks: &Blocks) -> (u16, u8) {
    let [block] = blocks.as_slice() else {
        panic!(rt; "not one block");
    };
    (block.number, block.bytes[0])
}

#[test]
fn a_copy_keeps_its_bytes(rt: HostRuntime) -> Result<(), Fail> {
    let mut space = Space::new(rt.alloc())?;
    space.write_from(0x1_0200, b"old")?;
    let copy = space.copy()?;
    space.write_from(0x1_0200, b"new")?;
    let mut read = [0; 3];
    copy.read_into(0x1_0200, &mut read)?;
    assert_same(&rt, read.as_slice(), b"old".as_slice());
    let blocks = copy.blocks()?;
    assert_same(&rt, first_byte(&rt, &blocks), (2, b'o'));
    Ok(())
}

// Which of the first three pages a space owns.
fn owned(space: &Space) -> [bool; 3] {
    [space.owns(0), space.owns(1), space.owns(2)]
}

#[test]
fn a_page_is_shared_until_it_is_written(rt: HostRuntime) -> Result<(), Fail> {
    let mut space = Space::new(rt.alloc())?;
    assert_same(&rt, owned(&space), [false, false, false]);
    space.write_from(0x1_0ffe, &[1, 2, 3, 4])?;
    assert_same(&rt, owned(&space), [true, true, false]);

    space.share()?;
    assert_same(&rt, owned(&space), [false, false, false]);
    let mut copy = space.copy()?;
    copy.write_from(0x1_0fff, &[9])?;
    assert_same(&rt, owned(&copy), [true, false, false]);

    let mut read = [0; 4];
    space.read_into(0x1_0ffe, &mut read)?;
    assert_same(&rt, read, [1, 2, 3, 4]);
    copy.read_into(0x1_0ffe, &mut read)?;
    assert_same(&rt, read, [1, 9, 3, 4]);
    assert_same(&rt, copy.own(0x4_ffff, 2), Err(StoreError::BadAddress));
    Ok(())
}

#[test]
fn a_page_that_is_owned_is_stored_to(rt: HostRuntime) -> Result<(), Fail> {
    let mut space = Space::new(rt.alloc())?;
    assert_same(&rt, space.own(0x1_1ff8, 16), Ok(()));
    assert_same(&rt, owned(&space), [false, true, true]);
    space.share()?;
    let copy = space.copy()?;
    assert_same(&rt, space.store(0x1_1ffc, 8, u64::MAX), Ok(()));
    assert_same(&rt, owned(&space), [false, true, true]);
    assert_same(&rt, space.load(0x1_1ffb, 8), Ok(0xffff_ffff_ffff_ff00));
    assert_same(&rt, copy.load(0x1_1ffb, 8), Ok(0));
    Ok(())
}

#[test]
fn memory_in_hand_serves_a_write(rt: HostRuntime) -> Result<(), Fail> {
    let mut space = Space::new(rt.alloc())?;
    let copy = space.copy()?;
    let bytes = [7; 4097];
    let spare = Spare::new(rt.alloc(), 4097)?;
    assert_same(&rt, space.write_with(0x1_0fff, &bytes, spare), Ok(()));
    assert_same(&rt, owned(&space), [true, true, false]);
    assert_same(&rt, space.load(0x1_0ffe, 2), Ok(0x0700));
    assert_same(&rt, space.load(0x1_1fff, 2), Ok(0x0007));
    assert_same(&rt, copy.load(0x1_0fff, 1), Ok(0));
    Ok(())
}

#[test]
fn a_view_writes_into_its_segment(rt: HostRuntime) -> Result<(), Fail> {
    let mut space = Space::new(rt.alloc())?;
    let mut segment = Segment::new(rt.alloc())?;
    let mut view = View::with_segment(&mut space, &mut segment);
    view.write_from(0x8000_0100, &[1])?;
    assert_same(&rt, view.store(0x8000_0101, 1, 2), Ok(()));
    assert_same(&rt, view.load(0x8000_0100, 2), Ok(0x0201));
    let blocks = segment.blocks()?;
    assert_same(&rt, first_byte(&rt, &blocks), (1, 1));
    assert_same(&rt, space.blocks()?.len(), 0);
    Ok(())
}

#[test]
fn a_shared_view_shows_both_windows(rt: HostRuntime) -> Result<(), Fail> {
    let mut space = Space::new(rt.alloc())?;
    let mut segment = Segment::new(rt.alloc())?;
    let mut view = SharedView {
        space: &mut space,
        segment: &mut segment,
    };
    assert_same(&rt, view.store(0x1_0000, 4, 7), Ok(()));
    assert_same(&rt, view.store(0x8000_fffc, 4, 9), Ok(()));
    assert_same(
        &rt,
        view.store(0x8000_fffd, 4, 0),
        Err(StoreError::BadAddress),
    );
    assert_same(&rt, view.load(0x1_0000, 4), Ok(7));
    assert_same(&rt, view.load(0x8000_fffc, 4), Ok(9));
    Ok(())
}
