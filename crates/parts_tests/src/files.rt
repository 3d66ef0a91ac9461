use crate::same::{assert_gives, assert_same, origin};
use arn_base::{Give, Origin};
use guest_files::{FileError, Files};
use std::alloc::Global;
use std::process::Abort;
use std::test::Fail;

/// Writes to the file of this name, which has at least `at` bytes.
fn write(
    rt: &impl Abort,
    files: &mut Files,
    at: u32,
    bytes: &[u8],
    event: u64,
) -> Result<u32, FileError> {
    let Some(file) = files.find(b"f") else {
        panic!(rt; "no file");
    };
    assert!(rt; at <= files.length(file));
    files.write_at(file, at, bytes, event)
}

fn read(rt: &impl Abort, files: &Files, at: u32, max: u32) -> Result<Give, Fail> {
    let Some(file) = files.find(b"f") else {
        panic!(rt; "no file");
    };
    assert!(rt; at <= files.length(file));
    Ok(files.read_at(file, at, max)?)
}

#[test]
fn a_name_is_given_once(rt: HostRuntime) {
    let mut files = Files::new(rt.alloc());
    assert_same(&rt, files.create(b"f"), Ok(0));
    assert_same(&rt, files.create(b"f"), Err(FileError::Exists));
}

#[test]
fn a_number_is_given_once(rt: HostRuntime) {
    let mut files = Files::new(rt.alloc());
    assert_same(&rt, files.create(b"f"), Ok(0));
    assert_same(&rt, files.unlink(b"g"), Err(FileError::NoFile));
    assert_same(&rt, files.unlink(b"f"), Ok(0));
    assert_same(&rt, files.find(b"f"), None);
    assert_same(&rt, files.create(b"f"), Ok(1));
}

#[test]
fn a_full_file_takes_no_byte(rt: HostRuntime) -> Result<(), Fail> {
    let mut files = Files::new(rt.alloc());
    assert_same(&rt, files.create(b"f"), Ok(0));
    let most = vec![in rt.alloc(); 0u8; 1_048_575]?;
    assert_same(&rt, write(&rt, &mut files, 0, &most, 2), Ok(1_048_575));
    assert_same(&rt, write(&rt, &mut files, 1_048_575, b"ab", 3), Ok(1));
    assert_same(&rt, write(&rt, &mut files, 1_048_576, b"", 4), Ok(0));
    assert_same(
        &rt,
        write(&rt, &mut files, 1_048_576, b"c", 5),
        Err(FileError::TooLong),
    );
    Ok(())
}

#[test]
fn the_last_write_is_the_origin(rt: HostRuntime) -> Result<(), Fail> {
    let mut files = Files::new(rt.alloc());
    assert_same(&rt, files.create_with(b"f", b"abcd", 3), Ok(0));
    assert_same(&rt, write(&rt, &mut files, 1, b"xy", 5), Ok(2));
    let whole = read(&rt, &files, 0, 9)?;
    let origins = [origin(3, 0, 1), origin(5, 0, 2), origin(3, 3, 1)];
    assert_gives(&rt, &whole, b"axyd", &origins);
    let end = read(&rt, &files, 2, 2)?;
    assert_gives(&rt, &end, b"yd", &[origin(5, 1, 1), origin(3, 3, 1)]);
    Ok(())
}

/// Bytes that an event writes at a place.
#[derive(Clone, Copy)]
struct Writing<'a> {
    at: u32,
    bytes: &'a [u8],
    event: u64,
}

fn at<'a>(at: u32, bytes: &'a [u8], event: u64) -> Writing<'a> {
    Writing { at, bytes, event }
}

/// A file of the bytes "abcdefgh" of event 3 has these bytes and origins after these writes.
fn assert_written(
    rt: &impl Abort,
    alloc: Global,
    writes: &[Writing],
    bytes: &[u8],
    origins: &[Origin],
) -> Result<(), Fail> {
    let mut files = Files::new(alloc);
    assert_same(rt, files.create_with(b"f", b"abcdefgh", 3), Ok(0));
    for w in writes {
        assert!(rt; write(rt, &mut files, w.at, w.bytes, w.event).is_ok());
    }
    let whole = read(rt, &files, 0, 99)?;
    assert_gives(rt, &whole, bytes, origins);
    Ok(())
}

#[test]
fn writes_lie_over_each_other(rt: HostRuntime) -> Result<(), Fail> {
    let alloc = rt.alloc();
    // In the middle, over two runs and parts of two others.
    let over = [at(2, b"XY", 5), at(5, b"Z", 6), at(1, b"pqrst", 7)];
    let origins = [origin(3, 0, 1), origin(7, 0, 5), origin(3, 6, 2)];
    assert_written(&rt, alloc, &over, b"apqrstgh", &origins)?;
    // Over a whole run, from the start, and up to the end.
    let whole = [
        at(2, b"XY", 5),
        at(2, b"ZW", 6),
        at(0, b"p", 7),
        at(7, b"q", 8),
    ];
    let origins = [
        origin(7, 0, 1),
        origin(3, 1, 1),
        origin(6, 0, 2),
        origin(3, 4, 3),
        origin(8, 0, 1),
    ];
    assert_written(&rt, alloc, &whole, b"pbZWefgq", &origins)
}

#[test]
fn a_file_grows_at_its_end(rt: HostRuntime) -> Result<(), Fail> {
    let alloc = rt.alloc();
    let behind = [at(8, b"ij", 5), at(10, b"k", 6)];
    let origins = [origin(3, 0, 8), origin(5, 0, 2), origin(6, 0, 1)];
    assert_written(&rt, alloc, &behind, b"abcdefghijk", &origins)?;
    let over = [at(6, b"XYZ", 5)];
    let origins = [origin(3, 0, 6), origin(5, 0, 3)];
    assert_written(&rt, alloc, &over, b"abcdefXYZ", &origins)?;
    // No bytes change nothing.
    assert_written(
        &rt,
        alloc,
        &[at(8, b"", 5)],
        b"abcdefgh",
        &[origin(3, 0, 8)],
    )
}

#[test]
fn an_event_goes_on_with_itself(rt: HostRuntime) -> Result<(), Fail> {
    let alloc = rt.alloc();
    // Its first two bytes once more, where they were, are one run with the rest.
    assert_written(
        &rt,
        alloc,
        &[at(0, b"XY", 3)],
        b"XYcdefgh",
        &[origin(3, 0, 8)],
    )?;
    // In another place they are not.
    let origins = [origin(3, 0, 2), origin(3, 0, 2), origin(3, 4, 4)];
    assert_written(&rt, alloc, &[at(2, b"XY", 3)], b"abXYefgh", &origins)
}
