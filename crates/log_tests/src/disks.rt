ghost use Rattle.std.specs.Prelude.{◌≡◌, ◌∷◌, [], IfOk};
ghost use Rattle.log_disk.specs.InMemory.{fresh};

use crate::same::assert_same;
use arn_base::{Bytes, Disk, Failed, NoMemory, Numbers, Stop};
use host_disk::{Attempt, FileDisk};
use log_disk::{FuseDisk, MemDisk};
use std::alloc::Global;
use std::fs;
use std::process::Abort;
use std::test::Fail;

fn bytes(alloc: Global, items: &[u8]) -> Result<Bytes, NoMemory>
    ensures { IfOk result (λ bytes. bytes ≡ items.now) }
{
    Bytes::from_slice(alloc, items)
}

fn numbers(alloc: Global, items: &[u32]) -> Result<Numbers, NoMemory> {
    let mut numbers = Numbers::new(alloc);
    for item in items {
        numbers.push(*item)?;
    }
    Ok(numbers)
}

fn four(alloc: Global) -> Result<MemDisk, NoMemory>
    ensures { IfOk result (λ disk. disk ≡ fresh (1 ∷ 2 ∷ 3 ∷ 4 ∷ [])) }
{
    Ok(MemDisk::new(alloc, bytes(alloc, &[1, 2, 3, 4])?))
}

/// What crashes leave: short and long, each with the bytes read and with ff.
fn assert_crashes(
    rt: &(impl Abort + AllocGlobal),
    disk: &MemDisk,
    short: &[u8],
    short_ff: &[u8],
    long: &[u8],
    long_ff: &[u8],
) -> Result<(), Fail> {
    for (fill, is_short, want) in [
        (None, true, short),
        (Some(0xff), true, short_ff),
        (None, false, long),
        (Some(0xff), false, long_ff),
    ] {
        let left = disk.crash_with(rt.alloc(), fill, is_short)?;
        assert_same(rt, left.as_slice(), want);
    }
    Ok(())
}

#[test]
fn a_write_may_leave_anything_in_its_range(rt: HostRuntime) -> Result<(), Fail> {
    let mut disk = four(rt.alloc())?;
    disk.write(1, &[8, 9])?;
    assert_same(&rt, disk.bytes(), [1, 8, 9, 4].as_slice());
    let torn = [1, 0xff, 0xff, 4];
    assert_crashes(&rt, &disk, &[1, 8, 9, 4], &torn, &[1, 8, 9, 4], &torn)
}

#[test]
fn a_growth_may_be_lost(rt: HostRuntime) -> Result<(), Fail> {
    let mut disk = four(rt.alloc())?;
    disk.write(3, &[5, 6])?;
    assert_same(&rt, disk.len(), Ok(5));
    assert_crashes(
        &rt,
        &disk,
        &[1, 2, 3, 5],
        &[1, 2, 3, 0xff],
        &[1, 2, 3, 5, 6],
        &[1, 2, 3, 0xff, 0xff],
    )
}

#[test]
fn a_cut_may_be_lost(rt: HostRuntime) -> Result<(), Fail> {
    let mut disk = four(rt.alloc())?;
    disk.cut(2)?;
    assert_same(&rt, disk.bytes(), [1, 2].as_slice());
    assert_crashes(
        &rt,
        &disk,
        &[1, 2],
        &[1, 2],
        &[1, 2, 0, 0],
        &[1, 2, 0xff, 0xff],
    )
}

#[test]
fn a_sync_keeps_what_is_read(rt: HostRuntime) -> Result<(), Fail> {
    let mut disk = four(rt.alloc())?;
    disk.write(4, &[5])?;
    disk.sync()?;
    let all = [1, 2, 3, 4, 5];
    assert_crashes(&rt, &disk, &all, &all, &all, &all)?;
    disk.write(0, &[7])?;
    disk.cut(9)?;
    let left = [7, 2, 3, 4, 5];
    let torn = [0xff, 2, 3, 4, 5];
    assert_crashes(&rt, &disk, &left, &torn, &left, &torn)?;
    assert_same(&rt, disk.bytes(), left.as_slice());
    let mut buf = [0; 2];
    assert_same(&rt, disk.read(3, &mut buf), Ok(()));
    assert_same(&rt, buf, [4, 5]);
    Ok(())
}

// Of two reads the first fails.
fn assert_reads(rt: &impl Abort, disk: &mut FuseDisk) {
    assert!(rt; disk.bytes().len() == 4);
    let mut buf = [0; 2];
    let reads = [disk.read(1, &mut buf), disk.read(1, &mut buf)];
    assert_same(rt, reads, [Err(Failed), Ok(())]);
    assert_same(rt, buf, [2, 3]);
}

// Of two writes the first fails and is half done, and of two syncs the first.
fn assert_writes(rt: &(impl Abort + AllocGlobal), disk: &mut FuseDisk) -> Result<(), Fail> {
    assert_same(rt, disk.write(0, &[8, 9]), Err(Stop::Failed));
    assert_same(rt, disk.bytes(), [8, 2, 3, 4].as_slice());
    assert!(rt; disk.bytes().len() == 4);
    assert_same(rt, disk.write(3, &[7]), Ok(()));
    assert_same(rt, disk.sync(), Err(Stop::Failed));
    let torn = disk.crash_with(rt.alloc(), Some(0xff), false)?;
    assert_same(rt, torn.as_slice(), [0xff, 0xff, 3, 0xff].as_slice());
    assert_same(rt, disk.sync(), Ok(()));
    Ok(())
}

// Of two cuts the first fails.
fn assert_cuts(rt: &(impl Abort + AllocGlobal), disk: &mut FuseDisk) -> Result<(), Fail> {
    assert_same(rt, disk.cut(1), Err(Stop::Failed));
    assert_same(rt, disk.bytes(), [8].as_slice());
    let short = disk.crash_with(rt.alloc(), Some(0xff), true)?;
    assert_same(rt, short.as_slice(), [8].as_slice());
    let long = disk.crash_with(rt.alloc(), Some(0xff), false)?;
    assert_same(rt, long.as_slice(), [8, 0xff, 0xff, 0xff].as_slice());
    assert_same(rt, disk.cut(0), Ok(()));
    Ok(())
}

#[test]
fn a_fuse_fails_the_calls_that_are_listed(rt: HostRuntime) -> Result<(), Fail> {
    let alloc = rt.alloc();
    let held = bytes(alloc, &[1, 2, 3, 4])?;
    let mut disk = FuseDisk::new(alloc, held, numbers(alloc, &[0, 2, 4, 6, 8])?);
    assert_fails(&rt, &mut disk)
}

fn assert_fails(rt: &(impl Abort + AllocGlobal), disk: &mut FuseDisk) -> Result<(), Fail> {
    assert_same(rt, [disk.len(), disk.len()], [Err(Failed), Ok(4)]);
    assert_reads(rt, disk);
    assert_writes(rt, disk)?;
    assert_cuts(rt, disk)?;
    assert_same(rt, disk.len(), Ok(0));
    Ok(())
}

/// What failed last.
fn failed(disk: &FileDisk<HostRuntime>) -> Option<Attempt> {
    match disk.failure() {
        Some(failure) => Some(failure.attempt),
        None => None,
    }
}

const FOLDER: &str = "log_disk_test";

#[test]
fn a_file_keeps_what_is_written(rt: HostRuntime) -> Result<(), Fail> {
    let _ = fs::remove_dir_all(&rt, FOLDER);
    let path = String::from_str(rt.alloc(), "log_disk_test/log")?;
    let mut disk = FileDisk::new(rt, path);
    assert_same(&rt, disk.len(), Err(Failed));
    assert_same(&rt, failed(&disk), Some(Attempt::Open));
    fs::create_dir(&rt, FOLDER)?;
    assert_same(&rt, disk.len(), Ok(0));
    assert_same(&rt, disk.write(0, b"abcdef"), Ok(()));
    assert_same(&rt, disk.write(1, b"BC"), Ok(()));
    assert_same(&rt, disk.sync(), Ok(()));
    let mut buf = [0; 4];
    assert_same(&rt, disk.read(1, &mut buf), Ok(()));
    assert_same(&rt, buf, *b"BCde");
    assert_same(&rt, disk.cut(3), Ok(()));
    assert_same(&rt, disk.cut(9), Ok(()));
    assert_same(&rt, disk.len(), Ok(3));
    assert_same(&rt, disk.read(1, &mut buf), Err(Failed));
    let text = fs::read_to_string(&rt, "log_disk_test/log")?;
    assert_same(&rt, text.as_str(), "aBC");
    fs::remove_dir_all(&rt, FOLDER)?;
    Ok(())
}

/// The second of two disks over one file finds it locked by the first.
fn assert_locked(
    rt: &impl Abort,
    mut first: FileDisk<HostRuntime>,
    mut second: FileDisk<HostRuntime>,
) {
    assert_same(rt, first.len(), Ok(0));
    assert_same(rt, second.len(), Err(Failed));
    assert_same(rt, failed(&second), Some(Attempt::Lock));
}

const LOCKED: &str = "log_disk_locked";

#[test]
fn a_file_is_one_disks(rt: HostRuntime) -> Result<(), Fail> {
    let _ = fs::remove_dir_all(&rt, LOCKED);
    fs::create_dir(&rt, LOCKED)?;
    let path = String::from_str(rt.alloc(), "log_disk_locked/log")?;
    let first = FileDisk::new(rt.clone()?, path.clone()?);
    assert_locked(&rt, first, FileDisk::new(rt.clone()?, path));
    fs::remove_dir_all(&rt, LOCKED)?;
    Ok(())
}
