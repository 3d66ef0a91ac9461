// What sessions end with, print and leave.
use crate::same::assert_same;
use arn_base::{Bytes, Device, Disk, NoMemory};
use arn_session::Status;
use log_disk::MemDisk;
use log_store::{OpenError, Store};
use session_trials::{Script, run_on, run_with};
use std::process::Abort;

/// A session with these devices over the log of a disk ends so, prints this, and leaves these slots filled.
pub fn assert_ends<D: Disk>(
    rt: &(impl Abort + AllocGlobal),
    disk: &mut D,
    script: &Script,
    devices: Vec<Option<Box<dyn Device>>>,
    wanted: (Status, &str, &[bool]),
) -> Result<(), NoMemory> {
    let ended = run_with(rt.alloc(), &["log"], script, disk, devices)?;
    let (status, prints, filled) = wanted;
    assert_same(
        rt,
        (ended.status, ended.filled.as_slice(), ended.sink.bytes()),
        (status, filled, prints.as_bytes()),
    );
    Ok(())
}

/// The log of a session that prints this.
pub fn recorded(
    rt: &(impl Abort + AllocGlobal),
    text: &str,
    prints: &str,
) -> Result<Store, OpenError> {
    let alloc = rt.alloc();
    let mut disk = MemDisk::new(alloc, Bytes::new(alloc));
    let ended = run_on(alloc, &["log"], &Script::of(text.as_bytes()), &mut disk)?;
    assert_same(
        rt,
        (ended.status, ended.sink.bytes()),
        (Status::Done, prints.as_bytes()),
    );
    Store::open_log(alloc, &mut disk)
}
