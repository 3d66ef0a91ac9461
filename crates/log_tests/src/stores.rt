ghost use Rattle.std.specs.Prelude.{◌<◌, ◌^◌, All, IfOk};
ghost use Rattle.result_log.specs.Spelling.{HasSpelling, IsCounted, IsName};

use crate::same::assert_same;
use arn_base::{Bytes, Disk, Failed, NoMemory, Numbers, Record, Stop};
use log_disk::{FuseDisk, MemDisk};
use log_store::{CommitError, OpenError, Store, frame_end};
use std::alloc::Global;
use std::test::Fail;

// The name, an open gate, and the frame of the file `a` with the bytes `ab`.
const FIRST: [u8; 22] = *b"ARNLOG01\x01\x09\0\0\0\x01\x01a\x02\0\0\0ab";

// Behind a gate, the frame of the file `b` with the byte `c`, and a closed gate.
const SECOND: [u8; 13] = *b"\x08\0\0\0\x01\x01b\x01\0\0\0c\0";

// What the bytes become that a stop may change.
const FILLS: [u8; 3] = [0, 1, 0xff];

fn file(alloc: Global, name: &[u8], bytes: &[u8]) -> Result<Record, NoMemory>
    requires name { IsName name.now }
    requires bytes { IsCounted bytes.now }
    ensures { IfOk result HasSpelling }
{
    Ok(Record::File {
        name: Bytes::from_slice(alloc, name)?,
        bytes: Bytes::from_slice(alloc, bytes)?,
    })
}

fn one(alloc: Global, entry: Record) -> Result<Vec<Record>, NoMemory>
    requires { HasSpelling entry }
    ensures { IfOk result (λ entries. All HasSpelling entries.items) }
{
    let mut entries = Vec::new(alloc);
    entries.push(entry)?;
    Ok(entries)
}

// The first frame, and then a gate and bytes.
fn behind_first(alloc: Global, gate: u8, rest: &[u8]) -> Result<Bytes, NoMemory> {
    let mut bytes = Bytes::from_slice(alloc, &FIRST)?;
    bytes.push(gate)?;
    for byte in rest {
        bytes.push(*byte)?;
    }
    Ok(bytes)
}

// How many records the log of these bytes holds.
fn count(alloc: Global, bytes: &[u8]) -> Result<usize, OpenError> {
    let mut disk = MemDisk::new(alloc, Bytes::from_slice(alloc, bytes)?);
    Ok(Store::open_log(alloc, &mut disk)?.entries().len())
}

// How many records the log of the first frame, a gate and bytes holds.
fn count_behind(alloc: Global, gate: u8, rest: &[u8]) -> Result<usize, OpenError> {
    let bytes = behind_first(alloc, gate, rest)?;
    count(alloc, bytes.as_slice())
}

#[test]
fn opens_logs_by_their_gates(rt: HostRuntime) {
    let alloc = rt.alloc();
    assert_same(&rt, count(alloc, b""), Ok(0));
    assert_same(&rt, count(alloc, b"ARNLOG01\x01"), Ok(0));
    for len in 0..=13 {
        assert_same(&rt, count_behind(alloc, 0, &SECOND[..len]), Ok(1));
    }
    assert_same(&rt, count_behind(alloc, 1, &[]), Ok(1));
    assert_same(&rt, count_behind(alloc, 7, &SECOND), Ok(1));
    assert_same(&rt, count_behind(alloc, 1, &SECOND), Ok(2));
}

#[test]
fn says_where_bytes_are_no_log(rt: HostRuntime) {
    let unknown = b"ARNLOG01\x01\x02\0\0\0\x09\x09\0";
    for (bytes, error) in [
        (b"ARNLOG99\0\0".as_slice(), OpenError::NotLog { at: 6 }),
        (&FIRST[..20], OpenError::Malformed { at: 8 }),
        (&FIRST, OpenError::Malformed { at: 8 }),
        (unknown, OpenError::Malformed { at: 13 }),
    ] {
        assert_same(&rt, count(rt.alloc(), bytes), Err(error));
    }
}

#[test]
fn commits_behind_what_was_there(rt: HostRuntime) -> Result<(), Fail> {
    let alloc = rt.alloc();
    let mut disk = MemDisk::new(alloc, behind_first(alloc, 7, &SECOND)?);
    let mut store = Store::open_log(alloc, &mut disk)?;
    assert_same(&rt, disk.bytes(), behind_first(alloc, 0, &[])?.as_slice());
    let entry = file(alloc, b"b", b"c")?;
    store.commit(&mut disk, one(alloc, entry)?)?;
    assert_same(
        &rt,
        disk.bytes(),
        behind_first(alloc, 1, &SECOND)?.as_slice(),
    );
    let want = [file(alloc, b"a", b"ab")?, file(alloc, b"b", b"c")?];
    assert!(rt; store.entries() == want.as_slice());
    assert!(rt; store.usable());
    for fill in FILLS {
        for short in [false, true] {
            let left = disk.crash_with(alloc, Some(fill), short)?;
            assert_same(&rt, count(alloc, left.as_slice()), Ok(2));
        }
    }
    Ok(())
}

// The opening takes calls 0 and 1, the commit calls 2 to 5. One of these fails, the machine stops,
// and each byte that the stop may change becomes the fill.
#[test]
fn a_stopped_commit_is_whole_or_not_there(rt: HostRuntime) -> Result<(), Fail> {
    let alloc = rt.alloc();
    for (call, fill, want) in [
        (2, 0, 1),
        (2, 1, 1),
        (2, 0xff, 1),
        (3, 0, 1),
        (3, 1, 1),
        (3, 0xff, 1),
        (4, 0, 1),
        (4, 1, 2),
        (4, 0xff, 1),
        (5, 0, 1),
        (5, 1, 2),
        (5, 0xff, 1),
    ] {
        let mut fails = Numbers::new(alloc);
        fails.push(call)?;
        let mut disk = FuseDisk::new(alloc, behind_first(alloc, 0, &[])?, fails);
        let mut store = Store::open_log(alloc, &mut disk)?;
        let entry = file(alloc, b"b", b"c")?;
        assert_same(
            &rt,
            store.commit(&mut disk, one(alloc, entry)?),
            Err(CommitError::Disk),
        );
        assert!(rt; !store.usable());
        assert_same(&rt, store.entries().len(), 1);
        for short in [false, true] {
            let left = disk.crash_with(alloc, Some(fill), short)?;
            assert_same(&rt, count(alloc, left.as_slice()), Ok(want));
        }
    }
    Ok(())
}

// An opening takes calls 0 and 1 to read. Of the first log calls 2 and 3 cut the end off, and 4 and
// 5 close the gate; the second is written anew by calls 2 and 3.
#[test]
fn a_stopped_opening_keeps_the_records(rt: HostRuntime) -> Result<(), Fail> {
    let alloc = rt.alloc();
    let named = behind_first(alloc, 7, &SECOND)?;
    for call in 0..6 {
        assert!(rt; keeps(alloc, named.as_slice(), call, 1)?);
    }
    for call in 0..4 {
        assert!(rt; keeps(alloc, b"ARN", call, 0)?);
    }
    Ok(())
}

// Whether an opening at which this call fails leaves so many records, whatever a stop makes of it.
fn keeps(alloc: Global, bytes: &[u8], call: u32, want: usize) -> Result<bool, NoMemory> {
    let mut fails = Numbers::new(alloc);
    fails.push(call)?;
    let mut disk = FuseDisk::new(alloc, Bytes::from_slice(alloc, bytes)?, fails);
    if !matches!(Store::open_log(alloc, &mut disk), Err(OpenError::Disk)) {
        return Ok(false);
    }
    for fill in FILLS {
        for short in [false, true] {
            let left = disk.crash_with(alloc, Some(fill), short)?;
            if count(alloc, left.as_slice()) != Ok(want) {
                return Ok(false);
            }
        }
    }
    Ok(true)
}

// A disk that says it has one byte more than a log may have, tells none, and never crashes.
#[derive(Drop)]
struct LongDisk;

impl Disk for LongDisk {
    ghost use Rattle.std.specs.Prelude.{None, false};
    ghost use Rattle.arn_base.specs.Faults.{greatest};

    ghost image = { λ _. None };

    ghost may_leave = { λ _ _. ⊥ };

    ghost moment = { λ _. 0 };

    ghost left_since = { λ _ _ _. ⊥ };

    ghost faults = { λ _. greatest };

    ghost wants_memory = { λ _. false };

    ghost reads_may_stay = { λ _. tt };

    ghost counts_now = { λ _ _ _ _ leaves. leaves };

    ghost only_now = { λ _ _ left. left };

    fn len(&mut self) -> Result<u64, Failed> {
        Ok(268_435_457)
    }

    fn read(&mut self, _at: u64, _buf: &mut [u8]) -> Result<(), Failed> {
        Err(Failed)
    }

    fn write(&mut self, _at: u64, _bytes: &[u8]) -> Result<(), Stop> {
        Err(Stop::Failed)
    }

    fn cut(&mut self, _len: u64) -> Result<(), Stop> {
        Err(Stop::Failed)
    }

    fn sync(&mut self) -> Result<(), Stop> {
        Err(Stop::Failed)
    }
}

#[test]
fn refuses_a_log_that_is_too_long(rt: HostRuntime) -> Result<(), Fail> {
    let opened = Store::open_log(rt.alloc(), &mut LongDisk);
    assert!(rt; matches!(opened, Err(OpenError::TooLong { len: 268_435_457 })));
    Ok(())
}

#[test]
fn frames_end_at_the_limit(rt: HostRuntime) -> Result<(), Fail> {
    assert_same(&rt, frame_end(268_435_000, 451), Some(268_435_456));
    assert_same(&rt, frame_end(268_435_000, 452), None);
    assert_same(&rt, frame_end(u64::MAX, u64::MAX), None);
    Ok(())
}

// A record of so many typed bytes is the smallest that doesn't fit into a fresh log: 9 bytes stand
// there, a frame adds 5 (its length and its gate), and a record 5 (its kind and its length).
const TOO_MANY_TYPED: usize = 268_435_456 - 9 - 5 - 5 + 1;

fn typed(alloc: Global, len: usize) -> Result<Record, NoMemory>
    requires { len < 2 ^ 32 }
    ensures { IfOk result HasSpelling }
{
    let zeros = vec![in alloc; 0u8; len]?;
    Ok(Record::Typed {
        bytes: Bytes::from_slice(alloc, zeros.as_slice())?,
    })
}

#[test]
fn a_commit_that_does_not_fit_changes_nothing(rt: HostRuntime) -> Result<(), Fail> {
    let alloc = rt.alloc();
    let mut disk = MemDisk::new(alloc, Bytes::new(alloc));
    let mut store = Store::open_log(alloc, &mut disk)?;
    let entry = typed(alloc, TOO_MANY_TYPED)?;
    let full = CommitError::Full {
        log: 9,
        payload: 268_435_443,
    };
    assert_same(&rt, store.commit(&mut disk, one(alloc, entry)?), Err(full));
    assert_same(&rt, disk.bytes(), b"ARNLOG01\0".as_slice());
    assert!(rt; store.usable());
    Ok(())
}
