use crate::same::assert_same;
use arn_base::Differs;
use arn_session::{Damage, Status};
use std::process::Abort;
use std::test::Fail;

const FULL: Status = Status::Full {
    log: 268_435_000,
    payload: 452,
};

const OTHERWISE: Differs = Differs {
    place: 22,
    at: 5,
    said: Some(22),
    found: Some(12),
};

/// Statuses, and the codes and texts of each.
const STATUSES: &[(Status, u8, &str)] = &[
    (Status::Done, 0, "done"),
    (Status::Usage, 2, "the words aren't accepted"),
    (Status::Disk, 3, "the disk failed"),
    (
        Status::Damaged(Damage::TooLong { len: 268_435_457 }),
        4,
        "it has 268435457 bytes, which is too many: a log has at most 268435456",
    ),
    (
        Status::Damaged(Damage::NotLog { at: 6 }),
        4,
        "its byte 6 is not that of a log of this version, which begins with ARNLOG01",
    ),
    (
        Status::Damaged(Damage::NotLog { at: 0 }),
        4,
        "its byte 0 is not that of a log of this version, which begins with ARNLOG01",
    ),
    (
        Status::Damaged(Damage::Malformed { at: 8 }),
        4,
        "at its byte 8 is no frame or no record: it is damaged",
    ),
    (
        Status::Damaged(Damage::Broken { place: 2 }),
        4,
        "its record 2 can't stand behind those before it",
    ),
    (
        Status::Damaged(Damage::Differs(OTHERWISE)),
        4,
        "its record 22 is not that of a run from its byte 5 on",
    ),
    (Status::NoMemory, 5, "out of memory"),
    (Status::Source, 6, "the source failed"),
    (Status::Sink, 7, "the sink failed"),
    (
        FULL,
        8,
        "the log of 268435000 bytes has no room for 452 more, with 268435456 at most",
    ),
    (
        Status::Long,
        9,
        "the source has 2^40 bytes or more, and no more are read",
    ),
];

fn assert_texts(rt: &(impl Abort + AllocGlobal)) -> Result<(), Fail> {
    for (status, code, wanted) in STATUSES {
        let text = status.to_string(rt.alloc())?;
        assert_same(rt, (status.code(), text.as_str()), (*code, *wanted));
    }
    Ok(())
}

#[test]
fn codes_and_texts(rt: HostRuntime) -> Result<(), Fail> {
    assert_texts(&rt)
}
