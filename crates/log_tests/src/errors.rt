use crate::same::assert_same;
use log_store::{CommitError, OpenError};
use result_log::GetError;
use std::fmt::Display;
use std::process::Abort;
use std::test::Fail;

/// Errors, and the texts that are wanted.
type Shown<E> = (E, &'static str);

const READING: &[Shown<GetError>] = &[
    (
        GetError::Malformed { at: 13 },
        "no record is spelled at byte 13",
    ),
    (GetError::NoMemory, "out of memory"),
];

const OPENING: &[Shown<OpenError>] = &[
    (
        OpenError::TooLong { len: 268_435_457 },
        "the log has 268435457 bytes, which is too many",
    ),
    (
        OpenError::NotLog { at: 6 },
        "the byte at 6 is not that of a log",
    ),
    (
        OpenError::Malformed { at: 8 },
        "no frame or no record stands at 8",
    ),
    (OpenError::Disk, "the disk failed"),
    (OpenError::NoMemory, "out of memory"),
];

const COMMITTING: &[Shown<CommitError>] = &[
    (CommitError::Disk, "the disk failed"),
    (
        CommitError::Full {
            log: 268_435_000,
            payload: 452,
        },
        "the log of 268435000 bytes has no room for 452 more",
    ),
    (CommitError::NoMemory, "out of memory"),
];

/// Each error shows its text.
fn assert_shown<E: Display>(
    rt: &(impl Abort + AllocGlobal),
    cases: &[Shown<E>],
) -> Result<(), Fail> {
    for (error, wanted) in cases {
        let text = error.to_string(rt.alloc())?;
        assert_same(rt, text.as_str(), *wanted);
    }
    Ok(())
}

#[test]
fn errors_show_why(rt: HostRuntime) -> Result<(), Fail> {
    assert_shown(&rt, READING)?;
    assert_shown(&rt, OPENING)?;
    assert_shown(&rt, COMMITTING)
}
