// Why calls, look-ups, replays and views refuse.
use crate::same::assert_same;
use file_versions::VersionError;
use guest_calls::{BootError, CallStop};
use history_index::IndexError;
use replayer::{Disagrees, QueryError, ReplayError};
use std::fmt::Display;
use std::process::Abort;
use std::test::Fail;

// Errors, and the texts that are wanted.
type Shown<E> = (E, &'static str);

const CALLS: &[Shown<CallStop>] = &[
    (CallStop::NotReady, "the call isn't ready"),
    (CallStop::NoMemory, "out of memory"),
];

const BOOTS: &[Shown<BootError>] = &[
    (BootError::NoName, "there is no file of this name"),
    (BootError::NotImage, "the file is no image"),
    (BootError::NoMemory, "out of memory"),
];

const INDEXES: &[Shown<IndexError>] = &[
    (
        IndexError::Broken { place: 14 },
        "record 14 can't stand where it does",
    ),
    (IndexError::NoMemory, "out of memory"),
];

const OTHERWISE: Disagrees = Disagrees {
    event: 10,
    said: 22,
    found: 12,
};

const REPLAYS: &[Shown<ReplayError>] = &[
    (ReplayError::Disagrees(OTHERWISE), "records disagree"),
    (ReplayError::NoMemory, "out of memory"),
];

const QUERIES: &[Shown<QueryError>] = &[
    (QueryError::NoPoint, "no such point"),
    (QueryError::Disagrees(OTHERWISE), "records disagree"),
    (QueryError::NoMemory, "out of memory"),
];

const VERSIONS: &[Shown<VersionError>] = &[
    (VersionError::NoMoment, "the history has no such moment"),
    (VersionError::NoFile, "no file has this name then"),
    (VersionError::NoMemory, "out of memory"),
];

// Each error shows its text.
fn assert_shown<E: Display>(
    rt: &(impl Abort + AllocGlobal),
    cases: &[Shown<E>],
) -> Result<(), Fail> {
    for (error, wanted) in cases {
        let text = error.to_string(rt.alloc())?;
        assert_same(rt, text.as_str(), *wanted);
    }
    Ok(())
}

#[test]
fn calls_show_why(rt: HostRuntime) -> Result<(), Fail> {
    assert_shown(&rt, CALLS)?;
    assert_shown(&rt, BOOTS)
}

#[test]
fn histories_show_why(rt: HostRuntime) -> Result<(), Fail> {
    assert_shown(&rt, INDEXES)?;
    assert_shown(&rt, REPLAYS)?;
    assert_shown(&rt, QUERIES)?;
    assert_shown(&rt, VERSIONS)
}
