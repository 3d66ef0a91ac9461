use crate::same::assert_same;
use guest_files::FileError;
use guest_pipes::PipeError;
use guest_procs::ProcError;
use guest_sockets::PortError;
use std::fmt::Display;
use std::process::Abort;
use std::test::Fail;

/// Errors, and the texts that are wanted.
type Shown<E> = (E, &'static str);

const FILES: &[Shown<FileError>] = &[
    (FileError::NoFile, "there is no file of this name"),
    (FileError::Exists, "there is a file of this name"),
    (FileError::TooMany, "there are too many files"),
    (FileError::TooLong, "the file is too long"),
    (FileError::NoMemory, "out of memory"),
];

const PIPES: &[Shown<PipeError>] = &[
    (PipeError::TooMany, "there are too many pipes"),
    (PipeError::Broken, "nothing reads the pipe"),
    (PipeError::NotReady, "the pipe isn't ready"),
    (PipeError::NoMemory, "out of memory"),
];

const PORTS: &[Shown<PortError>] = &[
    (PortError::InUse, "the port is listened to"),
    (PortError::TooMany, "there are too many ports"),
    (
        PortError::Refused,
        "nothing listens at the port, or as many wait as may",
    ),
    (PortError::NotReady, "no connection waits at the port"),
    (PortError::NoMemory, "out of memory"),
];

const PROCESSES: &[Shown<ProcError>] = &[
    (ProcError::TooMany, "too many"),
    (ProcError::NoChild, "no child"),
    (ProcError::NoProcess, "no such live process"),
    (ProcError::NotReady, "no child has ended"),
    (ProcError::NoMemory, "out of memory"),
];

/// Each error shows its text.
fn assert_shown<E: Display>(
    rt: &(impl Abort + AllocGlobal),
    cases: &[Shown<E>],
) -> Result<(), Fail> {
    for (error, wanted) in cases {
        let text = error.to_string(rt.alloc())?;
        assert_same(rt, text.as_str(), *wanted);
    }
    Ok(())
}

#[test]
fn errors_show_why(rt: HostRuntime) -> Result<(), Fail> {
    assert_shown(&rt, FILES)?;
    assert_shown(&rt, PIPES)?;
    assert_shown(&rt, PORTS)?;
    assert_shown(&rt, PROCESSES)
}
