// How the program ends, and what it says of it.
ghost use Rattle.std.specs.Prelude.{◌≡◌, None};

use arn_session::Status;
use host_disk::Failure;
use std::{fmt, io};

/// The error of the system for which a session ended.
#[derive(Clone, Copy)]
pub enum Cause {
    Disk(Failure),
    Source(io::Error),
    Sink(io::Error),
}

/// How a session ended, and the system's error where it ended for one.
#[derive(Clone, Copy)]
pub struct Ending {
    pub status: Status,
    pub cause: Option<Cause>,
}

impl From<Status> for Ending {
    ghost from_gives = { λ status ending. ending ≡ record { status = status; cause = None } };

    fn from(status: Status) -> Ending {
        Ending {
            status,
            cause: None,
        }
    }
}

impl fmt::Display for Cause {
    fn fmt<W: fmt::Write>(&self, f: &mut fmt::Formatter<W>) -> fmt::Result {
        match self {
            Cause::Disk(failure) => failure.fmt(f),
            Cause::Source(error) => write!(f, "can't read standard input: {error}"),
            Cause::Sink(error) => write!(f, "can't write standard output: {error}"),
        }
    }
}

impl fmt::Display for Ending {
    fn fmt<W: fmt::Write>(&self, f: &mut fmt::Formatter<W>) -> fmt::Result {
        match &self.cause {
            Some(cause) => cause.fmt(f),
            None => self.status.fmt(f),
        }
    }
}
