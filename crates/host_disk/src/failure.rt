// What was tried with a file of the host, and why it failed.
ghost use Rattle.std.specs.Prelude.{◌≡◌, Ok, Err, IfOk, IfErr};

use std::{fmt, io};

/// What is tried with the file of a log.
#[derive(Clone, Copy, Debug, PartialEq, Eq)]
pub enum Attempt {
    Open,
    Lock,
    Measure,
    Read,
    Write,
    Cut,
    Sync,
}

/// An attempt that failed, and the host's error.
#[derive(Clone, Copy)]
pub struct Failure {
    pub attempt: Attempt,
    pub error: io::Error,
}

/// Says of an error of the host what was tried.
pub fn tried<T>(attempt: Attempt, answer: io::Result<T>) -> Result<T, Failure>
    ensures ok { IfOk answer (λ value. result ≡ Ok value) }
    ensures err { IfErr answer (λ error.
        result ≡ Err (record { attempt = attempt; error = error })) }
{
    match answer {
        Ok(value) => Ok(value),
        Err(error) => Err(Failure { attempt, error }),
    }
}

impl fmt::Display for Attempt {
    fn fmt<W: fmt::Write>(&self, f: &mut fmt::Formatter<W>) -> fmt::Result {
        f.write_str(match self {
            Attempt::Open => "open",
            Attempt::Lock => "lock",
            Attempt::Measure => "measure",
            Attempt::Read => "read",
            Attempt::Write => "write",
            Attempt::Cut => "cut",
            Attempt::Sync => "sync",
        })
    }
}

impl fmt::Display for Failure {
    fn fmt<W: fmt::Write>(&self, f: &mut fmt::Formatter<W>) -> fmt::Result {
        let Failure { attempt, error } = self;
        write!(f, "can't {attempt} the log: {error}")
    }
}
