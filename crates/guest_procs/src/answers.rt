// What the calls answer.
ghost use Rattle.std.specs.Prelude.{◌≡◌};
ghost use Rattle.guest_procs.specs.declared.answers.ProcError.TheVariants as error;

use arn_base::NoMemory;
use thiserror::Error;

/// How a process has ended: its status, and the number of the event that ended it.
#[derive(Clone, Copy, Debug, PartialEq, Eq)]
pub struct Ended {
    pub pid: u32,
    pub status: u8,
    pub event: u64,
}

/// Why a call did nothing.
#[derive(Clone, Copy, Debug, PartialEq, Eq, Error)]
pub enum ProcError {
    #[error("too many")]
    TooMany,
    #[error("no child")]
    NoChild,
    #[error("no such live process")]
    NoProcess,
    #[error("no child has ended")]
    NotReady,
    #[error("out of memory")]
    NoMemory,
}

impl From<NoMemory> for ProcError {
    ghost from_gives = { λ _ e. e ≡ error.NoMemory };

    fn from(_: NoMemory) -> ProcError {
        ProcError::NoMemory
    }
}
