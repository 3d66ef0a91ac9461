// Why a log isn't opened, or a commit doesn't end with Ok.
ghost use Rattle.std.specs.Prelude.{◌≡◌};
ghost use Rattle.arn_base.specs.declared.errors.Stop.{Stop};
ghost use Rattle.arn_base.specs.declared.errors.Stop.TheVariants as stop;
ghost use Rattle.log_store.specs.declared.errors.CommitError.TheVariants as commit;
ghost use Rattle.log_store.specs.declared.errors.OpenError.TheVariants as open_error;
ghost use Rattle.log_store.specs.Causes.{commit_error_of, open_error_of};

use arn_base::{Failed, NoMemory, Stop};
use std::alloc::{AllocError, AllocFailed};
use thiserror::Error;

/// Why a log wasn't opened. Places and lengths are in bytes from the start of the disk.
#[derive(Clone, Copy, Debug, PartialEq, Eq, Error)]
pub enum OpenError {
    /// The disk holds more bytes than a log may have.
    #[error("the log has {len} bytes, which is too many")]
    TooLong { len: u64 },
    /// The byte at this place is the first that differs from the name of a log.
    #[error("the byte at {at} is not that of a log")]
    NotLog { at: u64 },
    /// At this place stands the gate of a frame that isn't whole, or no record where one is due.
    #[error("no frame or no record stands at {at}")]
    Malformed { at: u64 },
    /// The end of the log may be changed; its records are the same.
    #[error("the disk failed")]
    Disk,
    /// The end of the log may be changed; its records are the same.
    #[error("out of memory")]
    NoMemory,
}

/// Why a commit didn't end with Ok. After Disk, and after NoMemory that leaves the store unusable,
/// the log may hold its records all the same.
#[derive(Clone, Copy, Debug, PartialEq, Eq, Error)]
pub enum CommitError {
    #[error("the disk failed")]
    Disk,
    /// The log has `log` bytes, and no room for a frame with `payload` bytes of spellings.
    #[error("the log of {log} bytes has no room for {payload} more")]
    Full { log: u64, payload: u64 },
    #[error("out of memory")]
    NoMemory,
}

impl From<Failed> for OpenError {
    ghost from_gives = { λ _ e. e ≡ open_error.Disk };

    fn from(_: Failed) -> OpenError {
        OpenError::Disk
    }
}

impl From<NoMemory> for OpenError {
    ghost from_gives = { λ _ e. e ≡ open_error.NoMemory };

    fn from(_: NoMemory) -> OpenError {
        OpenError::NoMemory
    }
}

impl From<Stop> for OpenError {
    ghost from_gives = { λ s e. e ≡ open_error_of s };

    fn from(stop: Stop) -> OpenError {
        match stop {
            Stop::Failed => OpenError::Disk,
            Stop::NoMemory => OpenError::NoMemory,
        }
    }
}

impl From<AllocError> for OpenError {
    ghost from_gives = { λ _ e. e ≡ open_error.NoMemory };

    fn from(_: AllocError) -> OpenError {
        OpenError::NoMemory
    }
}

impl<T: Drop> From<AllocFailed<T>> for OpenError {
    ghost from_gives = { λ _ e. e ≡ open_error.NoMemory };

    fn from(_: AllocFailed<T>) -> OpenError {
        OpenError::NoMemory
    }
}

impl From<NoMemory> for CommitError {
    ghost from_gives = { λ _ e. e ≡ commit.NoMemory };

    fn from(_: NoMemory) -> CommitError {
        CommitError::NoMemory
    }
}

impl From<Stop> for CommitError {
    ghost from_gives = { λ s e. e ≡ commit_error_of s };

    fn from(stop: Stop) -> CommitError {
        match stop {
            Stop::Failed => CommitError::Disk,
            Stop::NoMemory => CommitError::NoMemory,
        }
    }
}

impl From<AllocError> for CommitError {
    ghost from_gives = { λ _ e. e ≡ commit.NoMemory };

    fn from(_: AllocError) -> CommitError {
        CommitError::NoMemory
    }
}

impl<T: Drop> From<AllocFailed<T>> for CommitError {
    ghost from_gives = { λ _ e. e ≡ commit.NoMemory };

    fn from(_: AllocFailed<T>) -> CommitError {
        CommitError::NoMemory
    }
}
