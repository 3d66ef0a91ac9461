// Why a version isn't told.
ghost use Rattle.std.specs.Prelude.{◌≡◌};
ghost use Rattle.file_versions.specs.declared.errors.VersionError.TheVariants as error;

use arn_base::NoMemory;
use std::alloc::AllocError;
use thiserror::Error;

/// Why a version of a file isn't told.
#[derive(Clone, Copy, Debug, PartialEq, Eq, Error)]
pub enum VersionError {
    #[error("the history has no such moment")]
    NoMoment,
    #[error("no file has this name then")]
    NoFile,
    #[error("out of memory")]
    NoMemory,
}

impl From<NoMemory> for VersionError {
    ghost from_gives = { λ _ e. e ≡ error.NoMemory };

    fn from(_: NoMemory) -> VersionError {
        VersionError::NoMemory
    }
}

impl From<AllocError> for VersionError {
    ghost from_gives = { λ _ e. e ≡ error.NoMemory };

    fn from(_: AllocError) -> VersionError {
        VersionError::NoMemory
    }
}
