// Why a call on files is refused.
ghost use Rattle.std.specs.Prelude.{◌≡◌};
ghost use Rattle.guest_files.specs.declared.errors.FileError.TheVariants as file_error;

use arn_base::NoMemory;
use std::alloc::AllocError;
use thiserror::Error;

/// Why a call on files is refused.
#[derive(Clone, Copy, Debug, PartialEq, Eq, Error)]
pub enum FileError {
    #[error("there is no file of this name")]
    NoFile,
    #[error("there is a file of this name")]
    Exists,
    #[error("there are too many files")]
    TooMany,
    #[error("the file is too long")]
    TooLong,
    #[error("out of memory")]
    NoMemory,
}

impl From<NoMemory> for FileError {
    ghost from_gives = { λ _ e. e ≡ file_error.NoMemory };

    fn from(_: NoMemory) -> FileError {
        FileError::NoMemory
    }
}

impl From<AllocError> for FileError {
    ghost from_gives = { λ _ e. e ≡ file_error.NoMemory };

    fn from(_: AllocError) -> FileError {
        FileError::NoMemory
    }
}
