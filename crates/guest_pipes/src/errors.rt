// What calls on pipes take and answer.
ghost use Rattle.std.specs.Prelude.{◌≡◌};
ghost use Rattle.guest_pipes.specs.declared.errors.PipeError.TheVariants as pipe_error;

use arn_base::NoMemory;
use std::alloc::AllocError;
use thiserror::Error;

/// An end of a pipe.
#[derive(Clone, Copy)]
pub enum Side {
    Reader,
    Writer,
}

/// Why a call on pipes is refused.
#[derive(Clone, Copy, Debug, PartialEq, Eq, Error)]
pub enum PipeError {
    #[error("there are too many pipes")]
    TooMany,
    #[error("nothing reads the pipe")]
    Broken,
    #[error("the pipe isn't ready")]
    NotReady,
    #[error("out of memory")]
    NoMemory,
}

impl From<NoMemory> for PipeError {
    ghost from_gives = { λ _ e. e ≡ pipe_error.NoMemory };

    fn from(_: NoMemory) -> PipeError {
        PipeError::NoMemory
    }
}

impl From<AllocError> for PipeError {
    ghost from_gives = { λ _ e. e ≡ pipe_error.NoMemory };

    fn from(_: AllocError) -> PipeError {
        PipeError::NoMemory
    }
}
