// What calls and deliveries came to.
ghost use Rattle.std.specs.Prelude.{◌≡◌};
ghost use Rattle.std.specs.Result.{result_map_both};
ghost use Rattle.guest_calls.specs.declared.outcomes.CallStop.TheVariants as stop;
ghost use Rattle.guest_calls.specs.declared.outcomes.BootError.TheVariants as boot;

use arn_base::{Extra, NoMemory};
use thiserror::Error;

/// What a call came to: its result, and what its record holds beside it.
#[derive(Drop)]
pub struct Done {
    pub result: u64,
    pub extra: Extra,
}

/// Why a call did nothing.
#[derive(Clone, Copy, Debug, PartialEq, Eq, Error)]
pub enum CallStop {
    #[error("the call isn't ready")]
    NotReady,
    #[error("out of memory")]
    NoMemory,
}

impl From<NoMemory> for CallStop {
    ghost from_gives = { λ _ e. e ≡ stop.NoMemory };

    fn from(_: NoMemory) -> CallStop {
        CallStop::NoMemory
    }
}

/// What a call came to that is ready, as of one that may not be.
pub(crate) fn or_stop(done: Result<Done, NoMemory>) -> Result<Done, CallStop>
    ensures { result ≡ result_map_both (λ d. d) (λ e. CallStop.NoMemory) done }
{
    match done {
        Ok(done) => Ok(done),
        Err(NoMemory) => Err(CallStop::NoMemory),
    }
}

/// A signal that was delivered. A handler of 0 is none: the process has ended. `cut` says that this
/// ended a call that wasn't ready.
#[derive(Clone, Copy)]
pub struct Delivered {
    pub signal: u8,
    pub cut: bool,
    pub handler: u64,
}

/// Why there was no boot.
#[derive(Clone, Copy, Debug, PartialEq, Eq, Error)]
pub enum BootError {
    #[error("there is no file of this name")]
    NoName,
    #[error("the file is no image")]
    NotImage,
    #[error("out of memory")]
    NoMemory,
}

impl From<NoMemory> for BootError {
    ghost from_gives = { λ _ e. e ≡ boot.NoMemory };

    fn from(_: NoMemory) -> BootError {
        BootError::NoMemory
    }
}
