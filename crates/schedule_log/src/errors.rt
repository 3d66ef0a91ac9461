ghost use Rattle.std.specs.Prelude.{◌≡◌};
ghost use Rattle.schedule_log.specs.declared.errors.GetError.TheVariants as error;

use arn_base::NoMemory;
use thiserror::Error;

/// Why no record was read.
#[derive(Clone, Copy, Debug, PartialEq, Eq, Error)]
pub enum GetError {
    /// No record is spelled at the place `at`.
    #[error("no record is spelled at byte {at}")]
    Malformed { at: u64 },
    #[error("out of memory")]
    NoMemory,
}

impl From<NoMemory> for GetError {
    ghost from_gives = { λ _ e. e ≡ error.NoMemory };

    fn from(_: NoMemory) -> GetError {
        GetError::NoMemory
    }
}
