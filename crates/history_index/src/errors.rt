// The errors of an index.
ghost use Rattle.std.specs.Prelude.{◌≡◌};
ghost use Rattle.history_index.specs.declared.errors.IndexError.TheVariants as error;

use arn_base::NoMemory;
use thiserror::Error;

/// Why records have no index.
#[derive(Clone, Copy, Debug, PartialEq, Eq, Error)]
pub enum IndexError {
    #[error("record {place} can't stand where it does")]
    Broken { place: u64 },
    #[error("out of memory")]
    NoMemory,
}

impl From<NoMemory> for IndexError {
    ghost from_gives = { λ _ e. e ≡ error.NoMemory };

    fn from(_: NoMemory) -> IndexError {
        IndexError::NoMemory
    }
}
