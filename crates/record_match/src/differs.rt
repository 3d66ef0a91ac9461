// Why records can't be made again.
ghost use Rattle.std.specs.Prelude.{◌≡◌};
ghost use Rattle.record_match.specs.declared.differs.RebuildError.TheVariants as rebuild_error;

use arn_base::{Differs, NoMemory};
use thiserror::Error;

/// Why no machine was made from records.
#[derive(Clone, Copy, Debug, PartialEq, Eq, Error)]
pub enum RebuildError {
    /// The records aren't those of their own inputs: said are the bytes of the records, found those
    /// of the inputs' own.
    #[error("record {} differs at byte {} of its spelling", .0.place, .0.at)]
    Differs(Differs),
    #[error("out of memory")]
    NoMemory,
}

impl From<NoMemory> for RebuildError {
    ghost from_gives = { λ _ e. e ≡ rebuild_error.NoMemory };

    fn from(_: NoMemory) -> RebuildError {
        RebuildError::NoMemory
    }
}
