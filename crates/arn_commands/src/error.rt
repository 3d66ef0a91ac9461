ghost use Rattle.std.specs.Prelude.{◌≡◌};
ghost use Rattle.arn_commands.specs.declared.error.ReadError.TheVariants as error;

use arn_base::NoMemory;
use thiserror::Error;

/// Why no command was read.
#[derive(Clone, Copy, Debug, PartialEq, Eq, Error)]
pub enum ReadError {
    /// The source failed.
    #[error("the source failed")]
    Source,
    /// As many bytes were taken as a session takes.
    #[error("the text is too long")]
    Long,
    #[error("out of memory")]
    NoMemory,
}

impl From<NoMemory> for ReadError {
    ghost from_gives = { λ _ e. e ≡ error.NoMemory };

    fn from(_: NoMemory) -> ReadError {
        ReadError::NoMemory
    }
}
