// Why a call on ports is refused.
ghost use Rattle.std.specs.Prelude.{◌≡◌};
ghost use Rattle.guest_sockets.specs.declared.errors.PortError.TheVariants as port_error;

use std::alloc::AllocError;
use thiserror::Error;

/// Why a call on ports is refused.
#[derive(Clone, Copy, Debug, PartialEq, Eq, Error)]
pub enum PortError {
    #[error("the port is listened to")]
    InUse,
    #[error("there are too many ports")]
    TooMany,
    #[error("nothing listens at the port, or as many wait as may")]
    Refused,
    #[error("no connection waits at the port")]
    NotReady,
    #[error("out of memory")]
    NoMemory,
}

impl From<AllocError> for PortError {
    ghost from_gives = { λ _ e. e ≡ port_error.NoMemory };

    fn from(_: AllocError) -> PortError {
        PortError::NoMemory
    }
}
