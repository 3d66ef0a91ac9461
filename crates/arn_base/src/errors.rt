// The errors of the outside.
ghost use Rattle.std.specs.Prelude.{◌≡◌};
ghost use Rattle.arn_base.specs.declared.errors.Stop.TheVariants as stop;
ghost use Rattle.arn_base.specs.declared.errors.StoreError.TheVariants as store;

use std::alloc::{AllocError, AllocFailed};
use thiserror::Error;

/// Memory ran out.
#[derive(Clone, Copy, Debug, PartialEq, Eq, Error)]
#[error("out of memory")]
pub struct NoMemory;

/// A source, a sink or a disk failed.
#[derive(Clone, Copy, Debug, PartialEq, Eq, Error)]
#[error("the device failed")]
pub struct Failed;

/// The bytes don't lie whole in a window of the memory.
#[derive(Clone, Copy, Debug, PartialEq, Eq, Error)]
#[error("no such address")]
pub struct BadAddress;

/// Why a sink or a disk took no bytes.
#[derive(Clone, Copy, Debug, PartialEq, Eq, Error)]
pub enum Stop {
    #[error("the device failed")]
    Failed,
    #[error("out of memory")]
    NoMemory,
}

/// Why a memory took no bytes.
#[derive(Clone, Copy, Debug, PartialEq, Eq, Error)]
pub enum StoreError {
    #[error("no such address")]
    BadAddress,
    #[error("out of memory")]
    NoMemory,
}

impl From<AllocError> for NoMemory {
    fn from(_: AllocError) -> NoMemory {
        NoMemory
    }
}

impl<T: Drop> From<AllocFailed<T>> for NoMemory {
    fn from(_: AllocFailed<T>) -> NoMemory {
        NoMemory
    }
}

impl From<Failed> for Stop {
    ghost from_gives = { λ _ e. e ≡ stop.Failed };

    fn from(_: Failed) -> Stop {
        Stop::Failed
    }
}

impl From<NoMemory> for Stop {
    ghost from_gives = { λ _ e. e ≡ stop.NoMemory };

    fn from(_: NoMemory) -> Stop {
        Stop::NoMemory
    }
}

impl From<BadAddress> for StoreError {
    ghost from_gives = { λ _ e. e ≡ store.BadAddress };

    fn from(_: BadAddress) -> StoreError {
        StoreError::BadAddress
    }
}

impl From<NoMemory> for StoreError {
    ghost from_gives = { λ _ e. e ≡ store.NoMemory };

    fn from(_: NoMemory) -> StoreError {
        StoreError::NoMemory
    }
}
