// Why a replay or a query has no answer.
ghost use Rattle.std.specs.Prelude.{◌≡◌};
ghost use Rattle.replay_steps.specs.declared.errors.ReplayError.TheVariants as replay_error;
ghost use Rattle.replay_steps.specs.declared.errors.QueryError.TheVariants as query_error;

use arn_base::NoMemory;
use thiserror::Error;

/// Records say what can't be. At this event, or before it, the first of them says one number where
/// the replay finds another.
#[derive(Clone, Copy, Debug, PartialEq, Eq)]
pub struct Disagrees {
    pub event: u64,
    pub said: u64,
    pub found: u64,
}

/// Why a group can't be replayed.
#[derive(Clone, Copy, Debug, PartialEq, Eq, Error)]
pub enum ReplayError {
    #[error("records disagree")]
    Disagrees(Disagrees),
    #[error("out of memory")]
    NoMemory,
}

/// Why a query has no answer.
#[derive(Clone, Copy, Debug, PartialEq, Eq, Error)]
pub enum QueryError {
    #[error("no such point")]
    NoPoint,
    #[error("records disagree")]
    Disagrees(Disagrees),
    #[error("out of memory")]
    NoMemory,
}

impl From<NoMemory> for ReplayError {
    ghost from_gives = { λ _ e. e ≡ replay_error.NoMemory };

    fn from(_: NoMemory) -> ReplayError {
        ReplayError::NoMemory
    }
}

impl From<NoMemory> for QueryError {
    ghost from_gives = { λ _ e. e ≡ query_error.NoMemory };

    fn from(_: NoMemory) -> QueryError {
        QueryError::NoMemory
    }
}

impl From<ReplayError> for QueryError {
    ghost use Rattle.replay_steps.specs.Standing.{asked};

    ghost from_gives = { λ from e. e ≡ asked from };

    fn from(error: ReplayError) -> QueryError {
        match error {
            ReplayError::Disagrees(disagrees) => QueryError::Disagrees(disagrees),
            ReplayError::NoMemory => QueryError::NoMemory,
        }
    }
}
