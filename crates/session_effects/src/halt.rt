// Why effects end before all are carried out.
use arn_base::{Differs, NoMemory, Stop};
use log_store::CommitError;
use std::alloc::AllocError;

/// Why a session ends before its text does.
#[derive(Clone, Copy)]
pub enum Halt {
    NoMemory,
    /// The source failed.
    Source,
    /// The sink failed.
    Sink,
    /// As many bytes were taken as a session takes at most.
    Long,
    /// The disk failed.
    Disk,
    /// The log of `log` bytes has no room for a commit whose records' spellings have `payload` bytes.
    Full { log: u64, payload: u64 },
    /// The records of the log aren't those of the inputs that they name.
    Differs(Differs),
}

impl From<NoMemory> for Halt {
    ghost use Rattle.std.specs.Prelude.{◌≡◌};
    ghost use Rattle.session_effects.specs.declared.halt.Halt.TheVariants as halt;

    ghost from_gives = { λ _ e. e ≡ halt.NoMemory };

    fn from(_: NoMemory) -> Halt {
        Halt::NoMemory
    }
}

impl From<AllocError> for Halt {
    ghost use Rattle.std.specs.Prelude.{◌≡◌};
    ghost use Rattle.session_effects.specs.declared.halt.Halt.TheVariants as halt;

    ghost from_gives = { λ _ e. e ≡ halt.NoMemory };

    fn from(_: AllocError) -> Halt {
        Halt::NoMemory
    }
}

impl From<Stop> for Halt {
    ghost use Rattle.session_effects.specs.Halts.{halt_of};
    ghost use Rattle.std.specs.Prelude.{◌≡◌};

    ghost from_gives = { λ stop halt. halt ≡ halt_of stop };

    /// What stops a sink ends a session.
    fn from(stop: Stop) -> Halt {
        match stop {
            Stop::Failed => Halt::Sink,
            Stop::NoMemory => Halt::NoMemory,
        }
    }
}

impl From<CommitError> for Halt {
    ghost use Rattle.session_effects.specs.Halts.{commit_halt_of};
    ghost use Rattle.std.specs.Prelude.{◌≡◌};

    ghost from_gives = { λ error halt. halt ≡ commit_halt_of error };

    fn from(error: CommitError) -> Halt {
        match error {
            CommitError::Disk => Halt::Disk,
            CommitError::Full { log, payload } => Halt::Full { log, payload },
            CommitError::NoMemory => Halt::NoMemory,
        }
    }
}
