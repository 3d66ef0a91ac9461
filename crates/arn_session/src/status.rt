// How a session ends.
ghost use Rattle.std.specs.Prelude.{◌≡◌};
ghost use Rattle.arn_session.specs.Status.{code_of};

use arn_base::Differs;
use log_store::{MOST_LOG, OpenError};
use session_effects::Halt;
use thiserror::Error;

/// How a session ends.
#[derive(Clone, Copy, Debug, PartialEq, Eq, Error)]
pub enum Status {
    /// The source was read to its end, and every line was answered.
    #[error("done")]
    Done,
    /// The words aren't accepted.
    #[error("the words aren't accepted")]
    Usage,
    /// The disk failed.
    #[error("the disk failed")]
    Disk,
    /// The log isn't that of a run.
    #[error(transparent)]
    Damaged(Damage),
    #[error("out of memory")]
    NoMemory,
    /// The source failed.
    #[error("the source failed")]
    Source,
    /// The sink failed.
    #[error("the sink failed")]
    Sink,
    /// The log of `log` bytes has no room for a commit whose records' spellings have `payload` bytes.
    #[error("the log of {log} bytes has no room for {payload} more, with {MOST_LOG} at most")]
    Full { log: u64, payload: u64 },
    /// As many bytes were taken as a session takes at most.
    #[error("the source has 2^40 bytes or more, and no more are read")]
    Long,
}

/// Why a log isn't that of a run. Places and lengths are in bytes from the start of the log.
#[derive(Clone, Copy, Debug, PartialEq, Eq, Error)]
pub enum Damage {
    /// It has more bytes than a log may have.
    #[error("it has {len} bytes, which is too many: a log has at most {MOST_LOG}")]
    TooLong { len: u64 },
    /// The byte at this place is the first that differs from the name of a log.
    #[error("its byte {at} is not that of a log of this version, which begins with ARNLOG01")]
    NotLog { at: u64 },
    /// At this place stands the gate of a frame that isn't whole, or no record where one is due.
    #[error("at its byte {at} is no frame or no record: it is damaged")]
    Malformed { at: u64 },
    /// The record at this place, counted from 0, can't stand behind those before it.
    #[error("its record {place} can't stand behind those before it")]
    Broken { place: u64 },
    /// Its records aren't those of the inputs that they name.
    #[error("its record {} is not that of a run from its byte {} on", .0.place, .0.at)]
    Differs(Differs),
}

impl Status {
    /// The code with which the program ends.
    pub fn code(&self) -> u8
        ensures { result ≡ code_of self.now }
    {
        match self {
            Status::Done => 0,
            Status::Usage => 2,
            Status::Disk => 3,
            Status::Damaged(_) => 4,
            Status::NoMemory => 5,
            Status::Source => 6,
            Status::Sink => 7,
            Status::Full { .. } => 8,
            Status::Long => 9,
        }
    }
}

impl From<Halt> for Status {
    ghost use Rattle.std.specs.Prelude.{◌≡◌};
    ghost use Rattle.arn_session.specs.Status.{status_of};

    ghost from_gives = { λ halt status. status ≡ status_of halt };

    fn from(halt: Halt) -> Status {
        match halt {
            Halt::NoMemory => Status::NoMemory,
            Halt::Source => Status::Source,
            Halt::Sink => Status::Sink,
            Halt::Long => Status::Long,
            Halt::Disk => Status::Disk,
            Halt::Full { log, payload } => Status::Full { log, payload },
            Halt::Differs(differs) => Status::Damaged(Damage::Differs(differs)),
        }
    }
}

impl From<OpenError> for Status {
    ghost use Rattle.std.specs.Prelude.{◌≡◌};
    ghost use Rattle.arn_session.specs.Status.{open_status_of};

    ghost from_gives = { λ error status. status ≡ open_status_of error };

    fn from(error: OpenError) -> Status {
        match error {
            OpenError::TooLong { len } => Status::Damaged(Damage::TooLong { len }),
            OpenError::NotLog { at } => Status::Damaged(Damage::NotLog { at }),
            OpenError::Malformed { at } => Status::Damaged(Damage::Malformed { at }),
            OpenError::Disk => Status::Disk,
            OpenError::NoMemory => Status::NoMemory,
        }
    }
}
