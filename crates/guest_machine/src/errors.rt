// Why a machine refuses what comes from outside.
ghost use Rattle.std.specs.Prelude.{◌≡◌};
ghost use Rattle.guest_machine.specs.declared.errors.MachineError.TheVariants as machine_error;

use arn_base::NoMemory;
use guest_calls::BootError;
use guest_files::FileError;
use std::alloc::AllocError;
use thiserror::Error;

/// Why a machine refuses what comes from outside.
#[derive(Clone, Copy, Debug, PartialEq, Eq, Error)]
pub enum MachineError {
    #[error("the machine is booted")]
    Booted,
    #[error("the machine isn't booted")]
    NotBooted,
    #[error("there is no such file, or there can't be one of this name")]
    NoName,
    #[error("the file is no image")]
    NotImage,
    #[error("there is no such device")]
    NoDevice,
    #[error("out of memory")]
    NoMemory,
}

impl From<NoMemory> for MachineError {
    ghost from_gives = { λ _ e. e ≡ machine_error.NoMemory };

    fn from(_: NoMemory) -> MachineError {
        MachineError::NoMemory
    }
}

impl From<AllocError> for MachineError {
    ghost from_gives = { λ _ e. e ≡ machine_error.NoMemory };

    fn from(_: AllocError) -> MachineError {
        MachineError::NoMemory
    }
}

impl From<FileError> for MachineError {
    ghost use Rattle.guest_machine.specs.Refusals.{of_file};

    ghost from_gives = { λ error e. e ≡ of_file error };

    fn from(error: FileError) -> MachineError {
        match error {
            FileError::NoFile | FileError::Exists | FileError::TooMany | FileError::TooLong => {
                MachineError::NoName
            }
            FileError::NoMemory => MachineError::NoMemory,
        }
    }
}

impl From<BootError> for MachineError {
    ghost use Rattle.guest_machine.specs.Refusals.{as_machine_error};

    ghost from_gives = { λ error e. e ≡ as_machine_error error };

    fn from(error: BootError) -> MachineError {
        match error {
            BootError::NoName => MachineError::NoName,
            BootError::NotImage => MachineError::NotImage,
            BootError::NoMemory => MachineError::NoMemory,
        }
    }
}
