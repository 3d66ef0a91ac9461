ghost use Rattle.std.specs.Prelude.{◌≡◌};
ghost use Rattle.guest_asm.specs.declared.fault.AsmError.TheVariants as error;

use arn_base::NoMemory;
use asm_text::AsmKind;
use thiserror::Error;

/// Why a text is no program: the number of the first faulty line, from 1, and what is wrong with
/// it.
#[derive(Clone, Copy, Debug, PartialEq, Eq, Error)]
pub enum AsmError {
    #[error("line {line} is faulty")]
    Fault { line: u64, kind: AsmKind },
    #[error("out of memory")]
    NoMemory,
}

impl From<NoMemory> for AsmError {
    ghost from_gives = { λ _ e. e ≡ error.NoMemory };

    fn from(_: NoMemory) -> AsmError {
        AsmError::NoMemory
    }
}
