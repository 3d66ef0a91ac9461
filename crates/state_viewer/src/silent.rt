// Who is told of a replay, and keeps nothing.
ghost use Rattle.std.specs.Prelude.{◌≡◌};

use acts_model::Observer;
use arn_base::{Cpu, NoMemory, Record};
use rv64_isa::Instr;

/// Keeps nothing of what it is told.
#[derive(Clone, Copy)]
pub struct Silent;

impl Observer for Silent {
    ghost use Rattle.std.specs.Prelude.{⊤};

    ghost begins = { λ _ _ _ _ _. ⊤ };

    ghost runs = { λ _ _ _ _ _. ⊤ };

    ghost hears = { λ _ _ _ _ _. ⊤ };

    fn begin(&mut self, _: u32, _: u64, _: Option<u32>) -> Result<(), NoMemory> {
        Ok(())
    }

    fn instruction(&mut self, _: u32, _: &Instr, _: &Cpu) -> Result<(), NoMemory> {
        Ok(())
    }

    fn happened(&mut self, _: u64, _: &Record, _: &Cpu) -> Result<(), NoMemory> {
        Ok(())
    }
}
