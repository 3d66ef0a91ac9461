// Many instructions, one behind the other.
ghost use Rattle.std.specs.Prelude.{◌≡◌, ◌+◌};
ghost use Rattle.rv64_model.specs.Instruction.{instruction};
ghost use Rattle.guest_bodies.specs.Running.{LeadsMany, StopsAt, stop_count};

use arn_base::{Cpu, Memory, Steps};
use rv64_core::{Decoder, Outcome, step_with};
use std::sync::ledger::Ledger;

/// How many instructions ran that the next one follows, and what comes behind them: the next one where
/// all ran that might.
#[derive(Clone, Copy)]
pub struct Stood {
    pub ran: u32,
    pub outcome: Outcome,
}

/// Runs up to so many instructions that the next one follows, and counts them. It stops before a store
/// that finds no memory.
#[inline(never)]
pub fn run<M: Memory, L: Ledger>(
    cpu: &mut Cpu,
    memory: &mut M,
    count: u32,
    decoder: &mut Decoder,
    steps: &mut Steps<L>,
) -> Stood
    ensures tick { steps.new ≡ steps.old + result.ran + stop_count result.outcome }
    ensures many { LeadsMany M.windows result.ran cpu.old memory.old cpu.new memory.new }
    ensures stops { StopsAt result.outcome result.ran count
        (instruction cpu.new (M.windows memory.new)) }
{
    for ran in 0..count {
        match step_with(cpu, memory, decoder, steps) {
            Outcome::Next => {}
            outcome => return Stood { ran, outcome },
        }
    }
    Stood {
        ran: count,
        outcome: Outcome::Next,
    }
}
