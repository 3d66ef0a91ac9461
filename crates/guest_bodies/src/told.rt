// Instructions of which an observer is told.
ghost use Rattle.std.specs.Prelude.{◌≡◌, ◌≤◌, ◌<◌, ◌+◌, IfOk, OnErr};
ghost use Rattle.guest_bodies.specs.Led.{LedFails, LedMany};
ghost use Rattle.guest_bodies.specs.Told.{IsStop};
ghost use Rattle.rv64_model.specs.Instruction.{instruction};

use acts_model::Observer;
use arn_base::{Cpu, Memory, NoMemory, Steps};
use rv64_core::{Decoder, Prospect, execute, next_instr_with};
use rv64_isa::Instr;
use std::sync::ledger::Ledger;

/// A process, and for at most how many instructions it goes on.
#[derive(Clone, Copy)]
pub struct Stretch {
    pub pid: u32,
    pub count: u32,
}

/// Runs so many instructions, or fewer where the next one doesn't follow, and says how many. The
/// observer is told of each before it. The one at which it stops is counted too, and so is one whose
/// store finds no memory, which the observer was told of and which isn't run. There is one of it
/// for each kind of observer and of memory, so that an instruction is compiled into the loop.
#[inline(never)]
pub fn run_told<M: Memory, O: Observer, L: Ledger>(
    cpu: &mut Cpu,
    memory: &mut M,
    stretch: Stretch,
    observer: &mut O,
    decoder: &mut Decoder,
    steps: &mut Steps<L>,
) -> Result<u32, NoMemory>
    ensures told { IfOk result (λ ran. LedMany M.windows O.runs stretch.pid ran
        cpu.old memory.old observer.old cpu.new memory.new observer.new) }
    ensures within { IfOk result (λ ran. ran ≤ stretch.count) }
    ensures stops { IfOk result (λ ran. ran < stretch.count →
        IsStop (instruction cpu.new (M.windows memory.new))) }
    ensures counted { IfOk result (λ ran. ran ≡ stretch.count → steps.new ≡ steps.old + ran) }
    ensures stopped { IfOk result (λ ran. ran < stretch.count → steps.new ≡ steps.old + ran + 1) }
    ensures failed { OnErr result (LedFails M.windows O.runs stretch.pid stretch.count
        cpu.old memory.old observer.old cpu.new memory.new steps.old steps.new) }
    ensures bounded { steps.new ≤ steps.old + stretch.count }
{
    for ran in 0..stretch.count {
        let Prospect::Next(planned) = next_instr_with(cpu, memory, decoder, steps) else {
            return Ok(ran);
        };
        // All arms are the same: what the observer does with each kind of instruction is compiled by
        // itself.
        match planned.instr {
            Instr::Load { .. } => observer.instruction(stretch.pid, &planned.instr, cpu)?,
            Instr::Store { .. } => observer.instruction(stretch.pid, &planned.instr, cpu)?,
            Instr::Imm { .. } => observer.instruction(stretch.pid, &planned.instr, cpu)?,
            Instr::Op { .. } => observer.instruction(stretch.pid, &planned.instr, cpu)?,
            _ => observer.instruction(stretch.pid, &planned.instr, cpu)?,
        }
        execute(&planned, cpu, memory)?;
    }
    Ok(stretch.count)
}
