// Who is told of a replay.
ghost use Rattle.std.specs.Prelude.{ℕ, Option, OnOk};
ghost use Rattle.arn_base.specs.declared.machine.Cpu.{Cpu};
ghost use Rattle.arn_base.specs.declared.records.Record.{Record};
ghost use Rattle.rv64_isa.specs.declared.instruction.Instr.{Instr};

use arn_base::{Cpu, NoMemory, Record};
use rv64_isa::Instr;

/// Is told all that a group of processes does, in order.
pub trait Observer {
    /// From its value before the call to that after it, where a member begins at an event.
    ghost begins: { Self → ℕ → ℕ → Option ℕ → Self → Type 0 };

    /// The same, where a process runs an instruction.
    ghost runs: { Self → ℕ → Instr → Cpu → Self → Type 0 };

    /// The same, where an event happens.
    ghost hears: { Self → ℕ → Record → Cpu → Self → Type 0 };

    /// A member begins: the group's first, before anything else and without a parent, or a child that
    /// joins the group, behind the event that made it.
    fn begin(&mut self, pid: u32, event: u64, parent: Option<u32>) -> Result<(), NoMemory>
        ensures { OnOk result (begins self.old pid event parent self.new) };

    /// A process runs an instruction that the next one follows, with the registers before it.
    fn instruction(&mut self, pid: u32, instr: &Instr, before: &Cpu) -> Result<(), NoMemory>
        ensures { OnOk result (runs self.old pid instr.now before.now self.new) };

    /// A boot, a delivery, a call or an end by fault of a member, with the registers before it. For a
    /// boot these are zeros. The fork that starts the group is told by `begin` alone.
    fn happened(&mut self, event: u64, entry: &Record, before: &Cpu) -> Result<(), NoMemory>
        ensures { OnOk result (hears self.old event entry.now before.now self.new) };
}
