// The registers x0 to x31 over the 31 that are held.
ghost use Rattle.std.specs.Prelude.{◌≡◌};
ghost use Rattle.rv64_model.specs.Registers.{register as value_of, with_register};

use arn_base::Cpu;
use rv64_isa::Reg;

#[inline(always)]
pub(crate) fn register(cpu: &Cpu, reg: Reg) -> u64
    ensures { result ≡ value_of cpu.now reg }
{
    match usize::from(reg.number()) {
        0 => 0,
        number => cpu.x[number - 1],
    }
}

// A write to x0 is lost.
#[inline(always)]
pub(crate) fn set_register(cpu: &mut Cpu, reg: Reg, value: u64)
    ensures { cpu.new ≡ with_register cpu.old reg value }
{
    match usize::from(reg.number()) {
        0 => {}
        number => cpu.x[number - 1] = value,
    }
}
