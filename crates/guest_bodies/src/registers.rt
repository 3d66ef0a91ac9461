// What a call, a handler and a start do to registers.
ghost use Rattle.std.specs.Prelude.{◌≡◌, ◌≤◌};
ghost use Rattle.rv64_model.specs.Registers.{with_register};
ghost use Rattle.acts_model.specs.Acts.{cut_off};
ghost use Rattle.acts_model.specs.Views.{cpu_at_start, returned};

use arn_base::Cpu;
use parts_model::limits::{WINDOW_END, WINDOW_LEN};
use parts_model::refusals::INTERRUPTED;

/// Behind a call: x10 is its result.
pub fn set_result(cpu: &mut Cpu, answer: u64)
    ensures { cpu.new ≡ returned cpu.old answer }
{
    cpu.x[9] = answer;
    cpu.pc = cpu.pc.wrapping_add(4);
}

/// Behind the call that a delivery has ended, if it did.
pub fn cut_off(cpu: &mut Cpu, cut: bool)
    ensures { cpu.new ≡ cut_off cut cpu.old }
{
    if cut {
        set_result(cpu, INTERRUPTED.wrapping_neg());
    }
}

/// At a handler's first instruction: x10 is the signal.
pub fn enter(cpu: &mut Cpu, signal: u8, handler: u64)
    ensures { cpu.new ≡ record (with_register cpu.old 10 signal) { pc = handler } }
{
    cpu.x[9] = signal as u64;
    cpu.pc = handler;
}

/// Those of the child of a fork: behind the call, with result 0.
pub fn of_child(parent: &Cpu) -> Cpu
    ensures { result ≡ returned parent.now 0 }
{
    let mut cpu = *parent;
    set_result(&mut cpu, 0);
    cpu
}

/// At the start of an image, with an argument block of so many bytes at the window's end.
pub fn at_start(entry: u64, len: u64) -> Cpu
    requires { len ≤ WINDOW_LEN }
    ensures { result ≡ cpu_at_start entry len }
{
    let at = WINDOW_END - len;
    let mut x = [0; 31];
    x[9] = at;
    x[10] = len;
    x[1] = at - at % 16;
    Cpu { x, pc: entry }
}
