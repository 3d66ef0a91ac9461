// The program of which the generator's processes run copies.
ghost use Rattle.std.specs.Prelude.{◌≡◌, IfOk};
ghost use Rattle.std.specs.String.{string_bytes};
ghost use Rattle.generator.specs.Program.{program_text, rest};

use arn_base::NoMemory;
use std::alloc::Global;

// All of it behind the number of processes.
const REST: &str = "\
; li s0, 0
next: ; li t0, 1; beq s1, t0, last
li a7, 15; ecall; andi s2, a0, 255; srli s3, a0, 8
li a7, 2; ecall; beq a0, zero, child
li a7, 10; mv a0, s2; ecall; j work
child: ; li a7, 10; mv a0, s3; ecall
li a7, 10; mv a0, s0; ecall
mv s0, s2; addi s1, s1, -1; j next
last: ; li s3, 1
work: ; addi s4, sp, -256
read: ; li a7, 11; mv a0, s0; mv a1, s4; li a2, 256; ecall
mv s5, a0; mv t1, s4; add t2, s4, s5
bump: ; lbu t0, 0(t1); addi t0, t0, 1; sb t0, 0(t1); addi t1, t1, 1; bne t1, t2, bump
mv s6, s4
send: ; li a7, 12; mv a0, s3; mv a1, s6; sub a2, t2, s6; ecall
add s6, s6, a0; bne s6, t2, send; j read
";

// The same text, as it is defined.
fn rest() -> &'static str
    ensures { result.now ≡ rest }
{
    REST
}

/// The program's text for so many processes. Each but the last forks the next, and hands it what it
/// read with 1 added to each byte; the last writes to the console.
pub fn program(alloc: Global, processes: u64) -> Result<String, NoMemory>
    ensures { IfOk result (λ text. string_bytes text ≡ program_text processes) }
{
    let mut text = format!(in alloc; "li s1, {processes}")?;
    text.push_str(rest())?;
    Ok(text)
}
