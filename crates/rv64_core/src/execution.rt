// What instructions do, and what they would do.
ghost use Rattle.std.specs.Prelude.{◌≡◌, ◌<◌, ◌-◌, ◌%◌, IsTrue, OnOk, OnErr};
ghost use Rattle.rv64_model.specs.Instruction.{executed, instruction, Next};
ghost use Rattle.rv64_model.specs.Operands.{accessed as accessed_by, address as address_of, stored_len};
ghost use Rattle.rv64_core.specs.Outcome.{Tells, OnStop};
ghost use Rattle.rv64_core.specs.Prospect.{IsPlanned, Foretells};

use crate::accesses::{load, load_ahead, put, store, store_ahead};
use crate::flow::{branch, branch_ahead, go_on, go_on_ahead, jump, jump_ahead, write, write_ahead};
use crate::outcome::{Outcome, Planned, Prospect};
use crate::registers::{register, set_register};
use crate::values::{imm_result, is_taken, reg_result};
use arn_base::{Cpu, Memory, NoMemory, StoreError};
use rv64_isa::{Instr, Reg};
use rv64_model::statuses::BREAKPOINT;

/// Executes the instruction that `next_instr` planned. It isn't counted, and fails only at a store that
/// finds no memory, which may be tried again.
#[inline(always)]
pub fn execute<M: Memory>(planned: &Planned, cpu: &mut Cpu, mem: &mut M) -> Result<(), NoMemory>
    // It is the instruction at pc, and it takes effect.
    requires { IsPlanned planned.now cpu.old (instruction cpu.old (M.windows mem.old)) }

    // The registers and the memory are those that the manual gives the instruction.
    ensures ok { OnOk result (instruction cpu.old (M.windows mem.old)
        ≡ Next planned.now.instr cpu.new (M.windows mem.new)) }

    // NoMemory comes only at a store, from a memory that wants memory.
    ensures store { OnErr result (0 < stored_len planned.now.instr) }
    ensures no_memory { OnErr result (IsTrue (M.wants_memory mem.old)) }
    ensures err_cpu { OnErr result (cpu.new ≡ cpu.old) }
    ensures err_memory { OnErr result (M.windows mem.new ≡ M.windows mem.old) }
{
    if let Instr::Store { op, rs1, rs2, imm } = planned.instr {
        match put(op, address(cpu, rs1, imm), register(cpu, rs2), mem) {
            Ok(()) => {}
            Err(StoreError::NoMemory) => return Err(NoMemory),
            Err(StoreError::BadAddress) => unreachable!(),
        }
    }
    set_register(cpu, planned.rd, planned.value);
    cpu.pc = planned.pc;
    Ok(())
}

// Lets an instruction take effect.
#[inline(always)]
pub(crate) fn take_effect<M: Memory>(instr: &Instr, cpu: &mut Cpu, mem: &mut M) -> Outcome
    ensures effect { Tells result (executed instr.now cpu.old (M.windows mem.old))
        cpu.new (M.windows mem.new) }
    ensures cpu { OnStop result (cpu.new ≡ cpu.old) }
    ensures memory { OnStop result (M.windows mem.new ≡ M.windows mem.old) }
    ensures no_memory { (result ≡ Outcome.NoMemory) → IsTrue (M.wants_memory mem.old) }
{
    match *instr {
        Instr::Lui { rd, imm } => write(cpu, rd, imm.cast_unsigned()),
        Instr::Auipc { rd, imm } => write(cpu, rd, cpu.pc.wrapping_add_signed(imm)),
        Instr::Jal { rd, imm } => jump(cpu, rd, cpu.pc.wrapping_add_signed(imm)),
        Instr::Jalr { rd, rs1, imm } => jump(cpu, rd, without_bit_0(address(cpu, rs1, imm))),
        Instr::Branch { op, rs1, rs2, imm } => {
            let taken = is_taken(op, register(cpu, rs1), register(cpu, rs2));
            branch(cpu, taken, cpu.pc.wrapping_add_signed(imm))
        }
        Instr::Load { op, rd, rs1, imm } => load(op, rd, address(cpu, rs1, imm), cpu, mem),
        Instr::Store { op, rs1, rs2, imm } => {
            store(op, address(cpu, rs1, imm), register(cpu, rs2), cpu, mem)
        }
        Instr::Imm { op, rd, rs1, imm } => {
            let value = imm_result(op, register(cpu, rs1), imm);
            write(cpu, rd, value)
        }
        Instr::Op { op, rd, rs1, rs2 } => {
            let value = reg_result(op, register(cpu, rs1), register(cpu, rs2));
            write(cpu, rd, value)
        }
        Instr::Fence { .. } => go_on(cpu),
        Instr::Ecall => Outcome::Call,
        Instr::Ebreak => Outcome::End(BREAKPOINT),
    }
}

// What an instruction would come to.
#[inline(always)]
pub(crate) fn look_ahead<M: Memory>(instr: Instr, cpu: &Cpu, mem: &M) -> Prospect
    ensures { Foretells result cpu.now (executed instr cpu.now (M.windows mem.now)) }
{
    match instr {
        Instr::Lui { rd, imm } => write_ahead(instr, cpu, rd, imm.cast_unsigned()),
        Instr::Auipc { rd, imm } => write_ahead(instr, cpu, rd, cpu.pc.wrapping_add_signed(imm)),
        Instr::Jal { rd, imm } => jump_ahead(instr, cpu, rd, cpu.pc.wrapping_add_signed(imm)),
        Instr::Jalr { rd, rs1, imm } => {
            jump_ahead(instr, cpu, rd, without_bit_0(address(cpu, rs1, imm)))
        }
        Instr::Branch { op, rs1, rs2, imm } => {
            let taken = is_taken(op, register(cpu, rs1), register(cpu, rs2));
            branch_ahead(instr, cpu, taken, cpu.pc.wrapping_add_signed(imm))
        }
        Instr::Load { op, rd, rs1, imm } => {
            load_ahead(instr, op, rd, address(cpu, rs1, imm), cpu, mem)
        }
        Instr::Store { op, rs1, imm, .. } => {
            store_ahead(instr, op, address(cpu, rs1, imm), cpu, mem)
        }
        Instr::Imm { op, rd, rs1, imm } => {
            let value = imm_result(op, register(cpu, rs1), imm);
            write_ahead(instr, cpu, rd, value)
        }
        Instr::Op { op, rd, rs1, rs2 } => {
            let value = reg_result(op, register(cpu, rs1), register(cpu, rs2));
            write_ahead(instr, cpu, rd, value)
        }
        Instr::Fence { .. } => go_on_ahead(instr, cpu),
        Instr::Ecall => Prospect::Call,
        Instr::Ebreak => Prospect::End(BREAKPOINT),
    }
}

/// The address at which an instruction accesses the memory, if it is a load or a store.
#[inline(always)]
pub fn accessed(instr: &Instr, cpu: &Cpu) -> Option<u64>
    ensures { result ≡ accessed_by instr.now cpu.now }
{
    match *instr {
        Instr::Load { rs1, imm, .. } | Instr::Store { rs1, imm, .. } => {
            Some(address(cpu, rs1, imm))
        }
        _ => None,
    }
}

// The address of a load or a store, or the target of a jump.
#[inline(always)]
fn address(cpu: &Cpu, rs1: Reg, imm: i64) -> u64
    ensures { result ≡ address_of cpu.now rs1 imm }
{
    register(cpu, rs1).wrapping_add_signed(imm)
}

// The number with bit 0 cleared.
#[inline(always)]
fn without_bit_0(number: u64) -> u64
    ensures { result ≡ number - number % 2 }
{
    number & !1
}
