// Loads and stores.
ghost use Rattle.std.specs.Prelude.{◌≡◌, ◌≢◌, ◌<◌, ◌*◌, ◌^◌, ◌↔◌, ℕ, IsTrue, IsSome, IsNone, Err, OnOk, OnErr, option_map};
ghost use Rattle.std.specs.Result.{result_ok};
ghost use Rattle.arn_base.specs.Window.{bytes_at, bytes_of, number_at, with_bytes};
ghost use Rattle.rv64_isa.specs.declared.instruction.Instr.{Instr};
ghost use Rattle.rv64_model.specs.Instruction.{loads, stores};
ghost use Rattle.rv64_model.specs.Operands.{store_len as store_len_of, stored_len};
ghost use Rattle.rv64_model.specs.Values.{load_len as load_len_of, load_result as load_result_of};
ghost use Rattle.rv64_core.specs.Outcome.{Tells, OnStop};
ghost use Rattle.rv64_core.specs.Prospect.{Foretells};

use crate::flow::{go_on, go_on_ahead, write, write_ahead};
use crate::outcome::{Outcome, Prospect};
use arn_base::{BadAddress, Cpu, Memory, StoreError};
use rv64_isa::{Instr, LoadOp, Reg, StoreOp};
use rv64_model::statuses::BAD_ACCESS;
use rv64_model::{load_len, store_len};

// Loads a register from an address.
#[inline(always)]
pub(crate) fn load<M: Memory>(op: LoadOp, rd: Reg, at: u64, cpu: &mut Cpu, mem: &M) -> Outcome
    ensures effect { (instr : Instr) → let memory = M.windows mem.now in
        let value = option_map (load_result_of op) (number_at memory at (load_len_of op)) in
        Tells result (loads instr cpu.old memory rd value) cpu.new memory }
    ensures cpu { OnStop result (cpu.new ≡ cpu.old) }
    ensures no_memory { result ≢ Outcome.NoMemory }
{
    match loaded(op, at, mem) {
        Ok(value) => write(cpu, rd, value),
        Err(_) => Outcome::End(BAD_ACCESS),
    }
}

// The value of a register after a load. Each access has a length that is constant, so that it can
// be compiled to one load.
#[inline(always)]
fn loaded<M: Memory>(op: LoadOp, at: u64, mem: &M) -> Result<u64, BadAddress>
    ensures { result_ok result ≡
        option_map (load_result_of op) (number_at (M.windows mem.now) at (load_len_of op)) }
{
    Ok(match op {
        LoadOp::Lb => i64::from((mem.load(at, 1)? as u8).cast_signed()).cast_unsigned(),
        LoadOp::Lh => i64::from((mem.load(at, 2)? as u16).cast_signed()).cast_unsigned(),
        LoadOp::Lw => i64::from((mem.load(at, 4)? as u32).cast_signed()).cast_unsigned(),
        LoadOp::Ld => mem.load(at, 8)?,
        LoadOp::Lbu => mem.load(at, 1)?,
        LoadOp::Lhu => mem.load(at, 2)?,
        LoadOp::Lwu => mem.load(at, 4)?,
    })
}

// The same by one load, whatever the operation, so that what looks ahead is small enough to be
// compiled into a loop.
#[inline(always)]
fn loaded_by_len<M: Memory>(op: LoadOp, at: u64, mem: &M) -> Result<u64, BadAddress>
    ensures { result_ok result ≡
        option_map (load_result_of op) (number_at (M.windows mem.now) at (load_len_of op)) }
{
    let number = mem.load(at, load_len(op))?;
    Ok(load_result(op, number))
}

// The value of a register after a load of this number.
#[inline(always)]
fn load_result(op: LoadOp, number: u64) -> u64
    requires { number < 2 ^ (8 * load_len_of op) }
    ensures { result ≡ load_result_of op number }
{
    match op {
        LoadOp::Lb => i64::from((number as u8).cast_signed()).cast_unsigned(),
        LoadOp::Lh => i64::from((number as u16).cast_signed()).cast_unsigned(),
        LoadOp::Lw => i64::from((number as u32).cast_signed()).cast_unsigned(),
        LoadOp::Ld | LoadOp::Lbu | LoadOp::Lhu | LoadOp::Lwu => number,
    }
}

// Stores the low bytes of a value at an address.
#[inline(always)]
pub(crate) fn store<M: Memory>(
    op: StoreOp,
    at: u64,
    value: u64,
    cpu: &mut Cpu,
    mem: &mut M,
) -> Outcome
    ensures effect { (instr : Instr) → 0 < stored_len instr →
        Tells result (stores instr cpu.old (M.windows mem.old) at (store_len_of op) value)
        cpu.new (M.windows mem.new) }
    ensures cpu { OnStop result (cpu.new ≡ cpu.old) }
    ensures memory { OnStop result (M.windows mem.new ≡ M.windows mem.old) }
    ensures no_memory { (result ≡ Outcome.NoMemory) → IsTrue (M.wants_memory mem.old) }
{
    match put(op, at, value, mem) {
        Ok(()) => go_on(cpu),
        Err(StoreError::BadAddress) => Outcome::End(BAD_ACCESS),
        Err(StoreError::NoMemory) => Outcome::NoMemory,
    }
}

// The memory after a store. Each access has a length that is constant.
#[inline(always)]
pub(crate) fn put<M: Memory>(
    op: StoreOp,
    at: u64,
    value: u64,
    mem: &mut M,
) -> Result<(), StoreError>
    ensures ok { OnOk result (M.windows mem.new ≡
        with_bytes (M.windows mem.old) at (bytes_of (store_len_of op) value)) }
    ensures whole { OnOk result (IsSome (bytes_at (M.windows mem.old) at (store_len_of op))) }
    ensures bad_address { (result ≡ Err StoreError.BadAddress) ↔
        IsNone (bytes_at (M.windows mem.old) at (store_len_of op)) }
    ensures no_memory { (result ≡ Err StoreError.NoMemory) → IsTrue (M.wants_memory mem.old) }
    ensures err { OnErr result (M.windows mem.new ≡ M.windows mem.old) }
{
    match op {
        StoreOp::Sb => mem.store(at, 1, value),
        StoreOp::Sh => mem.store(at, 2, value),
        StoreOp::Sw => mem.store(at, 4, value),
        StoreOp::Sd => mem.store(at, 8, value),
    }
}

// What a load would come to.
#[inline(always)]
pub(crate) fn load_ahead<M: Memory>(
    instr: Instr,
    op: LoadOp,
    rd: Reg,
    at: u64,
    cpu: &Cpu,
    mem: &M,
) -> Prospect
    ensures { let memory = M.windows mem.now in
        let value = option_map (load_result_of op) (number_at memory at (load_len_of op)) in
        Foretells result cpu.now (loads instr cpu.now memory rd value) }
{
    match loaded_by_len(op, at, mem) {
        Ok(value) => write_ahead(instr, cpu, rd, value),
        Err(_) => Prospect::End(BAD_ACCESS),
    }
}

// What a store would come to. It takes effect exactly where its bytes could be loaded.
#[inline(always)]
pub(crate) fn store_ahead<M: Memory>(
    instr: Instr,
    op: StoreOp,
    at: u64,
    cpu: &Cpu,
    mem: &M,
) -> Prospect
    ensures { (value : ℕ) → Foretells result cpu.now
        (stores instr cpu.now (M.windows mem.now) at (store_len_of op) value) }
{
    match mem.load(at, store_len(op)) {
        Ok(_) => go_on_ahead(instr, cpu),
        Err(_) => Prospect::End(BAD_ACCESS),
    }
}
