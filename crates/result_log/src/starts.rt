// How a process starts that a fork made: its registers, the saved ones, and blocks of its window. The
// clauses `fits` say that numbers and arrays are of the sizes of their types.
ghost use Rattle.std.specs.Prelude.{◌≡◌, ◌%◌, ◌<◌, ◌++◌, List, ℕ, Option, length, flat_map, All, IfOk, IfSome, IfNone, OnOk, OnErr};
ghost use Rattle.schedule_log.specs.Fields.{LeavesFront};
ghost use Rattle.result_log.specs.States.{block_fields, blocks_fields, cpu_fields, registers_fields, slot_fields, start_fields, BeginsBlocks, BeginsCpu, BeginsRegisters, BeginsSlot, BeginsStart, FitsBlock, FitsCpu, FitsSlot, FitsStart, AreRegisters, StartHasSpelling};

use arn_base::{Block, Blocks, Cpu, NoMemory, Start};
use schedule_log::fields::{put_flag, put_u16, put_u64};
use schedule_log::fields_spelled_one_way;
use schedule_log::split::{split_flag, split_u16, split_u64};
use std::alloc::Global;

// How many registers a processor has beside x0.
pub(crate) const REGISTERS: usize = 31;

// How many bytes a block takes, with its number.
pub(crate) const BLOCK_LEN: usize = 258;

fn put_registers(out: &mut Vec<u8>, registers: &[u64; REGISTERS]) -> Result<(), NoMemory>
    ensures ok { OnOk result (out.new.items ≡ out.old.items ++ registers_fields registers.now) }
    ensures fits { AreRegisters registers.now }
    ensures err { OnErr result (LeavesFront out.old.items out.new.items) }
{
    for register in registers {
        put_u64(out, *register)?;
    }
    Ok(())
}

fn put_cpu(out: &mut Vec<u8>, cpu: &Cpu) -> Result<(), NoMemory>
    ensures ok { OnOk result (out.new.items ≡ out.old.items ++ cpu_fields cpu.now) }
    ensures fits { FitsCpu cpu.now }
    ensures err { OnErr result (LeavesFront out.old.items out.new.items) }
{
    let pc = cpu.pc;
    put_registers(out, &cpu.x)?;
    put_u64(out, pc)
}

fn put_slot(out: &mut Vec<u8>, slot: &Option<Cpu>) -> Result<(), NoMemory>
    ensures ok { OnOk result (out.new.items ≡ out.old.items ++ slot_fields slot.now) }
    ensures fits { OnOk result (FitsSlot slot.now) }
    ensures err { OnErr result (LeavesFront out.old.items out.new.items) }
{
    put_flag(out, slot.is_some())?;
    match slot {
        Some(cpu) => put_cpu(out, cpu),
        None => Ok(()),
    }
}

fn put_page(out: &mut Vec<u8>, page: &[u8; 256]) -> Result<(), NoMemory>
    ensures ok { OnOk result (out.new.items ≡ out.old.items ++ page.now) }
    ensures fits { length page.now ≡ 256 }
    ensures err { OnErr result (out.new.items ≡ out.old.items) }
{
    Ok(out.extend_from_slice(page)?)
}

fn put_block(out: &mut Vec<u8>, block: &Block) -> Result<(), NoMemory>
    ensures ok { OnOk result (out.new.items ≡ out.old.items ++ block_fields block.now) }
    ensures fits { OnOk result (FitsBlock block.now) }
    ensures err { OnErr result (LeavesFront out.old.items out.new.items) }
{
    let number = block.number;
    put_u16(out, number)?;
    put_page(out, &block.bytes)
}

fn put_blocks(out: &mut Vec<u8>, blocks: &[Block]) -> Result<(), NoMemory>
    requires { length blocks.now < 65_536 }
    ensures ok { OnOk result (out.new.items ≡ out.old.items ++ blocks_fields blocks.now) }
    ensures fits { OnOk result (All FitsBlock blocks.now) }
    ensures err { OnErr result (LeavesFront out.old.items out.new.items) }
{
    put_u16(out, blocks.len() as u16)?;
    for block in blocks {
        put_block(out, block)?;
    }
    Ok(())
}

pub(crate) fn put_start(out: &mut Vec<u8>, start: &Start) -> Result<(), NoMemory>
    requires { StartHasSpelling start.now }
    ensures ok { OnOk result (out.new.items ≡ out.old.items ++ start_fields start.now) }
    ensures fits { OnOk result (FitsStart start.now) }
    ensures err { OnErr result (LeavesFront out.old.items out.new.items) }
{
    put_cpu(out, &start.cpu)?;
    put_slot(out, &start.slot)?;
    put_blocks(out, start.blocks.as_slice())
}

fn split_registers(bytes: &[u8]) -> Option<([u64; REGISTERS], &[u8])>
    ensures some { IfSome result (λ found. BeginsRegisters bytes.now found.0 found.1.now) }
    ensures none { IfNone result (length bytes.now < 248) }
{
    let mut registers = [0; REGISTERS];
    let mut left = bytes;
    for register in &mut registers {
        let (number, rest) = split_u64(left)?;
        *register = number;
        left = rest;
    }
    Some((registers, left))
}

fn split_cpu(bytes: &[u8]) -> Option<(Cpu, &[u8])>
    ensures some { IfSome result (λ found. BeginsCpu bytes.now found.0 found.1.now) }
    ensures none { IfNone result (length bytes.now < 256) }
{
    let (x, behind) = split_registers(bytes)?;
    let (pc, rest) = split_u64(behind)?;
    Some((Cpu { x, pc }, rest))
}

fn split_slot(bytes: &[u8]) -> Option<(Option<Cpu>, &[u8])>
    ensures some { IfSome result (λ found. BeginsSlot bytes.now found.0 found.1.now) }
    ensures none { IfNone result ((slot : Option Cpu) (rest : List ℕ) →
        ¬ BeginsSlot bytes.now slot rest) }
{
    let (is_some, behind) = split_flag(bytes)?;
    if !is_some {
        return Some((None, behind));
    }
    let (cpu, rest) = split_cpu(behind)?;
    Some((Some(cpu), rest))
}

// The fields of all blocks stay together, to be read when the whole record was found.
fn split_blocks(bytes: &[u8]) -> Option<(&[u8], &[u8])>
    ensures some { IfSome result (λ found. BeginsBlocks bytes.now found.0.now found.1.now) }
    ensures none { IfNone result ((fields rest : List ℕ) → ¬ BeginsBlocks bytes.now fields rest) }
{
    let (count, behind) = split_u16(bytes)?;
    behind.split_at_checked(usize::from(count) * BLOCK_LEN)
}

// The parts of a start, and what stands behind them.
pub(crate) struct Parts<'a> {
    pub(crate) cpu: Cpu,
    pub(crate) slot: Option<Cpu>,
    pub(crate) blocks: &'a [u8],
    pub(crate) rest: &'a [u8],
}

pub(crate) fn split_start(bytes: &[u8]) -> Option<Parts<'_>>
    ensures some { IfSome result (λ found.
        BeginsStart bytes.now found.cpu found.slot found.blocks.now found.rest.now) }
    ensures none { IfNone result ((cpu : Cpu) (slot : Option Cpu) (fields rest : List ℕ) →
        ¬ BeginsStart bytes.now cpu slot fields rest) }
{
    fields_spelled_one_way();
    let (cpu, behind) = split_cpu(bytes)?;
    let (slot, behind) = split_slot(behind)?;
    let (blocks, rest) = split_blocks(behind)?;
    Some(Parts {
        cpu,
        slot,
        blocks,
        rest,
    })
}

fn split_page(bytes: &[u8]) -> Option<([u8; 256], &[u8])>
    ensures some { IfSome result (λ found. bytes.now ≡ found.0 ++ found.1.now) }
    ensures long { IfSome result (λ found. length found.0 ≡ 256) }
    ensures none { IfNone result (length bytes.now < 256) }
{
    let (page, rest) = bytes.split_first_chunk::<256>()?;
    Some((*page, rest))
}

fn split_block(bytes: &[u8]) -> Option<(Block, &[u8])>
    ensures some { IfSome result (λ found. bytes.now ≡ block_fields found.0 ++ found.1.now) }
    ensures fits { IfSome result (λ found. FitsBlock found.0) }
    ensures none { IfNone result (length bytes.now < BLOCK_LEN) }
{
    let (number, behind) = split_u16(bytes)?;
    let (bytes, rest) = split_page(behind)?;
    Some((Block { number, bytes }, rest))
}

pub(crate) fn read_blocks(alloc: Global, fields: &[u8]) -> Result<Blocks, NoMemory>
    requires { length fields.now % BLOCK_LEN ≡ 0 }
    ensures read { IfOk result (λ blocks. flat_map block_fields blocks ≡ fields.now) }
    ensures fits { IfOk result (λ blocks. All FitsBlock blocks) }
{
    let mut blocks = Blocks::new(alloc);
    let mut left = fields;
    while let Some((block, rest)) = split_block(left) {
        blocks.push(block)?;
        left = rest;
    }
    Ok(blocks)
}
