// A member that begins without a parent.
ghost use Rattle.std.specs.Prelude.{◌≡◌, ◌<◌, ◌≤◌, ◌+◌, ◌^◌, None, IfOk};
ghost use Rattle.taint_spans.specs.Numbered.{StandAsBefore};
ghost use Rattle.taint_events.specs.Beginning.{AreItemsFrom, AreItemsOfRow, BeginsRegisters, Counts, CountsRegister};

use arn_base::NoMemory;
use parts_model::limits::{WINDOW_LEN, WINDOW_START};
use rv64_isa::Reg;
use std::alloc::Global;
use taint_members::{NewMember, clear_result};
use taint_pages::{Row, SetNumbers, Unset};
use taint_spans::SpanSets;

/// How many pages a private window has.
const WINDOW_PAGES: usize = 64;

/// How many bytes 31 registers have.
const REGISTER_BYTES: u32 = 248;

/// The bytes of a register have the numbers from one on.
fn count_register(row: &mut Row, reg: Reg, first: u32)
    requires above { 0 < reg }
    requires fits { first + 8 ≤ 2 ^ 32 }
    ensures { CountsRegister reg first row.old row.new }
{
    for byte in 0..8 {
        row.set(reg, byte, first + u32::from(byte));
    }
}

/// Registers whose bytes have the numbers from one on.
fn count_row(alloc: Global, first: u32) -> Result<Row, NoMemory>
    requires { first + 248 ≤ 2 ^ 32 }
    ensures { IfOk result (Counts first) }
{
    let mut row = Row::new(alloc)?;
    for below in 0..31 {
        if let Some(reg) = Reg::new(below + 1) {
            count_register(&mut row, reg, first + 8 * u32::from(below));
        }
    }
    Ok(row)
}

/// A member that begins without a parent: each byte is an item by itself, but for x10.
pub fn begun(alloc: Global, sets: &mut SpanSets, event: u64) -> Result<NewMember, NoMemory>
    ensures registers { IfOk result (λ member. BeginsRegisters sets.new event member.registers) }
    ensures slot { IfOk result (λ member. AreItemsOfRow sets.new event 248 member.slot) }
    ensures window { IfOk result (λ member. AreItemsFrom sets.new event member.window) }
    ensures segment { IfOk result (λ member. member.segment ≡ None) }
    ensures before { StandAsBefore sets.old sets.new }
{
    let first = sets.receive(event, 0, 2 * REGISTER_BYTES as usize)?;
    let start = sets.receive(event, WINDOW_START, WINDOW_LEN as usize)?;
    let mut registers = count_row(alloc, first)?;
    clear_result(&mut registers);
    Ok(NewMember {
        registers,
        slot: count_row(alloc, first + REGISTER_BYTES)?,
        window: SetNumbers::new(alloc, WINDOW_PAGES, Unset::From(start))?,
        segment: None,
    })
}
