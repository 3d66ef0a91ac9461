// Statements of a form.
ghost use Rattle.std.specs.Prelude.{◌≡◌};
ghost use Rattle.asm_text.specs.Names.{register_of};
ghost use Rattle.asm_text.specs.Numbers.{number_of};
ghost use Rattle.asm_text.specs.Statements as statement;
ghost use Rattle.asm_text.specs.Pieces.{KeepsStatement, KeepsTwo, KeepsWithLabel};
ghost use Rattle.asm_text.specs.Pieces.{KeepsWithNumber, KeepsWithOffset};

use crate::form::Form;
use crate::numbers::number_of;
use crate::operands::{Offset, are_numbers, label_of, offset_of, one, three, two};
use crate::registers::register_of;
use crate::statement::{Number, Statement};
use rv64_isa::{BranchOp, ImmOp, Instr, Reg, RegOp};

/// FENCE for all reads and writes, of memory and of devices.
const FENCE: u32 = 0x0ff0_000f;

fn zero() -> Reg
    ensures { result ≡ 0 }
{
    match Reg::new(0) {
        Some(register) => register,
        None => unreachable!(),
    }
}

// `rd, imm`
fn with_number(text: &[u8]) -> Option<(Reg, Number)>
    ensures { KeepsWithNumber result (statement.operands text.now) }
{
    let (register, number) = two(text)?;
    let register = register_of(register)?;
    let number = number_of(number)?;
    Some((register, number))
}

// `rd, label`
fn with_label(text: &[u8]) -> Option<(Reg, &[u8])>
    ensures { KeepsWithLabel result (statement.operands text.now) }
{
    let (register, label) = two(text)?;
    let register = register_of(register)?;
    let label = label_of(label)?;
    Some((register, label))
}

// `rd, imm(rs1)`
fn with_offset(text: &[u8]) -> Option<(Reg, Offset)>
    ensures { KeepsWithOffset result (statement.operands text.now) }
{
    let (register, offset) = two(text)?;
    let register = register_of(register)?;
    let offset = offset_of(offset)?;
    Some((register, offset))
}

fn registers(first: &[u8], second: &[u8]) -> Option<(Reg, Reg)>
    ensures { KeepsTwo result first.now second.now }
{
    let first = register_of(first)?;
    let second = register_of(second)?;
    Some((first, second))
}

fn branch(op: BranchOp, text: &[u8]) -> Option<Statement<'_>>
    ensures { KeepsStatement result
        (statement.with_third (statement.Branch op) statement.label_of
        (statement.operands text.now)) }
{
    let (first, second, label) = three(text)?;
    let label = label_of(label)?;
    let (rs1, rs2) = registers(first, second)?;
    Some(Statement::Branch {
        op,
        rs1,
        rs2,
        label,
    })
}

fn with_immediate(op: ImmOp, text: &[u8]) -> Option<Statement<'_>>
    ensures { KeepsStatement result
        (statement.with_third (statement.Imm op) number_of (statement.operands text.now)) }
{
    let (first, second, number) = three(text)?;
    let imm = number_of(number)?;
    let (rd, rs1) = registers(first, second)?;
    Some(Statement::Imm { op, rd, rs1, imm })
}

fn of_registers(op: RegOp, text: &[u8]) -> Option<Statement<'_>>
    ensures { KeepsStatement result
        (statement.with_third (λ r s t. statement.Plain (Instr.Op op r s t)) register_of
        (statement.operands text.now)) }
{
    let (first, second, third) = three(text)?;
    let rs2 = register_of(third)?;
    let (rd, rs1) = registers(first, second)?;
    Some(Statement::Plain {
        instr: Instr::Op { op, rd, rs1, rs2 },
    })
}

// A statement without operands.
fn alone(instr: Instr, text: &[u8]) -> Option<Statement<'_>>
    ensures { KeepsStatement result
        (statement.alone (statement.Plain instr) (statement.operands text.now)) }
{
    if text.is_empty() {
        Some(Statement::Plain { instr })
    } else {
        None
    }
}

fn moved(text: &[u8]) -> Option<Statement<'_>>
    ensures { KeepsStatement result (statement.moved (statement.operands text.now)) }
{
    let (first, second) = two(text)?;
    let (rd, rs1) = registers(first, second)?;
    Some(Statement::Imm {
        op: ImmOp::Addi,
        rd,
        rs1,
        imm: Number::Small { value: 0 },
    })
}

fn jumped(text: &[u8]) -> Option<Statement<'_>>
    ensures { KeepsStatement result (statement.jumped (statement.operands text.now)) }
{
    let label = label_of(one(text)?)?;
    Some(Statement::Jal { rd: zero(), label })
}

fn listed(text: &[u8]) -> Option<Statement<'_>>
    ensures { KeepsStatement result (statement.listed (statement.operands text.now)) }
{
    if text.is_empty() || !are_numbers(text) {
        return None;
    }
    Some(Statement::Bytes { operands: text })
}

fn counted(text: &[u8]) -> Option<Statement<'_>>
    ensures { KeepsStatement result (statement.counted (statement.operands text.now)) }
{
    let count = number_of(one(text)?)?;
    Some(Statement::Zeros { count })
}

// The statement that a form makes with the operands of the text.
pub(crate) fn formed(form: Form, text: &[u8]) -> Option<Statement<'_>>
    ensures { KeepsStatement result (statement.formed form (statement.operands text.now)) }
{
    match form {
        Form::Lui => {
            let (rd, imm) = with_number(text)?;
            Some(Statement::Lui { rd, imm })
        }
        Form::Auipc => {
            let (rd, imm) = with_number(text)?;
            Some(Statement::Auipc { rd, imm })
        }
        Form::Jal => {
            let Some((rd, label)) = with_label(text) else {
                return None;
            };
            Some(Statement::Jal { rd, label })
        }
        Form::Jalr => {
            let (rd, Offset { imm, register: rs1 }) = with_offset(text)?;
            Some(Statement::Jalr { rd, rs1, imm })
        }
        Form::Branch(op) => branch(op, text),
        Form::Load(op) => {
            let (rd, Offset { imm, register: rs1 }) = with_offset(text)?;
            Some(Statement::Load { op, rd, rs1, imm })
        }
        Form::Store(op) => {
            let (rs2, Offset { imm, register: rs1 }) = with_offset(text)?;
            Some(Statement::Store { op, rs1, rs2, imm })
        }
        Form::Imm(op) => with_immediate(op, text),
        Form::Op(op) => of_registers(op, text),
        Form::Fence => alone(Instr::Fence { word: FENCE }, text),
        Form::Ecall => alone(Instr::Ecall, text),
        Form::Ebreak => alone(Instr::Ebreak, text),
        Form::Li => {
            let (rd, imm) = with_number(text)?;
            Some(Statement::Imm {
                op: ImmOp::Addi,
                rd,
                rs1: zero(),
                imm,
            })
        }
        Form::Mv => moved(text),
        Form::J => jumped(text),
        Form::La => {
            let Some((rd, label)) = with_label(text) else {
                return None;
            };
            Some(Statement::Address { rd, label })
        }
        Form::Byte => listed(text),
        Form::Zero => counted(text),
    }
}
