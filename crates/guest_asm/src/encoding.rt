// The bytes of a statement.
ghost use Rattle.std.specs.Prelude.{◌≡◌, ◌++◌, ◌^◌, ◌<◌, ◌≤◌, true, replicate, OnOk, Some, None, ℕ};
ghost use Rattle.std.specs.Prelude.{List, IfSome, ℤ, pos, unsigned_abs, option_to_list};
ghost use Rattle.guest_asm.specs.Meanings as meanings;
ghost use Rattle.rv64_isa.specs.declared.instruction.ImmOp.{ImmOp};
ghost use Rattle.rv64_isa.specs.Valid.{IsImmInRange, IsInRange, IsStep};
ghost use Rattle.rv64_isa.specs.Rows.{imm_row};
ghost use Rattle.rv64_isa.specs.Signed.{FitsIn};
ghost use Rattle.std.specs.List.{flat_map};
ghost use Rattle.asm_text.specs.Seen.{Keeps, Tells};
ghost use Rattle.guest_asm.specs.Encodable.{IsEncodable, IsCodeOf};
ghost use Rattle.asm_text.specs.Statements as says;
ghost use Rattle.arn_base.specs.Window.{bytes_of};

use crate::meanings::{distance, lower_part, upper_part, zeros};
use crate::splitting::push_bytes;
use arn_base::{Bytes, NoMemory};
use asm_text::{Number, Statement};
use rv64_isa::{ImmOp, Instr, Reg, encode};

// Adds the low bytes of a number, the lowest first.
pub(crate) fn push_number(bytes: &mut Bytes, number: u64, len: u8) -> Result<(), NoMemory>
    ensures { OnOk result (bytes.new ≡ bytes.old ++ bytes_of len number) }
{
    let mut rest = number;
    for _ in 0..len {
        bytes.push((rest % 256) as u8)?;
        rest /= 256;
    }
    Ok(())
}

// Adds the word of an instruction.
fn push_instr(bytes: &mut Bytes, instr: &Instr) -> Result<(), NoMemory>
    requires { IsInRange instr.now }
    ensures { OnOk result (bytes.new ≡ bytes.old ++ meanings.code instr.now) }
{
    push_number(bytes, u64::from(encode(instr)), 4)
}

// Adds zeros.
fn push_zeros(bytes: &mut Bytes, count: u64) -> Result<(), NoMemory>
    ensures { OnOk result (bytes.new ≡ bytes.old ++ replicate count 0) }
{
    for _ in 0..count {
        bytes.push(0)?;
    }
    Ok(())
}

/// The one or two instructions of a statement, if it has some.
#[derive(Clone, Copy)]
struct Code {
    first: Option<Instr>,
    second: Option<Instr>,
}

// A number that lies in its field, whichever field that is.
fn value(number: Number) -> i32
    ensures { (n : ℤ) → Tells number n → unsigned_abs n < 2 ^ 31 → result ≡ n }
{
    match number {
        Number::Small { value } if -0x7fff_ffff <= value && value <= 0x7fff_ffff => value as i32,
        _ => 0,
    }
}

// An instruction with the upper 20 bits of a constant.
fn upper_imm(upper: i32) -> i64
    requires { meanings.is_upper upper ≡ true }
    ensures result { result ≡ meanings.upper_imm upper }
    ensures fits { IsStep 32 4096 result }
{
    let upper = i64::from(upper);
    if upper < 0x8_0000 {
        upper * 0x1000
    } else {
        upper * 0x1000 - 0x1_0000_0000
    }
}

fn one(instr: Instr) -> Code
    ensures { result ≡ record { first = Some instr; second = None } }
{
    Code {
        first: Some(instr),
        second: None,
    }
}

// The upper 20 bits of a constant.
fn with_upper(imm: Number) -> i64
    ensures result { (n : ℤ) → Tells imm n → meanings.is_upper n ≡ true →
        result ≡ meanings.upper_imm n }
    ensures fits { (n : ℤ) → Tells imm n → meanings.is_upper n ≡ true → IsStep 32 4096 result }
{
    match value(imm) {
        upper @ 0..=0xf_ffff => upper_imm(upper),
        _ => 0,
    }
}

fn with_short(imm: Number) -> i64
    ensures { (n : ℤ) → Tells imm n → meanings.is_short n ≡ true →
        (result ≡ n) × FitsIn 12 result }
{
    i64::from(value(imm))
}

fn with_immediate(imm: Number) -> i64
    ensures { (op : ImmOp) (n : ℤ) → Tells imm n → meanings.is_immediate op n ≡ true →
        (result ≡ n) × IsImmInRange (imm_row op).form result }
{
    i64::from(value(imm))
}

// The upper 20 bits of an address.
fn address_upper(address: u64) -> i64
    requires { address < 2 ^ 32 }
    ensures result { meanings.is_upper (pos (meanings.upper_part address)) ≡ true →
        result ≡ meanings.upper_imm (pos (meanings.upper_part address)) }
    ensures fits { meanings.is_upper (pos (meanings.upper_part address)) ≡ true →
        IsStep 32 4096 result }
{
    match upper_part(address) {
        upper @ 0..=0xf_ffff => upper_imm(upper as i32),
        _ => 0,
    }
}

// The instructions that make an address.
fn address_code(rd: Reg, address: u64) -> Code
    requires { address < 2 ^ 32 }
    ensures { (label : List ℕ) (from : ℕ) → IsEncodable (says.Address rd label) from address →
        IsCodeOf result (says.Address rd label) from address }
{
    Code {
        first: Some(Instr::Lui {
            rd,
            imm: address_upper(address),
        }),
        second: Some(Instr::Imm {
            op: ImmOp::Addi,
            rd,
            rs1: rd,
            imm: lower_part(address),
        }),
    }
}

// The instructions of a statement at an address, whose label stands at another.
fn code_of(statement: &Statement<'_>, from: u64, to: u64) -> Code
    requires from { from < 2 ^ 40 }
    requires to { to < 2 ^ 32 }
    ensures { (s : says.Statement) → Keeps statement.now s → IsEncodable s from to →
        IsCodeOf result s from to }
{
    match *statement {
        Statement::Lui { rd, imm } => one(Instr::Lui {
            rd,
            imm: with_upper(imm),
        }),
        Statement::Auipc { rd, imm } => one(Instr::Auipc {
            rd,
            imm: with_upper(imm),
        }),
        Statement::Jal { rd, .. } => one(Instr::Jal {
            rd,
            imm: distance(from, to),
        }),
        Statement::Jalr { rd, rs1, imm } => one(Instr::Jalr {
            rd,
            rs1,
            imm: with_short(imm),
        }),
        Statement::Branch { op, rs1, rs2, .. } => one(Instr::Branch {
            op,
            rs1,
            rs2,
            imm: distance(from, to),
        }),
        Statement::Load { op, rd, rs1, imm } => one(Instr::Load {
            op,
            rd,
            rs1,
            imm: with_short(imm),
        }),
        Statement::Store { op, rs1, rs2, imm } => one(Instr::Store {
            op,
            rs1,
            rs2,
            imm: with_short(imm),
        }),
        Statement::Imm { op, rd, rs1, imm } => one(Instr::Imm {
            op,
            rd,
            rs1,
            imm: with_immediate(imm),
        }),
        Statement::Plain { instr } => one(instr),
        Statement::Address { rd, .. } => address_code(rd, to),
        _ => Code {
            first: None,
            second: None,
        },
    }
}

fn push_code(bytes: &mut Bytes, code: &Option<Instr>) -> Result<(), NoMemory>
    requires { IfSome code.now IsInRange }
    ensures { OnOk result
        (bytes.new ≡ bytes.old ++ flat_map meanings.code (option_to_list code.now)) }
{
    match code {
        Some(instr) => push_instr(bytes, instr),
        None => Ok(()),
    }
}

/// Adds the bytes of a statement at an address, whose label stands at another.
pub(crate) fn push_statement(
    bytes: &mut Bytes,
    statement: &Statement<'_>,
    from: u64,
    to: u64,
) -> Result<(), NoMemory>
    requires from { from < 2 ^ 40 }
    requires to { to < 2 ^ 32 }
    requires encodable { (s : says.Statement) × Keeps statement.now s × IsEncodable s from to }
    ensures { OnOk result
        ((s : says.Statement) → Keeps statement.now s → IsEncodable s from to →
        bytes.new ≡ bytes.old ++ meanings.bytes s from to) }
{
    match *statement {
        Statement::Bytes { operands } => push_bytes(bytes, operands),
        Statement::Zeros { count } => push_zeros(bytes, zeros(count)),
        _ => {
            let code = code_of(statement, from, to);
            push_code(bytes, &code.first)?;
            push_code(bytes, &code.second)?;
            Ok(())
        }
    }
}
