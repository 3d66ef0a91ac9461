ghost use Rattle.std.specs.Prelude.{◌≡◌, ◌^◌, ◌<◌, Some};
ghost use Rattle.rv64_isa.specs.Decoded.{decoded};
ghost use Rattle.rv64_isa.specs.Encoded.{word_of, fields_word, long_word, r_word, i_word, imm_word};
ghost use Rattle.rv64_isa.specs.Encoded.{s_word, b_word, u_word, j_word, upper_by};
ghost use Rattle.rv64_isa.specs.Rows.{IsRow};
ghost use Rattle.rv64_isa.specs.Signed.{FitsIn};
ghost use Rattle.rv64_isa.specs.Valid.{HasRegisters, IsInRange, IsImmInRange, IsStep};

use crate::fields::{bits, join, low_bits};
use crate::instruction::Instr;
use crate::opcode::{AUIPC, EBREAK, ECALL, JAL, JALR, LUI};
use crate::register::Reg;
use crate::row::{Form, Row};

/// The word of an instruction.
pub fn encode(instr: &Instr) -> u32
    requires { IsInRange instr.now }
    ensures word { result ≡ word_of instr.now }
    ensures decodes { decoded result ≡ Some instr.now }
    ensures registers { HasRegisters instr.now }
{
    encode_by_form(instr)
}

#[tactic(auto, unfolding(crate::specs::Encoded::word_of))]
fn encode_by_form(instr: &Instr) -> u32
    requires { IsInRange instr.now }
    ensures word { result ≡ word_of instr.now }
    ensures registers { HasRegisters instr.now }
{
    match *instr {
        Instr::Lui { rd, imm } => encode_u(LUI, rd, imm),
        Instr::Auipc { rd, imm } => encode_u(AUIPC, rd, imm),
        Instr::Jal { rd, imm } => encode_j(JAL, rd, imm),
        Instr::Jalr { rd, rs1, imm } => {
            encode_i(Row::new(Form::I, JALR, 0b000, 0), rd, rs1, imm)
        }
        Instr::Branch { op, rs1, rs2, imm } => encode_b(op.row(), rs1, rs2, imm),
        Instr::Load { op, rd, rs1, imm } => encode_i(op.row(), rd, rs1, imm),
        Instr::Store { op, rs1, rs2, imm } => encode_s(op.row(), rs1, rs2, imm),
        Instr::Imm { op, rd, rs1, imm } => encode_imm(op.row(), rd, rs1, imm),
        Instr::Op { op, rd, rs1, rs2 } => encode_r(op.row(), rd, rs1, rs2),
        Instr::Fence { word } => word,
        Instr::Ecall => ECALL,
        Instr::Ebreak => EBREAK,
    }
}

fn encode_r(row: Row, rd: Reg, rs1: Reg, rs2: Reg) -> u32
    requires { IsRow row }
    ensures word { result ≡ r_word row rd rs1 rs2 }
    ensures registers { (rd < 32) × (rs1 < 32) × (rs2 < 32) }
{
    let upper = join(row.upper, field(rs2), 5);
    fields(upper, field(rs1), row.funct3, field(rd), row.opcode)
}

fn encode_i(row: Row, rd: Reg, rs1: Reg, imm: i64) -> u32
    requires row { IsRow row }
    requires imm { FitsIn 12 imm }
    ensures word { result ≡ i_word row rd rs1 imm }
    ensures registers { (rd < 32) × (rs1 < 32) }
{
    let upper = low_bits(imm, 12);
    fields(upper, field(rs1), row.funct3, field(rd), row.opcode)
}

fn encode_imm(row: Row, rd: Reg, rs1: Reg, imm: i64) -> u32
    requires row { IsRow row }
    requires imm { IsImmInRange row.form imm }
    ensures word { result ≡ imm_word row rd rs1 imm }
    ensures registers { (rd < 32) × (rs1 < 32) }
{
    let upper = upper_bits(row, imm);
    fields(upper, field(rs1), row.funct3, field(rd), row.opcode)
}

// Bits 31 to 20 of a word of the I form: the immediate, or the row's own bits and a shift amount.
fn upper_bits(row: Row, imm: i64) -> u32
    requires row { IsRow row }
    requires imm { IsImmInRange row.form imm }
    ensures bits { result ≡ upper_by row.form row.upper imm }
    ensures below { result < 2 ^ 12 }
{
    match row.form {
        Form::Shift => join(row.upper, imm as u32, 6),
        Form::WordShift => join(row.upper, imm as u32, 5),
        _ => low_bits(imm, 12),
    }
}

fn encode_s(row: Row, rs1: Reg, rs2: Reg, imm: i64) -> u32
    requires row { IsRow row }
    requires imm { FitsIn 12 imm }
    ensures word { result ≡ s_word row rs1 rs2 imm }
    ensures registers { (rs1 < 32) × (rs2 < 32) }
{
    let imm = low_bits(imm, 12);
    let upper = join(bits(imm, 11, 5), field(rs2), 5);
    fields(upper, field(rs1), row.funct3, bits(imm, 4, 0), row.opcode)
}

fn encode_b(row: Row, rs1: Reg, rs2: Reg, imm: i64) -> u32
    requires row { IsRow row }
    requires imm { IsStep 13 2 imm }
    ensures word { result ≡ b_word row rs1 rs2 imm }
    ensures registers { (rs1 < 32) × (rs2 < 32) }
{
    let imm = low_bits(imm, 13);
    let upper = join(bits(imm, 12, 12), bits(imm, 10, 5), 6);
    let lower = join(bits(imm, 4, 1), bits(imm, 11, 11), 1);
    let upper = join(upper, field(rs2), 5);
    fields(upper, field(rs1), row.funct3, lower, row.opcode)
}

fn encode_u(opcode: u32, rd: Reg, imm: i64) -> u32
    requires opcode { opcode < 128 }
    requires imm { IsStep 32 4096 imm }
    ensures word { result ≡ u_word opcode rd imm }
    ensures registers { rd < 32 }
{
    long_fields(bits(low_bits(imm, 32), 31, 12), field(rd), opcode)
}

fn encode_j(opcode: u32, rd: Reg, imm: i64) -> u32
    requires opcode { opcode < 128 }
    requires imm { IsStep 21 2 imm }
    ensures word { result ≡ j_word opcode rd imm }
    ensures registers { rd < 32 }
{
    let imm = low_bits(imm, 21);
    let upper = join(bits(imm, 20, 20), bits(imm, 10, 1), 10);
    let upper = join(join(upper, bits(imm, 11, 11), 1), bits(imm, 19, 12), 8);
    long_fields(upper, field(rd), opcode)
}

// A word of 12 bits, rs1, funct3, rd and the opcode.
fn fields(upper: u32, rs1: u32, funct3: u32, rd: u32, opcode: u32) -> u32
    requires upper { upper < 2 ^ 12 }
    requires rs1 { rs1 < 32 }
    requires funct3 { funct3 < 8 }
    requires rd { rd < 32 }
    requires opcode { opcode < 128 }
    ensures { result ≡ fields_word upper rs1 funct3 rd opcode }
{
    let upper = join(join(upper, rs1, 5), funct3, 3);
    join(join(upper, rd, 5), opcode, 7)
}

// A word of 20 bits, rd and the opcode.
fn long_fields(upper: u32, rd: u32, opcode: u32) -> u32
    requires upper { upper < 2 ^ 20 }
    requires rd { rd < 32 }
    requires opcode { opcode < 128 }
    ensures { result ≡ long_word upper rd opcode }
{
    join(join(upper, rd, 5), opcode, 7)
}

// The five bits that name a register.
fn field(register: Reg) -> u32
    ensures number { result ≡ register }
    ensures below { result < 32 }
{
    u32::from(register.number())
}
