ghost use Rattle.std.specs.Prelude.{◌≡◌, IfSome, IfNone};
ghost use Rattle.rv64_isa.specs.Bits.{bits_of};
ghost use Rattle.rv64_isa.specs.Decoded.{decoded, decoded_by, immediate_by, jalr_decoded};
ghost use Rattle.rv64_isa.specs.Decoded.{branch_decoded, load_decoded, store_decoded, imm_decoded};
ghost use Rattle.rv64_isa.specs.Decoded.{reg_decoded, fence_decoded, system_decoded};
ghost use Rattle.rv64_isa.specs.Encoded.{word_of, HasNoRow};
ghost use Rattle.rv64_isa.specs.Fields.{opcode_of, funct3_of, funct7_of, i_immediate_of, s_immediate_of};
ghost use Rattle.rv64_isa.specs.Fields.{b_immediate_of, u_immediate_of, j_immediate_of};
ghost use Rattle.rv64_isa.specs.Valid.{HasRegisters, IsInRange};

use crate::fields::{bits, join, sign_extend};
use crate::instruction::{BranchOp, ImmOp, Instr, LoadOp, RegOp, StoreOp};
use crate::opcode::{
    AUIPC, BRANCH, EBREAK, ECALL, JAL, JALR, LOAD, LUI, MISC_MEM, OP, OP_32, OP_IMM, OP_IMM_32,
    STORE, SYSTEM,
};
use crate::register::Reg;
use crate::row::Form;

/// The instruction of a word, and None for an illegal one.
///
/// The word's fields lie as in the manual's section "Base Instruction Formats".
#[inline(always)]
pub fn decode(word: u32) -> Option<Instr>
    ensures table { result ≡ decoded word }

    // An instruction is one that has a word, and this is its word.
    ensures registers { IfSome result HasRegisters }
    ensures in_range { IfSome result IsInRange }
    ensures word { IfSome result (λ instr. word_of instr ≡ word) }

    ensures no_row { IfNone result (HasNoRow word) }
{
    decode_by(bits(word, 6, 0), word)
}

// The instruction of a word with this opcode.
#[tactic(auto, unfolding(crate::specs::Decoded::decoded_by))]
#[inline(always)]
fn decode_by(opcode: u32, word: u32) -> Option<Instr>
    requires { opcode ≡ opcode_of word }
    ensures { result ≡ decoded_by opcode word }
{
    match opcode {
        LUI => Some(Instr::Lui {
            rd: rd(word),
            imm: u_immediate(word),
        }),
        AUIPC => Some(Instr::Auipc {
            rd: rd(word),
            imm: u_immediate(word),
        }),
        JAL => Some(Instr::Jal {
            rd: rd(word),
            imm: j_immediate(word),
        }),
        JALR => decode_jalr(word),
        BRANCH => decode_branch(word),
        LOAD => decode_load(word),
        STORE => decode_store(word),
        OP_IMM => decode_imm(OP_IMM, word),
        OP_IMM_32 => decode_imm(OP_IMM_32, word),
        OP => decode_op(OP, word),
        OP_32 => decode_op(OP_32, word),
        MISC_MEM => decode_fence(word),
        SYSTEM => decode_system(word),
        _ => None,
    }
}

#[inline(always)]
fn decode_jalr(word: u32) -> Option<Instr>
    ensures { result ≡ jalr_decoded word }
{
    match funct3(word) {
        0b000 => Some(Instr::Jalr {
            rd: rd(word),
            rs1: rs1(word),
            imm: i_immediate(word),
        }),
        _ => None,
    }
}

#[inline(always)]
fn decode_branch(word: u32) -> Option<Instr>
    ensures { result ≡ branch_decoded word }
{
    let op = BranchOp::at(funct3(word))?;
    Some(Instr::Branch {
        op,
        rs1: rs1(word),
        rs2: rs2(word),
        imm: b_immediate(word),
    })
}

#[inline(always)]
fn decode_load(word: u32) -> Option<Instr>
    ensures { result ≡ load_decoded word }
{
    let op = LoadOp::at(funct3(word))?;
    Some(Instr::Load {
        op,
        rd: rd(word),
        rs1: rs1(word),
        imm: i_immediate(word),
    })
}

#[inline(always)]
fn decode_store(word: u32) -> Option<Instr>
    ensures { result ≡ store_decoded word }
{
    let op = StoreOp::at(funct3(word))?;
    Some(Instr::Store {
        op,
        rs1: rs1(word),
        rs2: rs2(word),
        imm: s_immediate(word),
    })
}

// The instruction of a word of OP-IMM or of OP-IMM-32. Each call gives a constant opcode, so that it is
// compiled for that one.
#[inline(always)]
fn decode_imm(opcode: u32, word: u32) -> Option<Instr>
    requires { opcode ≡ opcode_of word }
    ensures { result ≡ imm_decoded word }
{
    let op = ImmOp::at(opcode, funct3(word), funct7(word))?;
    Some(Instr::Imm {
        op,
        rd: rd(word),
        rs1: rs1(word),
        imm: immediate(op.row().form, word),
    })
}

// The instruction of a word of OP or of OP-32, in the same way.
#[inline(always)]
fn decode_op(opcode: u32, word: u32) -> Option<Instr>
    requires { opcode ≡ opcode_of word }
    ensures { result ≡ reg_decoded word }
{
    let op = RegOp::at(opcode, funct3(word), funct7(word))?;
    Some(Instr::Op {
        op,
        rd: rd(word),
        rs1: rs1(word),
        rs2: rs2(word),
    })
}

#[inline(always)]
fn decode_fence(word: u32) -> Option<Instr>
    ensures { result ≡ fence_decoded word }
{
    match funct3(word) {
        0b000 => Some(Instr::Fence { word }),
        _ => None,
    }
}

#[inline(always)]
fn decode_system(word: u32) -> Option<Instr>
    ensures { result ≡ system_decoded word }
{
    match word {
        ECALL => Some(Instr::Ecall),
        EBREAK => Some(Instr::Ebreak),
        _ => None,
    }
}

// The immediate of a word of OP-IMM or of OP-IMM-32, by the form of its row.
#[inline(always)]
fn immediate(form: Form, word: u32) -> i64
    ensures { result ≡ immediate_by form word }
{
    match form {
        Form::Shift => i64::from(bits(word, 25, 20)),
        Form::WordShift => i64::from(bits(word, 24, 20)),
        _ => i_immediate(word),
    }
}

#[inline(always)]
fn i_immediate(word: u32) -> i64
    ensures { result ≡ i_immediate_of word }
{
    sign_extend(bits(word, 31, 20), 12)
}

#[inline(always)]
fn s_immediate(word: u32) -> i64
    ensures { result ≡ s_immediate_of word }
{
    sign_extend(join(bits(word, 31, 25), bits(word, 11, 7), 5), 12)
}

#[inline(always)]
fn b_immediate(word: u32) -> i64
    ensures { result ≡ b_immediate_of word }
{
    let upper = join(bits(word, 31, 31), bits(word, 7, 7), 1);
    let upper = join(upper, bits(word, 30, 25), 6);
    sign_extend(join(upper, bits(word, 11, 8), 4) << 1, 13)
}

#[inline(always)]
fn u_immediate(word: u32) -> i64
    ensures { result ≡ u_immediate_of word }
{
    sign_extend(bits(word, 31, 12) << 12, 32)
}

#[inline(always)]
fn j_immediate(word: u32) -> i64
    ensures { result ≡ j_immediate_of word }
{
    let upper = join(bits(word, 31, 31), bits(word, 19, 12), 8);
    let upper = join(upper, bits(word, 20, 20), 1);
    sign_extend(join(upper, bits(word, 30, 21), 10) << 1, 21)
}

#[inline(always)]
fn funct3(word: u32) -> u32
    ensures { result ≡ funct3_of word }
{
    bits(word, 14, 12)
}

#[inline(always)]
fn funct7(word: u32) -> u32
    ensures { result ≡ funct7_of word }
{
    bits(word, 31, 25)
}

#[inline(always)]
fn rd(word: u32) -> Reg
    ensures { result ≡ bits_of word 11 7 }
{
    Reg::from_field(bits(word, 11, 7))
}

#[inline(always)]
fn rs1(word: u32) -> Reg
    ensures { result ≡ bits_of word 19 15 }
{
    Reg::from_field(bits(word, 19, 15))
}

#[inline(always)]
fn rs2(word: u32) -> Reg
    ensures { result ≡ bits_of word 24 20 }
{
    Reg::from_field(bits(word, 24, 20))
}
