// What each byte of an instruction's result takes.
ghost use Rattle.std.specs.Prelude.{◌≡◌, ◌<◌, ◌↔◌, IsTrue, IfSome, Contains};
ghost use Rattle.rv64_model.specs.Carries.{Operand, Loaded, extended_from, op_takes, operands};
ghost use Rattle.link_rules.specs.Masks.{is_in};
ghost use Rattle.link_rules.specs.Listed.{addressed, imm_bytes, is_move, listed, listed_option, loaded_by, looks_up, op_bytes, stored_by};

use crate::masks::{ALL, NONE, Operands, WORD, bit, up_to};
use rv64_isa::{ImmOp, Instr, LoadOp, RegOp, StoreOp};
use rv64_model::{Linkage, load_len, reg_op, store_len};

/// The top byte of a register's low word, whose sign fills the bytes above.
const TOP_OF_WORD: u8 = 3;

/// Which bytes a byte of an instruction's result takes: byte 0 to 7 of the register that it writes, or a byte that it stores.
pub fn inputs(linkage: Linkage, instr: &Instr, byte: u8) -> Operands
    requires { byte < 8 }
    ensures exact { (operand : Operand) → IsTrue (is_in result operand) ↔
        Contains (operands linkage instr.now byte) operand }
{
    match *instr {
        Instr::Load { op, rd, .. } => load(linkage, op, byte).unless_x0(rd),
        Instr::Store { op, .. } => store(linkage, op, byte),
        Instr::Imm { op, rd, imm, .. } => immediate(linkage, op, imm, byte).unless_x0(rd),
        Instr::Op { op, rd, .. } => registers(linkage, op, byte).unless_x0(rd),
        Instr::Lui { .. }
        | Instr::Auipc { .. }
        | Instr::Jal { .. }
        | Instr::Jalr { .. }
        | Instr::Branch { .. }
        | Instr::Fence { .. }
        | Instr::Ecall
        | Instr::Ebreak => NONE,
    }
}

/// Whether bytes that are loaded or stored also take the address.
fn looks_up(linkage: Linkage) -> bool
    ensures { result ≡ looks_up linkage }
{
    match linkage {
        Linkage::Copy | Linkage::Data => false,
        Linkage::Index => true,
    }
}

/// The byte whose sign fills those above a load's width.
fn sign_byte(op: LoadOp) -> Option<u8>
    ensures sign { listed_option Loaded result ≡ extended_from op }
    ensures below { IfSome result (λ k. k < 8) }
{
    match op {
        LoadOp::Lb => Some(0),
        LoadOp::Lh => Some(1),
        LoadOp::Lw => Some(3),
        LoadOp::Ld | LoadOp::Lbu | LoadOp::Lhu | LoadOp::Lwu => None,
    }
}

/// The byte that a byte of a load takes.
fn loaded_byte(linkage: Linkage, op: LoadOp, byte: u8) -> Option<u8>
    requires { byte < 8 }
    ensures loaded { listed_option Loaded result ≡ loaded_by linkage op byte }
    ensures below { IfSome result (λ k. k < 8) }
{
    if byte < load_len(op) {
        return Some(byte);
    }
    match linkage {
        Linkage::Copy => None,
        Linkage::Data | Linkage::Index => sign_byte(op),
    }
}

fn load(linkage: Linkage, op: LoadOp, byte: u8) -> Operands
    requires { byte < 8 }
    ensures { listed result ≡ addressed linkage (loaded_by linkage op byte) }
{
    match loaded_byte(linkage, op, byte) {
        Some(source) => Operands {
            loaded: bit(source),
            address: looks_up(linkage),
            ..NONE
        },
        None => NONE,
    }
}

fn store(linkage: Linkage, op: StoreOp, byte: u8) -> Operands
    requires { byte < 8 }
    ensures { listed result ≡ addressed linkage (stored_by op byte) }
{
    if byte >= store_len(op) {
        return NONE;
    }
    Operands {
        second: bit(byte),
        address: looks_up(linkage),
        ..NONE
    }
}

/// Whether the operation moves the register as it is.
fn is_move(op: ImmOp, imm: i64) -> bool
    ensures { result ≡ is_move op imm }
{
    match op {
        ImmOp::Addi => imm == 0,
        _ => false,
    }
}

fn immediate(linkage: Linkage, op: ImmOp, imm: i64, byte: u8) -> Operands
    requires { byte < 8 }
    ensures { listed result ≡ imm_bytes linkage op imm byte }
{
    if is_move(op, imm) {
        return Operands {
            first: bit(byte),
            ..NONE
        };
    }
    registers(linkage, reg_op(op), byte).of_first()
}

fn registers(linkage: Linkage, op: RegOp, byte: u8) -> Operands
    requires { byte < 8 }
    ensures { listed result ≡ op_bytes linkage op byte }
{
    match linkage {
        Linkage::Copy => NONE,
        Linkage::Data | Linkage::Index => worked_out(op, byte),
    }
}

/// What a byte of an operation's result is worked out from.
fn worked_out(op: RegOp, byte: u8) -> Operands
    requires { byte < 8 }
    ensures { listed result ≡ op_takes op byte }
{
    match op {
        RegOp::Add | RegOp::Sub => Operands::both(up_to(byte)),
        RegOp::Addw | RegOp::Subw => Operands::both(up_to(byte.min(TOP_OF_WORD))),
        RegOp::Xor | RegOp::Or | RegOp::And => Operands::both(bit(byte)),
        RegOp::Slt | RegOp::Sltu => Operands::both(if byte == 0 { ALL } else { 0 }),
        RegOp::Sll | RegOp::Srl | RegOp::Sra => Operands::shifted(ALL),
        RegOp::Sllw | RegOp::Srlw | RegOp::Sraw => Operands::shifted(WORD),
    }
}
