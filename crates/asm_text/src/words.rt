// The words that begin a statement.
ghost use Rattle.std.specs.Prelude.{◌≡◌, map, option_map, bytes_eq};
ghost use Rattle.std.specs.List.{find};
ghost use Rattle.asm_text.specs.Statements as statement;
ghost use Rattle.asm_text.specs.Tables.{form_by, worded};

use crate::form::Form;
use rv64_isa::{BranchOp, ImmOp, LoadOp, RegOp, StoreOp};

/// Each mnemonic in lower case, the short forms, and what is no instruction.
const WORDS: [(&[u8], Form); 58] = [
    (b"lui", Form::Lui),
    (b"auipc", Form::Auipc),
    (b"jal", Form::Jal),
    (b"jalr", Form::Jalr),
    (b"beq", Form::Branch(BranchOp::Beq)),
    (b"bne", Form::Branch(BranchOp::Bne)),
    (b"blt", Form::Branch(BranchOp::Blt)),
    (b"bge", Form::Branch(BranchOp::Bge)),
    (b"bltu", Form::Branch(BranchOp::Bltu)),
    (b"bgeu", Form::Branch(BranchOp::Bgeu)),
    (b"lb", Form::Load(LoadOp::Lb)),
    (b"lh", Form::Load(LoadOp::Lh)),
    (b"lw", Form::Load(LoadOp::Lw)),
    (b"ld", Form::Load(LoadOp::Ld)),
    (b"lbu", Form::Load(LoadOp::Lbu)),
    (b"lhu", Form::Load(LoadOp::Lhu)),
    (b"lwu", Form::Load(LoadOp::Lwu)),
    (b"sb", Form::Store(StoreOp::Sb)),
    (b"sh", Form::Store(StoreOp::Sh)),
    (b"sw", Form::Store(StoreOp::Sw)),
    (b"sd", Form::Store(StoreOp::Sd)),
    (b"addi", Form::Imm(ImmOp::Addi)),
    (b"slti", Form::Imm(ImmOp::Slti)),
    (b"sltiu", Form::Imm(ImmOp::Sltiu)),
    (b"xori", Form::Imm(ImmOp::Xori)),
    (b"ori", Form::Imm(ImmOp::Ori)),
    (b"andi", Form::Imm(ImmOp::Andi)),
    (b"slli", Form::Imm(ImmOp::Slli)),
    (b"srli", Form::Imm(ImmOp::Srli)),
    (b"srai", Form::Imm(ImmOp::Srai)),
    (b"addiw", Form::Imm(ImmOp::Addiw)),
    (b"slliw", Form::Imm(ImmOp::Slliw)),
    (b"srliw", Form::Imm(ImmOp::Srliw)),
    (b"sraiw", Form::Imm(ImmOp::Sraiw)),
    (b"add", Form::Op(RegOp::Add)),
    (b"sub", Form::Op(RegOp::Sub)),
    (b"sll", Form::Op(RegOp::Sll)),
    (b"slt", Form::Op(RegOp::Slt)),
    (b"sltu", Form::Op(RegOp::Sltu)),
    (b"xor", Form::Op(RegOp::Xor)),
    (b"srl", Form::Op(RegOp::Srl)),
    (b"sra", Form::Op(RegOp::Sra)),
    (b"or", Form::Op(RegOp::Or)),
    (b"and", Form::Op(RegOp::And)),
    (b"addw", Form::Op(RegOp::Addw)),
    (b"subw", Form::Op(RegOp::Subw)),
    (b"sllw", Form::Op(RegOp::Sllw)),
    (b"srlw", Form::Op(RegOp::Srlw)),
    (b"sraw", Form::Op(RegOp::Sraw)),
    (b"fence", Form::Fence),
    (b"ecall", Form::Ecall),
    (b"ebreak", Form::Ebreak),
    (b"li", Form::Li),
    (b"mv", Form::Mv),
    (b"j", Form::J),
    (b"la", Form::La),
    (b".byte", Form::Byte),
    (b".zero", Form::Zero),
];

fn form_by(mut table: &[(&[u8], Form)], text: &[u8]) -> Option<Form>
    ensures { result ≡ form_by (map worded table.entry.now) text.now }
{
    while let [row, rest @ ..] = table {
        if row.0 == text {
            return Some(row.1);
        }
        table = rest;
    }
    None
}

pub(crate) fn form_of(text: &[u8]) -> Option<Form>
    ensures { result ≡ statement.form_of text.now }
{
    form_by(&WORDS, text)
}
