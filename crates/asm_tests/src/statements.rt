use crate::same::assert_same;
use asm_text::{Number, Statement, StatementReading, read};
use rv64_isa::Reg;
use std::alloc::{AllocError, Global};
use std::fmt::Debug;
use std::process::Abort;

fn shown_number(alloc: Global, number: Number) -> Result<String, AllocError> {
    match number {
        Number::Small { value } => format!(in alloc; "{value}"),
        Number::Large => format!(in alloc; "large"),
    }
}

// A name, the number of a register, and a number.
fn register_and_number(
    alloc: Global,
    name: &str,
    reg: Reg,
    number: Number,
) -> Result<String, AllocError> {
    let number = shown_number(alloc, number)?;
    format!(in alloc; "{name} {} {number}", reg.number())
}

// A name, the number of a register, and the bytes of a label.
fn register_and_label(
    alloc: Global,
    name: &str,
    reg: Reg,
    label: &[u8],
) -> Result<String, AllocError> {
    format!(in alloc; "{name} {} {label:?}", reg.number())
}

// An operation, the numbers of its registers, and a number.
fn registers_and_number<T: Debug>(
    alloc: Global,
    op: &T,
    first: Reg,
    second: Reg,
    number: Number,
) -> Result<String, AllocError> {
    let number = shown_number(alloc, number)?;
    format!(in alloc; "{op:?} {} {} {number}", first.number(), second.number())
}

// An operation, the numbers of its registers, and the bytes of a label.
fn registers_and_label<T: Debug>(
    alloc: Global,
    op: &T,
    first: Reg,
    second: Reg,
    label: &[u8],
) -> Result<String, AllocError> {
    format!(in alloc; "{op:?} {} {} {label:?}", first.number(), second.number())
}

fn shown_jump(alloc: Global, rd: Reg, rs1: Reg, imm: Number) -> Result<String, AllocError> {
    let imm = shown_number(alloc, imm)?;
    format!(in alloc; "jalr {} {} {imm}", rd.number(), rs1.number())
}

fn shown_zeros(alloc: Global, count: Number) -> Result<String, AllocError> {
    let count = shown_number(alloc, count)?;
    format!(in alloc; "zeros {count}")
}

// A name and bytes.
fn named_bytes(alloc: Global, name: &str, bytes: &[u8]) -> Result<String, AllocError> {
    format!(in alloc; "{name} {bytes:?}")
}

// What can be written for debugging, so.
fn debugged<T: Debug>(alloc: Global, value: &T) -> Result<String, AllocError> {
    format!(in alloc; "{value:?}")
}

// A statement as text, with registers by their numbers and labels by their bytes.
fn shown_statement(alloc: Global, statement: &Statement<'_>) -> Result<String, AllocError> {
    match statement {
        Statement::Nothing => String::from_str(alloc, "nothing"),
        Statement::Label { name } => named_bytes(alloc, "label", name),
        Statement::Lui { rd, imm } => register_and_number(alloc, "lui", *rd, *imm),
        Statement::Auipc { rd, imm } => register_and_number(alloc, "auipc", *rd, *imm),
        Statement::Jal { rd, label } => register_and_label(alloc, "jal", *rd, label),
        Statement::Jalr { rd, rs1, imm } => shown_jump(alloc, *rd, *rs1, *imm),
        Statement::Branch {
            op,
            rs1,
            rs2,
            label,
        } => registers_and_label(alloc, op, *rs1, *rs2, label),
        Statement::Load { op, rd, rs1, imm } => registers_and_number(alloc, op, *rd, *rs1, *imm),
        Statement::Store { op, rs1, rs2, imm } => registers_and_number(alloc, op, *rs1, *rs2, *imm),
        Statement::Imm { op, rd, rs1, imm } => registers_and_number(alloc, op, *rd, *rs1, *imm),
        Statement::Plain { instr } => debugged(alloc, instr),
        Statement::Address { rd, label } => register_and_label(alloc, "address", *rd, label),
        Statement::Bytes { operands } => named_bytes(alloc, "bytes", operands),
        Statement::Zeros { count } => shown_zeros(alloc, *count),
    }
}

fn shown(alloc: Global, text: &str) -> Result<String, AllocError> {
    match read(text.as_bytes()) {
        StatementReading::Says(statement) => shown_statement(alloc, &statement),
        StatementReading::Wrong(kind) => debugged(alloc, &kind),
    }
}

/// Statements, and what is read of each.
const CASES: &[(&str, &str)] = &[
    ("", "nothing"),
    // labels
    ("loop:", "label [108, 111, 111, 112]"),
    ("_Loop_2:", "label [95, 76, 111, 111, 112, 95, 50]"),
    ("_:", "label [95]"),
    ("a23456789012345678901234567890123:", "Word"),
    ("2:", "Word"),
    (":", "Word"),
    ("loop", "Word"),
    // each form
    ("lui a0, 0xfffff", "lui 10 1048575"),
    ("auipc\tt6 , 1", "auipc 31 1"),
    ("jal ra, loop", "jal 1 [108, 111, 111, 112]"),
    ("jalr ra, 0(t0)", "jalr 1 5 0"),
    ("jalr ra, -4 ( t0 )", "jalr 1 5 -4"),
    ("beq a0, a1, loop", "Beq 10 11 [108, 111, 111, 112]"),
    ("bgeu s2, s11, x1", "Bgeu 18 27 [120, 49]"),
    ("lbu x5, 0x7f(fp)", "Lbu 5 8 127"),
    ("ld s1, 8(sp)", "Ld 9 2 8"),
    ("sd s1, 8(sp)", "Sd 2 9 8"),
    ("sb zero,-2048(gp)", "Sb 3 0 -2048"),
    ("addi tp, t2, 4095", "Addi 4 7 4095"),
    ("sraiw a7, t3, 31", "Sraiw 17 28 31"),
    (
        "and ra, sp, gp",
        "Op { op: And, rd: Reg { number: 1 }, rs1: Reg { number: 2 }, rs2: Reg { number: 3 } }",
    ),
    ("fence", "Fence { word: 267386895 }"),
    ("ecall", "Ecall"),
    ("ebreak", "Ebreak"),
    // the short forms
    ("li a0, 10", "Addi 10 0 10"),
    ("mv a0, s0", "Addi 10 8 0"),
    ("j loop", "jal 0 [108, 111, 111, 112]"),
    ("la a0, loop", "address 10 [108, 111, 111, 112]"),
    (".byte 1", "bytes [49]"),
    (
        ".byte 0x41, 255 , 256",
        "bytes [48, 120, 52, 49, 44, 32, 50, 53, 53, 32, 44, 32, 50, 53, 54]",
    ),
    (".zero 262144", "zeros 262144"),
    // numbers
    ("li a0, -0", "Addi 10 0 0"),
    ("li a0, 0xfF", "Addi 10 0 255"),
    (
        "li a0, 9223372036854775807",
        "Addi 10 0 9223372036854775807",
    ),
    (
        "li a0, -9223372036854775807",
        "Addi 10 0 -9223372036854775807",
    ),
    ("li a0, 9223372036854775808", "Addi 10 0 large"),
    ("li a0, -9223372036854775808", "Addi 10 0 large"),
    ("li a0, 0x10000000000000000000000000", "Addi 10 0 large"),
    ("li a0, 00", "Operand"),
    ("li a0, +1", "Operand"),
    ("li a0, - 1", "Operand"),
    ("li a0, -0x1", "Operand"),
    ("li a0, 0x", "Operand"),
    ("li a0, 1a", "Operand"),
    ("li a0, ", "Operand"),
    // words and operands that aren't there
    ("nop", "Word"),
    ("ADDI a0, a0, 1", "Word"),
    ("addi", "Operand"),
    ("addi a0, a0", "Operand"),
    ("addi a0, a0, 1, 1", "Operand"),
    ("addi a0 a0, 1", "Operand"),
    ("add a0, a0, 1", "Operand"),
    ("mv a0, x32", "Operand"),
    ("mv a0, x01", "Operand"),
    ("mv a0, s12", "Operand"),
    ("beq a0, a1, 8", "Operand"),
    ("ld a0, 8", "Operand"),
    ("ld a0, (sp)", "Operand"),
    ("ld a0, 8(sp", "Operand"),
    ("ld a0, 8(sp)(sp)", "Operand"),
    ("ld a0, 8(sp) 1", "Operand"),
    ("ecall a0", "Operand"),
    (".byte", "Operand"),
    (".byte 1,", "Operand"),
    (".byte 1, x", "Operand"),
    (".zero", "Operand"),
    (".zero 1, 2", "Operand"),
];

fn assert_statements(rt: &(impl Abort + AllocGlobal)) -> Result<(), AllocError> {
    for (text, wanted) in CASES {
        let found = shown(rt.alloc(), text)?;
        assert_same(rt, (*text, found.as_str()), (*text, *wanted));
    }
    Ok(())
}

#[test]
fn statements_are_read(rt: HostRuntime) -> Result<(), AllocError> {
    assert_statements(&rt)
}
