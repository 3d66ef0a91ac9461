use crate::same::assert_same;
use arn_base::NoMemory;
use generator::{program, typed};
use guest_asm::{AsmError, assemble};
use rv64_isa::{BranchOp, ImmOp, Instr, LoadOp, Reg, RegOp, StoreOp, decode};
use std::alloc::{AllocError, Global};
use std::process::Abort;

/// A program with each form of instruction, the short forms, and data.
const PROGRAM: &[u8] = b"start: ; li a0, 1 # from here on\n\
    \tla a1, text\n\
    jal ra, there\n\
    beq a0, zero, start\n\
    there:\n\
    sd ra, -8(sp); ecall\n\
    slli a1, a1, 63\n\
    lui t0, 0xfffff\n\
    j start\n\
    sraiw s11, t6, 31\n\
    bgeu x31, x1, there\n\
    auipc gp, 1 ; jalr ra, 12(t1)\n\
    lbu t2, -1 ( a0 ) ; sub s1, s2, s3\n\
    mv tp, a7 ; fence ; ebreak\n\
    andi a2, a3, -2048\n\
    text: ; .byte 65, 0xff ; .zero 2\n";

/// Its image: the instructions are as clang assembles them.
const IMAGE: &[u8] = b"ARNIMG01\
    \x00\x00\x01\x00\x00\x00\x00\x00\
    \x00\x00\x01\x00\x00\x00\x00\x00\
    \x13\x05\x10\x00\xb7\x05\x01\x00\x93\x85\x05\x05\xef\x00\x80\x00\
    \xe3\x08\x05\xfe\x23\x3c\x11\xfe\x73\x00\x00\x00\x93\x95\xf5\x03\
    \xb7\xf2\xff\xff\x6f\xf0\xdf\xfd\x9b\xdd\xff\x41\xe3\xf4\x1f\xfe\
    \x97\x11\x00\x00\xe7\x00\xc3\x00\x83\x43\xf5\xff\xb3\x04\x39\x41\
    \x13\x82\x08\x00\x0f\x00\xf0\x0f\x73\x00\x10\x00\x13\xf6\x06\x80\
    \x41\xff\x00\x00";

fn assert_image(rt: &(impl Abort + AllocGlobal)) -> Result<(), AsmError> {
    let image = assemble(rt.alloc(), PROGRAM)?;
    assert_same(rt, image.as_slice(), IMAGE);
    Ok(())
}

#[test]
fn a_program_is_assembled(rt: HostRuntime) -> Result<(), AsmError> {
    assert_image(&rt)
}

// The line and the kind of a text's fault.
fn shown_fault(alloc: Global, text: &str) -> Result<String, AllocError> {
    match assemble(alloc, text.as_bytes()) {
        Ok(_) => format!(in alloc; "none"),
        Err(AsmError::Fault { line, kind }) => format!(in alloc; "{line} {kind:?}"),
        Err(AsmError::NoMemory) => format!(in alloc; "out of memory"),
    }
}

/// Texts, and the first fault of each.
const FAULTS: &[(&str, &str)] = &[
    ("", "none"),
    ("\n# nothing\nnop", "3 Word"),
    ("addi a0, a0, 2048", "1 Range"),
    ("addi a0, a0, -2048", "none"),
    (".byte 256", "1 Range"),
    ("j x\n.zero 1048572\nx:", "2 Range"),
    ("beq a0, a1, x\n.zero 4088\nx:", "none"),
    ("beq a0, a1, x\n.zero 4092\nx:", "1 Range"),
    ("j nowhere", "1 Label"),
    ("x:\nx:\nj x", "2 Label"),
    (".byte 1\necall", "2 Align"),
    (".byte 1\nj nowhere", "2 Label"),
    (".zero 262144\n.byte 1", "2 Size"),
    (".zero 262144", "none"),
    (".zero 262145", "1 Range"),
    ("addi a0, a0, 4096; mv a0, 1; what", "1 Word"),
    ("x: ; addi a0, a0, 4096; x:", "1 Range"),
    ("li a0", "1 Operand"),
    ("addi a0, a0, 4096; mv a0, 1", "1 Operand"),
    (".byte 256\nwhat", "1 Range"),
    ("ecall\nmv a0, 1\nwhat\nj nowhere", "2 Operand"),
    (".zero 262143\necall", "2 Align"),
];

fn assert_faults(rt: &(impl Abort + AllocGlobal)) -> Result<(), NoMemory> {
    for (text, wanted) in FAULTS {
        let found = shown_fault(rt.alloc(), text)?;
        assert_same(rt, (*text, found.as_str()), (*text, *wanted));
    }
    Ok(())
}

#[test]
fn the_first_fault_is_told(rt: HostRuntime) -> Result<(), NoMemory> {
    assert_faults(&rt)
}

/// The first bytes that are typed with seed 7, as another program of the generator's algorithm gives them.
const FIRST: &[u8] = &[202, 153, 13, 132, 222, 87, 199, 18];

fn assert_generated(rt: &(impl Abort + AllocGlobal)) -> Result<(), NoMemory> {
    for processes in 1..33 {
        let text = program(rt.alloc(), processes)?;
        let found = shown_fault(rt.alloc(), text.as_str())?;
        assert_same(rt, (processes, found.as_str()), (processes, "none"));
    }
    Ok(())
}

#[test]
fn the_generators_program_has_no_fault(rt: HostRuntime) -> Result<(), NoMemory> {
    assert_generated(&rt)
}

fn assert_typed(rt: &(impl Abort + AllocGlobal)) -> Result<(), NoMemory> {
    let bytes = typed(rt.alloc(), 7)?;
    assert_same(rt, bytes.len(), 4_096);
    assert!(rt; bytes.starts_with(FIRST));
    Ok(())
}

#[test]
fn the_generator_types_words_of_its_seed(rt: HostRuntime) -> Result<(), NoMemory> {
    assert_typed(&rt)
}

/// How many bytes stand in front of an image's body.
const HEADER_LEN: usize = 24;

fn register(rt: &impl Abort, number: u8) -> Reg {
    Reg::new(number).expect(rt, "no register")
}

/// The registers x5, x6 and x7.
fn registers(rt: &impl Abort) -> (Reg, Reg, Reg) {
    (register(rt, 5), register(rt, 6), register(rt, 7))
}

// The instruction whose word stands at an offset of the image of a text.
fn decoded(alloc: Global, text: &str, offset: usize) -> Result<Option<Instr>, AsmError> {
    let image = assemble(alloc, text.as_bytes())?;
    let Some(body) = image.as_slice().get(HEADER_LEN..) else {
        return Ok(None);
    };
    let Some(rest) = body.get(offset..) else {
        return Ok(None);
    };
    let Some((word, _)) = rest.split_first_chunk::<4>() else {
        return Ok(None);
    };
    Ok(decode(u32::from_le_bytes(*word)))
}

/// The word at an offset of the image of a text is this instruction's.
fn assert_decodes(rt: &(impl Abort + AllocGlobal), text: &str, offset: usize, said: Instr) {
    let found = decoded(rt.alloc(), text, offset);
    assert_same(rt, (text, found), (text, Ok(Some(said))));
}

const BRANCHES: &[(&str, BranchOp)] = &[
    ("beq", BranchOp::Beq),
    ("bne", BranchOp::Bne),
    ("blt", BranchOp::Blt),
    ("bge", BranchOp::Bge),
    ("bltu", BranchOp::Bltu),
    ("bgeu", BranchOp::Bgeu),
];

fn assert_branches(rt: &(impl Abort + AllocGlobal)) -> Result<(), AllocError> {
    let (_, rs1, rs2) = registers(rt);
    let imm = -4;
    for (name, op) in BRANCHES {
        let op = *op;
        let text = format!(in rt.alloc(); "back: ; ecall ; {name} x6, x7, back")?;
        assert_decodes(rt, text.as_str(), 4, Instr::Branch { op, rs1, rs2, imm });
    }
    Ok(())
}

const LOADS: &[(&str, LoadOp)] = &[
    ("lb", LoadOp::Lb),
    ("lh", LoadOp::Lh),
    ("lw", LoadOp::Lw),
    ("ld", LoadOp::Ld),
    ("lbu", LoadOp::Lbu),
    ("lhu", LoadOp::Lhu),
    ("lwu", LoadOp::Lwu),
];

fn assert_loads(rt: &(impl Abort + AllocGlobal)) -> Result<(), AllocError> {
    let (rd, rs1, _) = registers(rt);
    let imm = -2048;
    for (name, op) in LOADS {
        let op = *op;
        let text = format!(in rt.alloc(); "{name} x5, -2048(x6)")?;
        assert_decodes(rt, text.as_str(), 0, Instr::Load { op, rd, rs1, imm });
    }
    Ok(())
}

const STORES: &[(&str, StoreOp)] = &[
    ("sb", StoreOp::Sb),
    ("sh", StoreOp::Sh),
    ("sw", StoreOp::Sw),
    ("sd", StoreOp::Sd),
];

fn assert_stores(rt: &(impl Abort + AllocGlobal)) -> Result<(), AllocError> {
    let (_, rs1, rs2) = registers(rt);
    let imm = 2047;
    for (name, op) in STORES {
        let op = *op;
        let text = format!(in rt.alloc(); "{name} x7, 2047(x6)")?;
        assert_decodes(rt, text.as_str(), 0, Instr::Store { op, rs1, rs2, imm });
    }
    Ok(())
}

#[test]
fn branches_loads_and_stores_decode_to_what_they_say(rt: HostRuntime) -> Result<(), AllocError> {
    assert_branches(&rt)?;
    assert_loads(&rt)?;
    assert_stores(&rt)
}

const IMMEDIATES: &[(&str, ImmOp, i64)] = &[
    ("addi", ImmOp::Addi, -2048),
    ("slti", ImmOp::Slti, 2047),
    ("sltiu", ImmOp::Sltiu, -1),
    ("xori", ImmOp::Xori, 1),
    ("ori", ImmOp::Ori, -2),
    ("andi", ImmOp::Andi, 255),
    ("slli", ImmOp::Slli, 63),
    ("srli", ImmOp::Srli, 32),
    ("srai", ImmOp::Srai, 63),
    ("addiw", ImmOp::Addiw, -1),
    ("slliw", ImmOp::Slliw, 31),
    ("srliw", ImmOp::Srliw, 0),
    ("sraiw", ImmOp::Sraiw, 31),
];

fn assert_immediates(rt: &(impl Abort + AllocGlobal)) -> Result<(), AllocError> {
    let (rd, rs1, _) = registers(rt);
    for (name, op, imm) in IMMEDIATES {
        let (op, imm) = (*op, *imm);
        let text = format!(in rt.alloc(); "{name} x5, x6, {imm}")?;
        assert_decodes(rt, text.as_str(), 0, Instr::Imm { op, rd, rs1, imm });
    }
    Ok(())
}

const OPERATIONS: &[(&str, RegOp)] = &[
    ("add", RegOp::Add),
    ("sub", RegOp::Sub),
    ("sll", RegOp::Sll),
    ("slt", RegOp::Slt),
    ("sltu", RegOp::Sltu),
    ("xor", RegOp::Xor),
    ("srl", RegOp::Srl),
    ("sra", RegOp::Sra),
    ("or", RegOp::Or),
    ("and", RegOp::And),
    ("addw", RegOp::Addw),
    ("subw", RegOp::Subw),
    ("sllw", RegOp::Sllw),
    ("srlw", RegOp::Srlw),
    ("sraw", RegOp::Sraw),
];

fn assert_operations(rt: &(impl Abort + AllocGlobal)) -> Result<(), AllocError> {
    let (rd, rs1, rs2) = registers(rt);
    for (name, op) in OPERATIONS {
        let op = *op;
        let text = format!(in rt.alloc(); "{name} x5, x6, x7")?;
        assert_decodes(rt, text.as_str(), 0, Instr::Op { op, rd, rs1, rs2 });
    }
    Ok(())
}

#[test]
fn operations_decode_to_what_they_say(rt: HostRuntime) -> Result<(), AllocError> {
    assert_immediates(&rt)?;
    assert_operations(&rt)
}

fn assert_others(rt: &(impl Abort + AllocGlobal)) {
    let (zero, ra) = (register(rt, 0), register(rt, 1));
    let (rd, rs1, _) = registers(rt);
    let add = ImmOp::Addi;
    let word = 0x0ff0_000f;
    let cases = [
        (
            "lui x5, 0x80000",
            0,
            Instr::Lui {
                rd,
                imm: -0x8000_0000,
            },
        ),
        ("auipc x5, 1", 0, Instr::Auipc { rd, imm: 4_096 }),
        (
            "jal ra, on ; .zero 8 ; on:",
            0,
            Instr::Jal { rd: ra, imm: 12 },
        ),
        (
            "jalr ra, 4(x6)",
            0,
            Instr::Jalr {
                rd: ra,
                rs1,
                imm: 4,
            },
        ),
        ("fence", 0, Instr::Fence { word }),
        ("ecall", 0, Instr::Ecall),
        ("ebreak", 0, Instr::Ebreak),
        (
            "li x5, -7",
            0,
            Instr::Imm {
                op: add,
                rd,
                rs1: zero,
                imm: -7,
            },
        ),
        (
            "mv x5, x6",
            0,
            Instr::Imm {
                op: add,
                rd,
                rs1,
                imm: 0,
            },
        ),
        ("here: ; j here", 0, Instr::Jal { rd: zero, imm: 0 }),
        (
            "la x5, at ; .zero 2040 ; at:",
            0,
            Instr::Lui { rd, imm: 0x1_1000 },
        ),
        (
            "la x5, at ; .zero 2040 ; at:",
            4,
            Instr::Imm {
                op: add,
                rd,
                rs1: rd,
                imm: -2_048,
            },
        ),
        (
            "la x5, at ; .zero 2039 ; at:",
            0,
            Instr::Lui { rd, imm: 0x1_0000 },
        ),
        (
            "la x5, at ; .zero 2039 ; at:",
            4,
            Instr::Imm {
                op: add,
                rd,
                rs1: rd,
                imm: 2_047,
            },
        ),
    ];
    for (text, offset, said) in cases {
        assert_decodes(rt, text, offset, said);
    }
}

#[test]
fn the_other_statements_decode_to_what_they_say(rt: HostRuntime) {
    assert_others(&rt)
}
