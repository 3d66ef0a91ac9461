use rv64_isa::{BranchOp, ImmOp, Instr, LoadOp, Reg, RegOp, StoreOp, decode, encode};
use std::process::Abort;
use std::test::Fail;

fn reg(number: u8) -> Result<Reg, Fail> {
    Ok(Reg::new(number).ok_or("no register")?)
}

// The word is read as the instruction, and what is read is written as the word.
fn check(rt: &impl Abort, word: u32, wanted: Instr) -> Result<(), Fail> {
    let instr = decode(word).ok_or("no row")?;
    assert_eq!(rt; instr, wanted, "at {word:x}");
    assert_eq!(rt; encode(&instr), word);
    Ok(())
}

// The words are those that LLVM's assembler writes.
#[test]
fn jumps_and_upper_immediates(rt: HostRuntime) -> Result<(), Fail> {
    let (rd, rs1) = (reg(31)?, reg(6)?);
    let cases = [
        (0xffff_ffb7, Instr::Lui { rd, imm: -4096 }),
        (
            0x7fff_ffb7,
            Instr::Lui {
                rd,
                imm: 0x7fff_f000,
            },
        ),
        (
            0x8000_0f97,
            Instr::Auipc {
                rd,
                imm: -0x8000_0000,
            },
        ),
        (
            0x8000_0fef,
            Instr::Jal {
                rd,
                imm: -1_048_576,
            },
        ),
        (0x7fff_ffef, Instr::Jal { rd, imm: 1_048_574 }),
        (
            0x8003_0fe7,
            Instr::Jalr {
                rd,
                rs1,
                imm: -2048,
            },
        ),
    ];
    for (word, instr) in cases {
        check(&rt, word, instr)?;
    }
    Ok(())
}

// The first word of the example session's program.
#[test]
fn a_first_word(rt: HostRuntime) -> Result<(), Fail> {
    let (op, rd, rs1) = (ImmOp::Addi, reg(17)?, reg(0)?);
    let imm = 11;
    check(&rt, 0x00b0_0893, Instr::Imm { op, rd, rs1, imm })
}

#[test]
fn branches(rt: HostRuntime) -> Result<(), Fail> {
    let (rs1, rs2) = (reg(31)?, reg(30)?);
    let cases = [
        (0x81ef_8063, BranchOp::Beq, -4096),
        (0x7fef_9fe3, BranchOp::Bne, 4094),
        (0x01ef_f0e3, BranchOp::Bgeu, 2048),
    ];
    for (word, op, imm) in cases {
        check(&rt, word, Instr::Branch { op, rs1, rs2, imm })?;
    }
    Ok(())
}

#[test]
fn loads_and_stores(rt: HostRuntime) -> Result<(), Fail> {
    let (rd, rs1, rs2) = (reg(31)?, reg(30)?, reg(31)?);
    let loads = [
        (0x800f_0f83, LoadOp::Lb, -2048),
        (0x7fff_2f83, LoadOp::Lw, 2047),
        (0x010f_6f83, LoadOp::Lwu, 16),
    ];
    for (word, op, imm) in loads {
        check(&rt, word, Instr::Load { op, rd, rs1, imm })?;
    }
    let stores = [
        (0x81ff_0023, StoreOp::Sb, -2048),
        (0x7fff_3fa3, StoreOp::Sd, 2047),
    ];
    for (word, op, imm) in stores {
        check(&rt, word, Instr::Store { op, rs1, rs2, imm })?;
    }
    Ok(())
}

#[test]
fn operations(rt: HostRuntime) -> Result<(), Fail> {
    let (rd, rs1, rs2) = (reg(5)?, reg(6)?, reg(7)?);
    let immediates = [
        (0x8003_0293, ImmOp::Addi, -2048),
        (0x7ff3_3293, ImmOp::Sltiu, 2047),
        (0x0213_1293, ImmOp::Slli, 33),
        (0x43f3_5293, ImmOp::Srai, 63),
        (0x41f3_529b, ImmOp::Sraiw, 31),
    ];
    for (word, op, imm) in immediates {
        check(&rt, word, Instr::Imm { op, rd, rs1, imm })?;
    }
    let registers = [
        (0x0073_02b3, RegOp::Add),
        (0x4073_02b3, RegOp::Sub),
        (0x4073_52bb, RegOp::Sraw),
    ];
    for (word, op) in registers {
        check(&rt, word, Instr::Op { op, rd, rs1, rs2 })?;
    }
    Ok(())
}

#[test]
fn words_of_the_environment(rt: HostRuntime) -> Result<(), Fail> {
    check(&rt, 0x0000_0073, Instr::Ecall)?;
    check(&rt, 0x0010_0073, Instr::Ebreak)?;
    // A fence keeps its word, whatever its other bits.
    for word in [0x0ff0_000f, 0x8330_000f, 0x0ff1_8f8f] {
        check(&rt, word, Instr::Fence { word })?;
    }
    Ok(())
}

#[test]
fn illegal_words_have_no_row(rt: HostRuntime) {
    // All zeros, all ones, shifts with upper bits of no row, a product, a branch, a load, a store
    // and a jump of another funct3, FENCE.I, ECALL with an rd, and URET.
    for word in [
        0x0000_0000,
        0xffff_ffff,
        0x0400_1013,
        0x0203_129b,
        0x0273_02b3,
        0x0073_2463,
        0x0103_7283,
        0x0273_4423,
        0x0083_10e7,
        0x0000_100f,
        0x0000_00f3,
        0x0020_0073,
    ] {
        assert_eq!(rt; decode(word), None, "at {word:x}");
    }
}

#[test]
fn registers_end_at_31(rt: HostRuntime) -> Result<(), Fail> {
    assert_eq!(rt; reg(31)?.number(), 31);
    assert_eq!(rt; Reg::new(32), None);
    Ok(())
}
