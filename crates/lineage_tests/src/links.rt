use crate::same::assert_same;
use link_rules::{Operands, inputs};
use rv64_isa::{ImmOp, Instr, LoadOp, Reg, RegOp, StoreOp};
use rv64_model::Linkage;
use std::process::Abort;

fn reg(rt: &impl Abort, n: u8) -> Reg {
    Reg::new(n).expect(rt, "no register")
}

// The bytes of rs1, of rs2, those that are loaded, and whether the address.
fn check(
    rt: &impl Abort,
    linkage: Linkage,
    instr: &Instr,
    byte: u8,
    (first, second, loaded, address): (u8, u8, u8, bool),
) {
    assert!(rt; byte < 8);
    let want = Operands {
        first,
        second,
        loaded,
        address,
    };
    let found = inputs(linkage, instr, byte);
    assert_same(rt, (*instr, byte, found), (*instr, byte, want));
}

// Operations, a byte of what they give, and the bytes of both registers that it takes.
const OPERATIONS: &[(RegOp, u8, u8, u8)] = &[
    (RegOp::Sub, 0, 1, 1),
    (RegOp::Sub, 7, 255, 255),
    (RegOp::Sll, 3, 255, 1),
    (RegOp::Slt, 0, 255, 255),
    (RegOp::Slt, 1, 0, 0),
];

fn check_operations(rt: &impl Abort) {
    let (rd, rs1, rs2) = (reg(rt, 5), reg(rt, 6), reg(rt, 7));
    for (op, byte, first, second) in OPERATIONS {
        let (op, byte) = (*op, *byte);
        let instr = Instr::Op { op, rd, rs1, rs2 };
        let taken = (*first, *second, 0, false);
        check(rt, Linkage::Data, &instr, byte, taken);
        check(rt, Linkage::Copy, &instr, byte, (0, 0, 0, false));
    }
}

// Operations with a number, the number, a byte, and the bytes of the register that it takes.
const IMMEDIATES: &[(ImmOp, i64, u8, u8)] = &[
    (ImmOp::Addiw, 0, 0, 1),
    (ImmOp::Addiw, 0, 4, 15),
    (ImmOp::Addiw, 0, 7, 15),
    (ImmOp::Srliw, 3, 0, 15),
];

fn check_immediates(rt: &impl Abort) {
    let (rd, rs1) = (reg(rt, 5), reg(rt, 6));
    for (op, imm, byte, first) in IMMEDIATES {
        let (op, imm) = (*op, *imm);
        let instr = Instr::Imm { op, rd, rs1, imm };
        check(rt, Linkage::Data, &instr, *byte, (*first, 0, 0, false));
    }
}

#[test]
fn operations_take_registers(rt: HostRuntime) {
    check_operations(&rt);
    check_immediates(&rt);
}

// A number that is added: zero makes it a move.
fn check_moves(rt: &impl Abort) {
    let (op, rd, rs1) = (ImmOp::Addi, reg(rt, 5), reg(rt, 6));
    for (imm, first) in [(0, 8), (1, 0)] {
        let instr = Instr::Imm { op, rd, rs1, imm };
        check(rt, Linkage::Copy, &instr, 3, (first, 0, 0, false));
    }
}

// Loads, a byte of what they give, the bytes that it takes, and whether the address.
const LOADS: &[(Linkage, LoadOp, u8, u8, bool)] = &[
    (Linkage::Data, LoadOp::Lb, 1, 1, false),
    (Linkage::Data, LoadOp::Lb, 7, 1, false),
    (Linkage::Data, LoadOp::Lbu, 1, 0, false),
    (Linkage::Index, LoadOp::Ld, 3, 8, true),
];

fn check_loads(rt: &impl Abort) {
    let (rd, rs1, imm) = (reg(rt, 5), reg(rt, 6), 0);
    for (linkage, op, byte, loaded, address) in LOADS {
        let op = *op;
        let instr = Instr::Load { op, rd, rs1, imm };
        check(rt, *linkage, &instr, *byte, (0, 0, *loaded, *address));
    }
}

fn check_stores(rt: &impl Abort) {
    let (op, rs1, rs2, imm) = (StoreOp::Sh, reg(rt, 6), reg(rt, 7), 0);
    let instr = Instr::Store { op, rs1, rs2, imm };
    check(rt, Linkage::Index, &instr, 1, (0, 2, 0, true));
    check(rt, Linkage::Index, &instr, 2, (0, 0, 0, false));
}

#[test]
fn bytes_are_moved_loaded_and_stored(rt: HostRuntime) {
    check_moves(&rt);
    check_loads(&rt);
    check_stores(&rt);
}

fn check_others(rt: &impl Abort) {
    let (x0, rd) = (reg(rt, 0), reg(rt, 5));
    let (rs1, rs2) = (reg(rt, 6), reg(rt, 7));
    let instrs = [
        Instr::Op {
            op: RegOp::Add,
            rd: x0,
            rs1,
            rs2,
        },
        Instr::Load {
            op: LoadOp::Ld,
            rd: x0,
            rs1,
            imm: 0,
        },
        Instr::Lui { rd, imm: 4096 },
        Instr::Jal { rd, imm: 8 },
        Instr::Fence { word: 0x0ff0_000f },
    ];
    for instr in instrs {
        check(rt, Linkage::Index, &instr, 0, (0, 0, 0, false));
    }
}

#[test]
fn others_take_nothing(rt: HostRuntime) {
    check_others(&rt)
}
