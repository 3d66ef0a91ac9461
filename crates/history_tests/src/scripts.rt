// Sessions whose processes go on by the choices of a script, and what is printed for them.
use super::*;
use crate::sessions::assert_ends;
use arn_base::{Bytes, Choice, NoMemory};
use arn_session::Status;
use log_disk::MemDisk;
use session_trials::{Schedule, Script};
use std::process::Abort;
use std::test::Fail;

/// The first or the second process that can go on runs to its next call, or for some instructions.
const FIRST: Choice = Choice {
    index: 0,
    count: 1000,
};

const FIRST_ONE: Choice = Choice { index: 0, count: 1 };

const SECOND_ONE: Choice = Choice { index: 1, count: 1 };

const FIRST_TWO: Choice = Choice { index: 0, count: 2 };

const FIRST_THREE: Choice = Choice { index: 0, count: 3 };

const SECOND_THREE: Choice = Choice { index: 1, count: 3 };

const SECOND: Choice = Choice {
    index: 1,
    count: 1000,
};

/// Reads a byte and makes a child, which writes the byte without having touched it.
const BY_CHILD: &str = "\
    asm p\n\
    li a7, 11; li a0, 0; addi a1, sp, -16; li a2, 1; ecall\n\
    li a7, 2; ecall; beq a0, zero, child; j quit\n\
    child:\n\
    li a7, 12; li a0, 1; ecall\n\
    quit:\n\
    li a7, 1; li a0, 0; ecall\n\
    end\n\
    boot p\n\
    type 78\n\
    run 100\n\
    back copy event 6 0 1\n\
    groups\n";

/// What is printed where the child goes first, and where it goes last.
const CHILD_FIRST: &str = "\
    event 0\nevent 1\nevent 2\n\
    out 6 2 78\n\
    ran 19 done\n\
    pair 2 0 0\n\
    back pairs 1 instructions 19 groups 1 2\n\
    group 1 processes 1 instructions 12\n\
    group 2 processes 1 instructions 7\n\
    groups 2\n";

const CHILD_LAST: &str = "\
    event 0\nevent 1\nevent 2\n\
    out 5 2 78\n\
    ran 19 done\n\
    back pairs 0 instructions 12 groups 1\n\
    group 1 processes 1 instructions 12\n\
    group 2 processes 1 instructions 7\n\
    groups 2\n";

/// A child connects to a port and sends what was typed, and its parent keeps it in a file and writes it.
const SERVED: &str = "\
    asm p\n\
    li a7, 18; li a0, 80; ecall\n\
    li a7, 2; ecall; beq a0, zero, client\n\
    li a7, 20; li a0, 3; ecall\n\
    li a7, 11; li a0, 4; addi a1, sp, -16; li a2, 3; ecall\n\
    la a0, path; li a1, 3; li a2, 1; li a7, 9; ecall\n\
    li a7, 12; li a0, 5; addi a1, sp, -16; li a2, 3; ecall\n\
    li a0, 1; ecall\n\
    quit:\n\
    li a7, 1; li a0, 0; ecall\n\
    client:\n\
    li a7, 19; li a0, 80; ecall\n\
    li a7, 11; li a0, 0; addi a1, sp, -16; li a2, 3; ecall\n\
    li a7, 12; li a0, 4; ecall; j quit\n\
    path:\n\
    .byte 108, 111, 103\n\
    end\n\
    boot p\n\
    type 616263\n\
    run 1000\n\
    forth copy 2 0 3\n\
    back copy name 46 log 0 3\n";

/// What is printed where after the fork the client connects, reads, sends and ends before its server goes on.
const CLIENT_FIRST: &str = "\
    event 0\n\
    event 1\n\
    event 2\n\
    out 13 1 616263\n\
    ran 46 done\n\
    pair 12 0 0\n\
    pair 13 0 0\n\
    pair 12 1 1\n\
    pair 13 1 1\n\
    pair 12 2 2\n\
    pair 13 2 2\n\
    forth pairs 6 instructions 46 groups 1 2\n\
    pair 2 0 0\n\
    pair 2 1 1\n\
    pair 2 2 2\n\
    back pairs 3 instructions 46 groups 1 2\n";

/// What is printed where the server goes on as soon as it can. It accepts before its client reads, and ends before
/// its client does: so event 11 writes to the file, and event 12 to the console.
const SERVER_FIRST: &str = "\
    event 0\n\
    event 1\n\
    event 2\n\
    out 12 1 616263\n\
    ran 46 done\n\
    pair 11 0 0\n\
    pair 12 0 0\n\
    pair 11 1 1\n\
    pair 12 1 1\n\
    pair 11 2 2\n\
    pair 12 2 2\n\
    forth pairs 6 instructions 46 groups 1 2\n\
    pair 2 0 0\n\
    pair 2 1 1\n\
    pair 2 2 2\n\
    back pairs 3 instructions 46 groups 1 2\n";

/// A signal comes between the load and the store of a byte. Its handler sets the registers of both to zero, and they
/// come back.
const INTERRUPTED: &str = "\
    asm p\n\
    li a7, 7; li a0, 1; la a1, handler; ecall\n\
    li a7, 11; li a0, 0; addi a1, sp, -16; li a2, 1; ecall\n\
    li a7, 2; ecall; beq a0, zero, child\n\
    lbu t0, 0(a1); sb t0, 1(a1)\n\
    li a7, 12; li a0, 1; addi a1, a1, 1; li a2, 1; ecall\n\
    quit: ; li a7, 1; li a0, 0; ecall\n\
    child: ; li a7, 6; li a0, 1; li a1, 1; ecall; j quit\n\
    handler: ; li t0, 0; li a1, 0; li a7, 8; ecall\n\
    end\n\
    boot p\n\
    type 6d\n\
    run 1000\n\
    back copy event 9 0 1\n\
    groups\n\
    verify\n";

const INTERRUPTED_PRINTS: &str = "\
    event 0\nevent 1\nevent 2\n\
    out 9 1 6d\n\
    ran 36 done\n\
    pair 2 0 0\n\
    back pairs 1 instructions 27 groups 1\n\
    group 1 processes 1 instructions 27\n\
    group 2 processes 1 instructions 9\n\
    groups 2\n\
    verify run\n";

/// A signal ends a read of the empty console, whose result is then -4.
const CUT: &str = "\
    asm p\n\
    li a7, 7; li a0, 1; la a1, handler; ecall\n\
    li a7, 2; ecall; beq a0, zero, child\n\
    li a7, 11; li a0, 0; addi a1, sp, -16; li a2, 1; ecall\n\
    li a7, 1; ecall\n\
    child: ; li a7, 6; li a0, 1; li a1, 1; ecall\n\
    li a7, 1; li a0, 0; ecall\n\
    handler: ; li a7, 8; ecall\n\
    end\n\
    boot p\n\
    run 100\n";

const CUT_PRINTS: &str = "event 0\nevent 1\nran 24 done\n";

/// What is asked then. The parent's end comes before the child's.
const CUT_ASKED: &str = "events\n";

const CUT_BY_FIRST: &str = "\
    event 0 0 - file 120\n\
    event 1 0 1 boot 120\n\
    event 2 5 1 call.7.0 0\n\
    event 3 7 1 call.2.2 0\n\
    event 4 17 2 call.6.0 0\n\
    event 5 17 1 signal.1 0\n\
    event 6 19 1 call.8.0 0\n\
    event 7 21 1 call.1.0 1\n\
    event 8 24 2 call.1.0 1\n\
    events 9\n";

/// The registers behind the handler.
const CUT_LATER: &str = "show 19 regs 1\nverify\n";

const CUT_REGISTERS: &str = "\
    regs 0000000000010034 0000000000000000 0000000000050000 0000000000000000 0000000000000000 \
    0000000000000000 0000000000000000 0000000000000000 0000000000000000 0000000000000000 \
    fffffffffffffffc 000000000004fff0 0000000000000001 0000000000000000 0000000000000000 \
    0000000000000000 0000000000000000 000000000000000b 0000000000000000 0000000000000000 \
    0000000000000000 0000000000000000 0000000000000000 0000000000000000 0000000000000000 \
    0000000000000000 0000000000000000 0000000000000000 0000000000000000 0000000000000000 \
    0000000000000000 0000000000000000\n\
    verify run\n";

/// Two processes share a segment. The first stores a typed byte there and loads it again; the second stores the other
/// one. The first writes what it has loaded.
const SHARED: &str = "\
    asm p\n\
    li a7, 17; ecall\n\
    li a7, 11; li a0, 0; addi a1, sp, -16; li a2, 2; ecall\n\
    li s0, 1; slli s0, s0, 31; li a7, 2; ecall; beq a0, zero, child\n\
    lbu t0, 0(a1); sb t0, 0(s0); lbu t0, 0(s0); sb t0, 0(a1)\n\
    li a7, 12; li a0, 1; li a2, 1; ecall\n\
    quit: ; li a7, 1; li a0, 0; ecall\n\
    child: ; lbu t0, 1(a1); sb t0, 0(s0); j quit\n\
    end\n\
    boot p\n\
    type 6162\n\
    run 1000\n\
    back copy event 6 0 1\n\
    groups\n\
    show 1 mem 1 0x80000000 1\n\
    show 2 mem 1 0x80000000 2\n\
    show 14 mem 1 0x80000000 1\n\
    show 17 mem 2 0x80000000 1\n\
    verify\n";

/// What is printed where the first loads its own byte.
const OWN_BYTE: &str = "\
    event 0\nevent 1\nevent 2\n\
    out 6 1 61\n\
    ran 30 done\n\
    pair 2 0 0\n\
    back pairs 1 instructions 30 groups 1\n\
    group 1 processes 2 instructions 30\n\
    groups 1\n\
    no point\n\
    mem 0000\n\
    mem 61\n\
    mem 61\n\
    verify run\n";

/// What is printed where the second stores between the store and the load of the first.
const OTHER_BYTE: &str = "\
    event 0\nevent 1\nevent 2\n\
    out 6 1 62\n\
    ran 30 done\n\
    pair 2 1 0\n\
    back pairs 1 instructions 30 groups 1\n\
    group 1 processes 2 instructions 30\n\
    groups 1\n\
    no point\n\
    mem 0000\n\
    mem 61\n\
    mem 62\n\
    verify run\n";

/// What is printed where they take turns, instruction by instruction: the second ends first, as event 6.
const IN_TURNS: &str = "\
    event 0\nevent 1\nevent 2\n\
    out 7 1 62\n\
    ran 30 done\n\
    back pairs 0 instructions 30 groups 1\n\
    group 1 processes 2 instructions 30\n\
    groups 1\n\
    no point\n\
    mem 0000\n\
    mem 00\n\
    mem 62\n\
    verify run\n";

/// What is asked over the log of the session whose second process stores between the first one's store and load.
const LATER: &str = "\
    back copy event 6 0 1\n\
    forth copy 2 0 2\n\
    show 17 mem 1 0x80000000 1\n\
    show 18 regs 3\n\
    show 17 procs\n\
    groups\n\
    verify\n";

const LATER_PRINTS: &str = "\
    pair 2 1 0\n\
    back pairs 1 instructions 30 groups 1\n\
    pair 6 0 1\n\
    forth pairs 1 instructions 30 groups 1\n\
    mem 62\n\
    no point\n\
    proc 1 group 1\n\
    proc 2 group 1\n\
    procs 2\n\
    group 1 processes 2 instructions 30\n\
    groups 1\n\
    verify run\n";

/// Sessions one after the other on one log, by choices, and what is printed for each.
const SESSIONS: &[(&[Choice], &[(&str, &str)])] = &[
    (&[FIRST, FIRST, FIRST], &[(BY_CHILD, CHILD_FIRST)]),
    (&[FIRST, FIRST, SECOND], &[(BY_CHILD, CHILD_LAST)]),
    (
        &[FIRST, FIRST, SECOND, SECOND, SECOND, SECOND],
        &[(SERVED, CLIENT_FIRST)],
    ),
    (&[], &[(SERVED, SERVER_FIRST)]),
    (
        &[FIRST, FIRST, FIRST, FIRST_TWO, SECOND, FIRST, FIRST],
        &[(INTERRUPTED, INTERRUPTED_PRINTS)],
    ),
    (
        &[],
        &[
            (CUT, CUT_PRINTS),
            (CUT_ASKED, CUT_BY_FIRST),
            (CUT_LATER, CUT_REGISTERS),
        ],
    ),
    (&[FIRST, FIRST, FIRST, FIRST], &[(SHARED, OWN_BYTE)]),
    (
        &[FIRST, FIRST, FIRST, FIRST_THREE, SECOND_THREE, FIRST],
        &[(SHARED, OTHER_BYTE), (LATER, LATER_PRINTS)],
    ),
    (&[], &[(SHARED, OWN_BYTE)]),
    (
        &[
            FIRST, FIRST, FIRST, FIRST_ONE, SECOND_ONE, FIRST_ONE, SECOND_ONE, FIRST_ONE,
            SECOND_ONE, FIRST_ONE, SECOND_ONE, FIRST_ONE, SECOND_ONE, FIRST_ONE, SECOND_ONE,
            FIRST_ONE, SECOND_ONE,
        ],
        &[(SHARED, IN_TURNS)],
    ),
];

/// Sessions by these choices, one after the other on one log, print this.
fn assert_prints(
    rt: &(impl Abort + AllocGlobal),
    choices: &'static [Choice],
    sessions: &[(&str, &str)],
) -> Result<(), NoMemory> {
    let mut disk = MemDisk::new(rt.alloc(), Bytes::new(rt.alloc()));
    for (text, prints) in sessions {
        let script = Script {
            schedule: Schedule::Script(choices),
            ..Script::of(text.as_bytes())
        };
        let none = Vec::new(rt.alloc());
        assert_ends(rt, &mut disk, &script, none, (Status::Done, prints, &[]))?;
    }
    Ok(())
}

fn assert_scripts(rt: &(impl Abort + AllocGlobal)) -> Result<(), NoMemory> {
    for (choices, sessions) in SESSIONS {
        assert_prints(rt, choices, sessions)?;
    }
    Ok(())
}

#[test]
fn processes_go_by_a_script(rt: HostRuntime) -> Result<(), Fail> {
    Ok(assert_scripts(&rt)?)
}
