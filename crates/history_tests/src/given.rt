// Whose bytes a read is recorded to have been given: a run for each event's bytes in a row.
use super::*;
use crate::same::assert_same;
use crate::sessions::recorded;
use arn_base::{Extra, Origin, Record};
use std::process::Abort;
use std::test::Fail;

/// Reads what was typed in two pieces, then two files from before the start, the second one in two reads. Makes a file
/// of 65,536 bytes by one write, and reads it; writes 4,096 bytes over its middle, and reads it again.
const READS: &str = "\
    file f 4142\n\
    file g 4344\n\
    asm p\n\
    la s1, path\n\
    li a7, 11; li a0, 0; addi a1, sp, -16; li a2, 8; ecall\n\
    li a7, 9; mv a0, s1; li a1, 1; li a2, 0; ecall\n\
    li a7, 11; li a0, 3; addi a1, sp, -16; li a2, 8; ecall\n\
    li a7, 9; addi a0, s1, 1; li a1, 1; li a2, 0; ecall\n\
    li a7, 11; li a0, 4; addi a1, sp, -16; li a2, 1; ecall\n\
    li a7, 11; li a0, 4; addi a1, sp, -16; li a2, 8; ecall\n\
    li a7, 9; addi a0, s1, 2; li a1, 1; li a2, 1; ecall\n\
    li a7, 12; li a0, 5; lui a1, 16; lui a2, 16; ecall\n\
    li a7, 13; li a0, 5; li a1, 0; ecall\n\
    li a7, 11; li a0, 5; lui a1, 32; lui a2, 16; ecall\n\
    li a7, 13; li a0, 5; lui a1, 8; ecall\n\
    li a7, 12; li a0, 5; lui a1, 16; lui a2, 1; ecall\n\
    li a7, 13; li a0, 5; li a1, 0; ecall\n\
    li a7, 11; li a0, 5; lui a1, 32; lui a2, 16; ecall\n\
    li a7, 1; li a0, 0; ecall\n\
    path:\n\
    .byte 102, 103, 104\n\
    end\n\
    boot p\n\
    type 6162\n\
    type 63\n\
    run 1000\n\
    events\n\
    back copy event 15 0 2\n\
    back copy event 19 32766 4\n";

/// What is printed for that.
const READS_PRINTS: &str = "\
    event 0\n\
    event 1\n\
    event 2\n\
    event 3\n\
    event 4\n\
    event 5\n\
    ran 72 done\n\
    event 0 0 - file 2\n\
    event 1 0 - file 2\n\
    event 2 0 - file 315\n\
    event 3 0 1 boot 315\n\
    event 4 0 - type 2\n\
    event 5 0 - type 1\n\
    event 6 7 1 call.11.3 3\n\
    event 7 12 1 call.9.3 0\n\
    event 8 17 1 call.11.2 2\n\
    event 9 22 1 call.9.4 0\n\
    event 10 27 1 call.11.1 1\n\
    event 11 32 1 call.11.1 1\n\
    event 12 37 1 call.9.5 0\n\
    event 13 42 1 call.12.65536 65536\n\
    event 14 46 1 call.13.0 0\n\
    event 15 51 1 call.11.65536 65536\n\
    event 16 55 1 call.13.32768 0\n\
    event 17 60 1 call.12.4096 4096\n\
    event 18 64 1 call.13.0 0\n\
    event 19 69 1 call.11.65536 65536\n\
    event 20 72 1 call.1.0 1\n\
    events 21\n\
    pair 2 24 0\n\
    pair 2 25 1\n\
    back pairs 2 instructions 72 groups 1\n\
    pair 2 24 2\n\
    pair 2 25 3\n\
    back pairs 2 instructions 72 groups 1\n";

/// The origins of each read, in the order of the reads.
const GIVEN: &[&[Origin]] = &[
    &[
        Origin {
            event: 4,
            at: 0,
            len: 2,
        },
        Origin {
            event: 5,
            at: 0,
            len: 1,
        },
    ],
    &[Origin {
        event: 0,
        at: 0,
        len: 2,
    }],
    &[Origin {
        event: 1,
        at: 0,
        len: 1,
    }],
    &[Origin {
        event: 1,
        at: 1,
        len: 1,
    }],
    &[Origin {
        event: 13,
        at: 0,
        len: 65_536,
    }],
    &[
        Origin {
            event: 13,
            at: 0,
            len: 32_768,
        },
        Origin {
            event: 17,
            at: 0,
            len: 4_096,
        },
        Origin {
            event: 13,
            at: 36_864,
            len: 28_672,
        },
    ],
];

/// The reads among these records were given these bytes, in this order.
fn assert_given(rt: &impl Abort, records: &[Record]) {
    let mut left = GIVEN.iter();
    for record in records {
        if let Record::Call {
            extra: Extra::Give(give),
            ..
        } = record
        {
            let Some(want) = left.next() else {
                panic!(rt; "there are more reads")
            };
            assert_same(rt, give.origins.as_slice(), *want);
        }
    }
    assert!(rt; left.next().is_none());
}

#[test]
fn a_read_has_an_origin_for_each_run(rt: HostRuntime) -> Result<(), Fail> {
    let store = recorded(&rt, READS, READS_PRINTS)?;
    assert_given(&rt, store.entries());
    Ok(())
}
