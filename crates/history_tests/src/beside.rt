// A session in which a process spins beside two that hand bytes on.

/// A process hands typed bytes to a second child by a pipe, which writes them, while a first child spins.
pub const BESIDE: &str = "\
    asm p\n\
    li a7, 15; ecall\n\
    li a7, 2; ecall; beq a0, zero, spin\n\
    li a7, 2; ecall; beq a0, zero, child\n\
    li a7, 11; li a0, 0; addi a1, sp, -16; li a2, 3; ecall\n\
    li a7, 12; li a0, 4; ecall; j quit\n\
    child: ; li a7, 11; li a0, 3; addi a1, sp, -16; li a2, 3; ecall\n\
    li a7, 12; li a0, 1; ecall\n\
    quit: ; li a7, 1; li a0, 0; ecall\n\
    spin: ; j spin\n\
    end\n\
    boot p\n\
    type 616263\n\
    run 1000000\n\
    back copy event 10 0 3\n\
    groups\n";

/// What is printed for that.
pub const BESIDE_PRINTS: &str = "\
    event 0\nevent 1\nevent 2\n\
    out 10 3 616263\n\
    ran 1000000 budget\n\
    pair 2 0 0\n\
    pair 2 1 1\n\
    pair 2 2 2\n\
    back pairs 3 instructions 32 groups 1 3\n\
    group 1 processes 1 instructions 20\n\
    group 2 processes 1 instructions 999968\n\
    group 3 processes 1 instructions 12\n\
    groups 3\n";
