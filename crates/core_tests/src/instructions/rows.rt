// Instructions, and what each does. The words are those that LLVM's assembler writes, and the values
// are worked out by the manual's text.

use rv64_core::Outcome;
use rv64_core::Outcome::{Call, End, Next};

// What an instruction comes to, the register that it writes with its value, both 0 where it writes
// none, and pc then.
pub(crate) type After = (Outcome, usize, u64, u64);

// Where the instruction stands, and the next word.
pub(crate) const HERE: u64 = 0x1_0000;

pub(crate) const BEHIND: u64 = 0x1_0004;

// The numbers with bits 63 and 0, with bit 63, with all bits below it, and with all bits.
const ENDS: u64 = 0x8000_0000_0000_0001;

const LEAST: u64 = 0x8000_0000_0000_0000;

const MOST: u64 = 0x7fff_ffff_ffff_ffff;

const MINUS_1: u64 = 0xffff_ffff_ffff_ffff;

// The least number of 32 bits, its sign extended.
const LEAST_WORD: u64 = 0xffff_ffff_8000_0000;

// A name, the word, the values of x6 and x7, and the value that x5 gets.
pub(crate) static OPERATIONS: [(&str, u32, u64, u64, u64); 92] = [
    ("add wraps", 0x0073_02b3, MINUS_1, 2, 1),
    ("sub wraps", 0x4073_02b3, 0, 1, MINUS_1),
    ("xor", 0x0073_42b3, 0b1100, 0b1010, 0b0110),
    ("or", 0x0073_62b3, 0b1100, 0b1010, 0b1110),
    ("and", 0x0073_72b3, 0b1100, 0b1010, 0b1000),
    ("addi of -2048", 0x8003_0293, 0, 0, 0xffff_ffff_ffff_f800),
    ("addi wraps", 0x0013_0293, MINUS_1, 0, 0),
    ("xori of -1", 0xfff3_4293, ENDS, 0, 0x7fff_ffff_ffff_fffe),
    ("ori of -16", 0xff03_6293, 18, 0, 0xffff_ffff_ffff_fff2),
    (
        "andi of -16",
        0xff03_7293,
        MINUS_1,
        0,
        0xffff_ffff_ffff_fff0,
    ),
    ("sll by 0", 0x0073_12b3, ENDS, 0, ENDS),
    ("sll by 31", 0x0073_12b3, ENDS, 31, 0x8000_0000),
    ("sll by 32", 0x0073_12b3, ENDS, 32, 0x1_0000_0000),
    ("sll by 63", 0x0073_12b3, ENDS, 63, LEAST),
    ("sll by 64", 0x0073_12b3, ENDS, 64, ENDS),
    ("sll by -1", 0x0073_12b3, ENDS, MINUS_1, LEAST),
    ("srl by 0", 0x0073_52b3, ENDS, 0, ENDS),
    ("srl by 31", 0x0073_52b3, ENDS, 31, 0x1_0000_0000),
    ("srl by 32", 0x0073_52b3, ENDS, 32, 0x8000_0000),
    ("srl by 63", 0x0073_52b3, ENDS, 63, 1),
    ("srl by 64", 0x0073_52b3, ENDS, 64, ENDS),
    ("srl by 127", 0x0073_52b3, ENDS, 127, 1),
    ("sra by 0", 0x4073_52b3, ENDS, 0, ENDS),
    ("sra by 31", 0x4073_52b3, ENDS, 31, 0xffff_ffff_0000_0000),
    ("sra by 32", 0x4073_52b3, ENDS, 32, 0xffff_ffff_8000_0000),
    ("sra by 63", 0x4073_52b3, ENDS, 63, MINUS_1),
    ("sra by 63, no sign", 0x4073_52b3, MOST, 63, 0),
    ("sra by 68", 0x4073_52b3, LEAST, 68, 0xf800_0000_0000_0000),
    ("slli by 0", 0x0003_1293, ENDS, 0, ENDS),
    ("slli by 31", 0x01f3_1293, ENDS, 0, 0x8000_0000),
    ("slli by 32", 0x0203_1293, ENDS, 0, 0x1_0000_0000),
    ("slli by 63", 0x03f3_1293, ENDS, 0, LEAST),
    ("srli by 0", 0x0003_5293, ENDS, 0, ENDS),
    ("srli by 31", 0x01f3_5293, ENDS, 0, 0x1_0000_0000),
    ("srli by 32", 0x0203_5293, ENDS, 0, 0x8000_0000),
    ("srli by 63", 0x03f3_5293, ENDS, 0, 1),
    ("srai by 0", 0x4003_5293, ENDS, 0, ENDS),
    ("srai by 31", 0x41f3_5293, ENDS, 0, 0xffff_ffff_0000_0000),
    ("srai by 32", 0x4203_5293, ENDS, 0, 0xffff_ffff_8000_0000),
    ("srai by 63", 0x43f3_5293, ENDS, 0, MINUS_1),
    ("srai by 63, no sign", 0x43f3_5293, MOST, 0, 0),
    ("addw to 2^31", 0x0073_02bb, 0x7fff_ffff, 1, LEAST_WORD),
    ("addw to 2^32", 0x0073_02bb, 0xffff_ffff, 1, 0),
    ("addw of lows", 0x0073_02bb, 0x7_0000_0000, 1, 1),
    ("addiw to 2^31", 0x0013_029b, 0x7fff_ffff, 0, LEAST_WORD),
    ("addiw of -1", 0xfff3_029b, LEAST_WORD, 0, 0x7fff_ffff),
    ("addiw of 0", 0x0003_029b, 0x1_8000_0000, 0, LEAST_WORD),
    ("subw from -2^31", 0x4073_02bb, LEAST_WORD, 1, 0x7fff_ffff),
    ("subw of -2^31", 0x4073_02bb, 0, LEAST_WORD, LEAST_WORD),
    ("subw to -1", 0x4073_02bb, 0x1_0000_0000, 1, MINUS_1),
    ("sllw by 0", 0x0073_12bb, 0x1_8000_0000, 0, LEAST_WORD),
    ("sllw by 30", 0x0073_12bb, 1, 30, 0x4000_0000),
    ("sllw by 31", 0x0073_12bb, 3, 31, LEAST_WORD),
    ("sllw by 32", 0x0073_12bb, 3, 32, 3),
    ("sllw by 63", 0x0073_12bb, 3, 63, LEAST_WORD),
    ("sllw past 2^31", 0x0073_12bb, 0xc000_0000, 1, LEAST_WORD),
    ("srlw by 0", 0x0073_52bb, 0x1_8000_0000, 0, LEAST_WORD),
    ("srlw by 1", 0x0073_52bb, LEAST_WORD, 1, 0x4000_0000),
    ("srlw by 31", 0x0073_52bb, 0x1_8000_0000, 31, 1),
    ("srlw by 32", 0x0073_52bb, 0x1_8000_0000, 32, LEAST_WORD),
    ("srlw by 63", 0x0073_52bb, LEAST_WORD, 63, 1),
    ("sraw by 0", 0x4073_52bb, 0x1_8000_0000, 0, LEAST_WORD),
    ("sraw by 31", 0x4073_52bb, 0x8000_0000, 31, MINUS_1),
    (
        "sraw by 31, no sign",
        0x4073_52bb,
        0xffff_ffff_7fff_ffff,
        31,
        0,
    ),
    ("sraw by 32", 0x4073_52bb, 0x8000_0000, 32, LEAST_WORD),
    (
        "sraw by 33",
        0x4073_52bb,
        0xffff_ffff_4000_0000,
        33,
        0x2000_0000,
    ),
    ("sraw by 63", 0x4073_52bb, 0x8000_0000, 63, MINUS_1),
    ("slliw by 0", 0x0003_129b, 0x1_8000_0000, 0, LEAST_WORD),
    ("slliw by 31", 0x01f3_129b, 3, 0, LEAST_WORD),
    ("srliw by 0", 0x0003_529b, 0x1_8000_0000, 0, LEAST_WORD),
    ("srliw by 31", 0x01f3_529b, LEAST_WORD, 0, 1),
    ("sraiw by 0", 0x4003_529b, 0x8000_0000, 0, LEAST_WORD),
    ("sraiw by 31", 0x41f3_529b, 0x8000_0000, 0, MINUS_1),
    (
        "sraiw by 31, no sign",
        0x41f3_529b,
        0xffff_ffff_7fff_ffff,
        0,
        0,
    ),
    ("slt of the most", 0x0073_22b3, MOST, LEAST, 0),
    ("slt of the least", 0x0073_22b3, LEAST, MOST, 1),
    ("slt of -1", 0x0073_22b3, MINUS_1, 0, 1),
    ("slt of 0", 0x0073_22b3, 0, MINUS_1, 0),
    ("slt of the same", 0x0073_22b3, LEAST, LEAST, 0),
    ("sltu of the most", 0x0073_32b3, MOST, LEAST, 1),
    ("sltu of the least", 0x0073_32b3, LEAST, MOST, 0),
    ("sltu of -1", 0x0073_32b3, MINUS_1, 0, 0),
    ("sltu of 0", 0x0073_32b3, 0, MINUS_1, 1),
    ("sltu of the same", 0x0073_32b3, MINUS_1, MINUS_1, 0),
    ("slti of the least", 0xfff3_2293, LEAST, 0, 1),
    ("slti of the most", 0xfff3_2293, MOST, 0, 0),
    ("slti of -1", 0xfff3_2293, MINUS_1, 0, 0),
    ("slti of 0", 0xfff3_2293, 0, 0, 0),
    ("sltiu of the least", 0xfff3_3293, LEAST, 0, 1),
    ("sltiu of -1", 0xfff3_3293, MINUS_1, 0, 0),
    ("sltiu of 0", 0xfff3_3293, 0, 0, 1),
    ("sltiu of 1", 0x0013_3293, 0, 0, 1),
];

// A name, the word, the values of x6 and x7, and pc behind the branch.
pub(crate) static BRANCHES: [(&str, u32, u64, u64, u64); 24] = [
    ("beq of the same", 0x0073_0463, LEAST, LEAST, 0x1_0008),
    ("beq of others", 0x0073_0463, 0, LEAST, 0x1_0004),
    ("bne of the same", 0x0073_1463, LEAST, LEAST, 0x1_0004),
    ("bne of others", 0x0073_1463, 0, LEAST, 0x1_0008),
    ("blt of the most", 0x0073_4463, MOST, LEAST, 0x1_0004),
    ("blt of the least", 0x0073_4463, LEAST, MOST, 0x1_0008),
    ("blt of -1", 0x0073_4463, MINUS_1, 0, 0x1_0008),
    ("blt of 0", 0x0073_4463, 0, MINUS_1, 0x1_0004),
    ("blt of the same", 0x0073_4463, LEAST, LEAST, 0x1_0004),
    ("bge of the most", 0x0073_5463, MOST, LEAST, 0x1_0008),
    ("bge of the least", 0x0073_5463, LEAST, MOST, 0x1_0004),
    ("bge of -1", 0x0073_5463, MINUS_1, 0, 0x1_0004),
    ("bge of 0", 0x0073_5463, 0, MINUS_1, 0x1_0008),
    ("bge of the same", 0x0073_5463, LEAST, LEAST, 0x1_0008),
    ("bltu of the most", 0x0073_6463, MOST, LEAST, 0x1_0008),
    ("bltu of the least", 0x0073_6463, LEAST, MOST, 0x1_0004),
    ("bltu of -1", 0x0073_6463, MINUS_1, 0, 0x1_0004),
    ("bltu of 0", 0x0073_6463, 0, MINUS_1, 0x1_0008),
    ("bltu of the same", 0x0073_6463, MINUS_1, MINUS_1, 0x1_0004),
    ("bgeu of the most", 0x0073_7463, MOST, LEAST, 0x1_0004),
    ("bgeu of the least", 0x0073_7463, LEAST, MOST, 0x1_0008),
    ("bgeu of -1", 0x0073_7463, MINUS_1, 0, 0x1_0008),
    ("bgeu of 0", 0x0073_7463, 0, MINUS_1, 0x1_0004),
    ("bgeu of the same", 0x0073_7463, MINUS_1, MINUS_1, 0x1_0008),
];

// A name, the word, the value of x6, and what happens.
pub(crate) static OTHERS: [(&str, u32, u64, After); 28] = [
    ("branch backward", 0xfe03_1ce3, 1, (Next, 0, 0, 0xfff8)),
    ("farthest branch", 0x8003_0063, 0, (Next, 0, 0, 0xf000)),
    ("branch askew", 0x0003_0163, 0, (End(135), 0, 0, HERE)),
    (
        "branch askew, not taken",
        0x0003_0163,
        1,
        (Next, 0, 0, 0x1_0004),
    ),
    (
        "branch askew, backward",
        0xfe60_6de3,
        1,
        (End(135), 0, 0, HERE),
    ),
    ("jal", 0x0080_02ef, 0, (Next, 5, BEHIND, 0x1_0008)),
    ("jal backward", 0xffdf_f06f, 0, (Next, 0, 0, 0xfffc)),
    ("jal askew", 0x0060_00ef, 0, (End(135), 0, 0, HERE)),
    (
        "jalr to an odd target",
        0x0013_02e7,
        0x2_0000,
        (Next, 5, BEHIND, 0x2_0000),
    ),
    (
        "jalr through rd",
        0xffd3_0367,
        0x2_0007,
        (Next, 6, BEHIND, 0x2_0004),
    ),
    (
        "jalr past the end",
        0x0043_0067,
        0xffff_ffff_ffff_fffc,
        (Next, 0, 0, 0),
    ),
    ("jalr askew", 0x0023_00e7, 0x2_0000, (End(135), 0, 0, HERE)),
    (
        "jalr askew through rd",
        0x0033_0367,
        0x2_0000,
        (End(135), 0, 0, HERE),
    ),
    ("lui", 0x7fff_f2b7, 0, (Next, 5, 0x7fff_f000, BEHIND)),
    (
        "lui of the sign",
        0x8000_02b7,
        0,
        (Next, 5, LEAST_WORD, BEHIND),
    ),
    ("auipc", 0x7fff_f297, 0, (Next, 5, 0x8000_f000, BEHIND)),
    ("auipc of -1", 0xffff_f297, 0, (Next, 5, 0xf000, BEHIND)),
    (
        "auipc of the sign",
        0x8000_0297,
        0,
        (Next, 5, 0xffff_ffff_8001_0000, BEHIND),
    ),
    ("addi to x0", 0x0013_0013, 5, (Next, 0, 0, 0x1_0004)),
    ("addi of x0", 0x00b0_0313, 5, (Next, 6, 11, BEHIND)),
    ("addi of x31", 0xffff_8f93, 5, (Next, 31, MINUS_1, BEHIND)),
    ("fence", 0x0ff0_000f, 5, (Next, 0, 0, 0x1_0004)),
    (
        "fence of reserved fields",
        0x0ff1_8f8f,
        5,
        (Next, 0, 0, 0x1_0004),
    ),
    ("ecall", 0x0000_0073, 5, (Call, 0, 0, HERE)),
    ("ebreak", 0x0010_0073, 5, (End(133), 0, 0, HERE)),
    ("ecall with an rd", 0x0000_00f3, 5, (End(132), 0, 0, HERE)),
    ("slli of no row", 0x0400_1013, 5, (End(132), 0, 0, HERE)),
    ("all zeros", 0x0000_0000, 5, (End(132), 0, 0, HERE)),
];

// The bytes 0x80 to 0x87, and 0x70 to 0x77, as numbers.
pub(crate) const FIRST: u64 = 0x8786_8584_8382_8180;

pub(crate) const SECOND: u64 = 0x7776_7574_7372_7170;

// A name, the word, the value of x6, and what happens where the first bytes lie at 0x1_0004 and the
// second behind them, to the end.
pub(crate) static LOADS: [(&str, u32, u64, After); 22] = [
    (
        "lb",
        0x0003_0083,
        0x1_0004,
        (Next, 1, 0xffff_ffff_ffff_ff80, BEHIND),
    ),
    (
        "lb, no sign",
        0x0003_0083,
        0x1_000c,
        (Next, 1, 0x70, BEHIND),
    ),
    ("lbu", 0x0003_4083, 0x1_0004, (Next, 1, 0x80, BEHIND)),
    (
        "lh",
        0x0003_1083,
        0x1_0004,
        (Next, 1, 0xffff_ffff_ffff_8180, BEHIND),
    ),
    (
        "lh, no sign",
        0x0003_1083,
        0x1_000c,
        (Next, 1, 0x7170, BEHIND),
    ),
    (
        "lh askew",
        0x0003_1083,
        0x1_0007,
        (Next, 1, 0xffff_ffff_ffff_8483, BEHIND),
    ),
    ("lhu", 0x0003_5083, 0x1_0004, (Next, 1, 0x8180, BEHIND)),
    (
        "lw",
        0x0003_2083,
        0x1_0004,
        (Next, 1, 0xffff_ffff_8382_8180, BEHIND),
    ),
    (
        "lw, no sign",
        0x0003_2083,
        0x1_000c,
        (Next, 1, 0x7372_7170, BEHIND),
    ),
    (
        "lw askew",
        0xffc3_2083,
        0x1_0009,
        (Next, 1, 0xffff_ffff_8483_8281, BEHIND),
    ),
    ("lwu", 0x0003_6083, 0x1_0004, (Next, 1, 0x8382_8180, BEHIND)),
    ("ld", 0x0003_3083, 0x1_0004, (Next, 1, FIRST, BEHIND)),
    (
        "ld, no sign",
        0x0083_3083,
        0x1_0004,
        (Next, 1, SECOND, BEHIND),
    ),
    ("ld to x0", 0x0003_3003, 0x1_0004, (Next, 0, 0, 0x1_0004)),
    (
        "lb at the end",
        0x0003_0083,
        0x1_0014,
        (End(139), 0, 0, HERE),
    ),
    ("lbu before", 0xfff3_4083, 0x1_0000, (End(139), 0, 0, HERE)),
    (
        "lh across the end",
        0x0003_1083,
        0x1_0013,
        (End(139), 0, 0, HERE),
    ),
    (
        "lhu across the end",
        0x0003_5083,
        0x1_0013,
        (End(139), 0, 0, HERE),
    ),
    (
        "lw across the end",
        0x0003_2083,
        0x1_0011,
        (End(139), 0, 0, HERE),
    ),
    (
        "lwu across the end",
        0x0003_6083,
        0x1_0011,
        (End(139), 0, 0, HERE),
    ),
    (
        "ld across the end",
        0x0003_3083,
        0x1_000d,
        (End(139), 0, 0, HERE),
    ),
    ("ld across 2^64", 0xffc3_3083, 0, (End(139), 0, 0, HERE)),
];

// What x7 has at the stores.
pub(crate) const STORED: u64 = 0x8877_6655_4433_2211;

// A name, the word, the value of x6, and what the two numbers become.
pub(crate) static STORES: [(&str, u32, u64, u64, u64); 6] = [
    ("sb", 0x0073_00a3, 0x1_0004, 0x8786_8584_8382_1180, SECOND),
    (
        "sh askew",
        0x0073_13a3,
        0x1_0004,
        0x1186_8584_8382_8180,
        0x7776_7574_7372_7122,
    ),
    ("sw", 0x0073_2023, 0x1_0004, 0x8786_8584_4433_2211, SECOND),
    (
        "sw askew",
        0xfe73_2e23,
        0x1_000a,
        0x8786_4433_2211_8180,
        SECOND,
    ),
    ("sd", 0x0073_3423, 0x1_0004, FIRST, 0x8877_6655_4433_2211),
    ("sd of x0", 0x0003_3023, 0x1_0004, 0, SECOND),
];

// A name, the word, and the value of x6, at stores outside.
pub(crate) static BAD_STORES: [(&str, u32, u64); 6] = [
    ("sb at the end", 0x0073_0023, 0x1_0014),
    ("sh across the end", 0x0073_1023, 0x1_0013),
    ("sw across the end", 0x0073_2023, 0x1_0011),
    ("sd across the end", 0x0073_3023, 0x1_000d),
    ("sd across the start", 0xfe73_3e23, 0x1_0000),
    ("sw from x0", 0x0070_2223, 0x1_0004),
];

// A name, the word, the value of x6, and what the instruction would come to in the memory of the
// loads and stores.
pub(crate) static AHEAD: [(&str, u32, u64, Outcome); 13] = [
    ("addi", 0x0013_0293, 5, Next),
    ("lb at the last byte", 0x0003_0083, 0x1_0013, Next),
    ("lb at the end", 0x0003_0083, 0x1_0014, End(139)),
    ("sd of the last bytes", 0x0073_3023, 0x1_000c, Next),
    ("sd across the end", 0x0073_3023, 0x1_000d, End(139)),
    ("jal", 0x0080_02ef, 0, Next),
    ("jal askew", 0x0060_00ef, 0, End(135)),
    ("jalr askew", 0x0023_00e7, 0x2_0000, End(135)),
    ("branch askew", 0x0003_0163, 0, End(135)),
    ("branch askew, not taken", 0x0003_0163, 1, Next),
    ("ecall", 0x0000_0073, 5, Call),
    ("ebreak", 0x0010_0073, 5, End(133)),
    ("all zeros", 0x0000_0000, 5, End(132)),
];
