use crate::same::assert_same;
use elf_image::{Elf, Part, parse_elf, part};

// A file header, a program header that loads the whole file, and room for eleven instructions.
const FILE: &[u8; 164] = b"\x7fELF\x02\x01\x01\0\0\0\0\0\0\0\0\0\
      \x02\0\xf3\0\x01\0\0\0x\0\x01\0\0\0\0\0\
      @\0\0\0\0\0\0\0\0\0\0\0\0\0\0\0\
      \0\0\0\0@\08\0\x01\0\0\0\0\0\0\0\
      \x01\0\0\0\x05\0\0\0\0\0\0\0\0\0\0\0\
      \0\0\x01\0\0\0\0\0\0\0\x01\0\0\0\0\0\
      \xa4\0\0\0\0\0\0\0\xa4\0\0\0\0\0\0\0\
      \0\x10\0\0\0\0\0\0\
      \0\0\0\0\0\0\0\0\0\0\0\0\0\0\0\0\0\0\0\0\0\0\0\0\0\0\0\0\0\0\0\0\0\0\0\0\0\0\0\0\0\0\0\0";

#[test]
fn reads_the_file_header_and_its_parts(rt: HostRuntime) {
    let elf = parse_elf(FILE);
    let header = Elf {
        entry: 0x1_0078,
        table: 64,
        count: 1,
    };
    assert_same(&rt, elf, Ok(header));
    let Ok(elf) = elf else {
        return;
    };
    let whole = Part {
        offset: 0,
        file_len: 164,
        address: 0x1_0000,
        memory_len: 164,
    };
    assert_same(&rt, part(FILE, &elf, 0), Some(whole));
    assert_same(&rt, part(FILE, &elf, 1), None);
}

// Each case changes one byte: the magic number's, or one of a field that is asked.
#[test]
fn tells_static_files_from_other_bytes(rt: HostRuntime) {
    let cases = [
        (0, 0, true),
        (4, 1, false),
        (16, 3, false),
        (18, 0, false),
        (24, 0x7a, false),
        (32, 0xa4, false),
        (56, 0, false),
        (64, 2, false),
        (64, 3, false),
        (64, 4, true),
        (96, 0xa5, false),
        (103, 0xff, false),
        (106, 4, false),
        (110, 0xff, false),
    ];
    for (at, byte, is_static) in cases {
        assert_same(&rt, (at, is_accepted_with(at, byte)), (at, is_static));
    }
}

// Whether the file is accepted with this byte at a place.
fn is_accepted_with(at: usize, byte: u8) -> bool {
    let mut file = *FILE;
    if let Some(changed) = file.get_mut(at) {
        *changed = byte;
    }
    parse_elf(&file).is_ok()
}
