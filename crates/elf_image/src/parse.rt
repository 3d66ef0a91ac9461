ghost use Rattle.std.specs.Prelude.{◌≡◌, ◌≤◌, ◌↔◌, length, false, IfOk, IsErr, IsTrue};
ghost use Rattle.parts_model.specs.Image.{can_enter as enters};
ghost use Rattle.elf_image.specs.Elf.{is_elf, has_ident, is_executable, has_sizes, has_table, has_headers};
ghost use Rattle.elf_image.specs.Parsed.{IsElfOf, HasTable, read_elf};

use crate::elf::{Elf, NotElf};
use crate::format::{
    CLASS_64, CURRENT_VERSION, EXECUTABLE, FILE_HEADER_LEN, HEADER_LEN, LITTLE_ENDIAN,
    MOST_HEADERS, RISC_V,
};
use crate::headers::numbered_header;
use crate::numbers::{ends_by, number_2, number_4, number_8};
use parts_model::limits::{WINDOW_END, WINDOW_START};

/// Reads the file header of a static ELF64 file. The file is accepted where it is an executable of
/// RISC-V whose table of 1 to 64 program headers lies whole in it, none of them asks for a linker,
/// each that is loaded has its ranges whole in the file and in the private window, and the entry is
/// a multiple of 4 in that window. The first four bytes are not looked at.
pub fn parse_elf(bytes: &[u8]) -> Result<Elf, NotElf>
    ensures elf { IfOk result (IsElfOf bytes.now) }
    ensures not_elf { IsErr result ↔ (is_elf bytes.now ≡ false) }
{
    if bytes.len() < FILE_HEADER_LEN {
        return Err(NotElf);
    }
    let elf = file_header(bytes);
    if is_accepted(bytes, &elf) {
        Ok(elf)
    } else {
        Err(NotElf)
    }
}

fn file_header(bytes: &[u8]) -> Elf
    requires { FILE_HEADER_LEN ≤ length bytes.now }
    ensures { result ≡ read_elf bytes.now }
{
    Elf {
        entry: number_8(bytes, 24),
        table: number_8(bytes, 32),
        count: number_2(bytes, 56),
    }
}

fn is_accepted(bytes: &[u8], elf: &Elf) -> bool
    requires long { FILE_HEADER_LEN ≤ length bytes.now }
    requires read { elf.now ≡ read_elf bytes.now }
    ensures { result ≡ is_elf bytes.now }
{
    has_ident(bytes)
        && is_executable(bytes)
        && has_sizes(bytes, elf)
        && has_table(bytes, elf)
        && has_headers(bytes, elf)
        && can_enter(elf.entry)
}

fn has_ident(bytes: &[u8]) -> bool
    requires { FILE_HEADER_LEN ≤ length bytes.now }
    ensures { result ≡ has_ident bytes.now }
{
    bytes[4] == CLASS_64 && (bytes[5] == LITTLE_ENDIAN && bytes[6] == CURRENT_VERSION)
}

fn is_executable(bytes: &[u8]) -> bool
    requires { FILE_HEADER_LEN ≤ length bytes.now }
    ensures { result ≡ is_executable bytes.now }
{
    number_2(bytes, 16) == EXECUTABLE
        && (number_2(bytes, 18) == RISC_V && number_4(bytes, 20) == u32::from(CURRENT_VERSION))
}

fn has_sizes(bytes: &[u8], elf: &Elf) -> bool
    requires long { FILE_HEADER_LEN ≤ length bytes.now }
    requires read { elf.now ≡ read_elf bytes.now }
    ensures { result ≡ has_sizes bytes.now }
{
    usize::from(number_2(bytes, 54)) == HEADER_LEN && (1 <= elf.count && elf.count <= MOST_HEADERS)
}

fn has_table(bytes: &[u8], elf: &Elf) -> bool
    requires { elf.now ≡ read_elf bytes.now }
    ensures result { result ≡ has_table bytes.now }
    ensures whole { IsTrue result → HasTable bytes.now elf.now }
{
    let len = HEADER_LEN * usize::from(elf.count);
    ends_by(elf.table, len as u64, bytes.len() as u64)
}

fn has_headers(bytes: &[u8], elf: &Elf) -> bool
    requires read { elf.now ≡ read_elf bytes.now }
    requires table { HasTable bytes.now elf.now }
    ensures { result ≡ has_headers bytes.now }
{
    for n in 0..elf.count {
        if !numbered_header(bytes, elf, n).is_static(bytes.len() as u64) {
            return false;
        }
    }
    true
}

fn can_enter(entry: u64) -> bool
    ensures { result ≡ enters entry }
{
    entry % 4 == 0 && (WINDOW_START <= entry && entry < WINDOW_END)
}
