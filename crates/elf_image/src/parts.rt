ghost use Rattle.std.specs.Prelude.{◌≡◌, ◌≤◌, ◌+◌, ◌<◌, ◌^◌, ◌↔◌, length, false, IfSome, IsNone};
ghost use Rattle.elf_image.specs.Elf.{header};
ghost use Rattle.elf_image.specs.Parsed.{IsElfOf, IsPartOf, IsWhole, IsInFile, HasRoom, IsInWindow, has_part};

use crate::elf::{Elf, Part};
use crate::format::Header;
use crate::headers::numbered_header;

/// What the program header of a number gives memory. There is no part where the number isn't below
/// the count, or where that header isn't of the type for this, or has no memory.
pub fn part(bytes: &[u8], elf: &Elf, n: u16) -> Option<Part>
    requires parsed { IsElfOf bytes.now elf.now }
    requires short { length bytes.now < 2 ^ 32 }
    ensures part { IfSome result (IsPartOf (header bytes.now n)) }
    ensures in_file { IfSome result (IsInFile (length bytes.now)) }
    ensures room { IfSome result HasRoom }
    ensures in_window { IfSome result IsInWindow }
    ensures none { IsNone result ↔ (has_part bytes.now n ≡ false) }
{
    let header = loaded_header(bytes, elf, n)?;
    Some(Part {
        offset: header.offset as u32,
        file_len: header.file_len as u32,
        address: header.address,
        memory_len: header.memory_len as u32,
    })
}

fn loaded_header(bytes: &[u8], elf: &Elf, n: u16) -> Option<Header>
    requires { IsElfOf bytes.now elf.now }
    ensures header { IfSome result (λ h. h ≡ header bytes.now n) }
    ensures whole { IfSome result (IsWhole (length bytes.now)) }
    ensures none { IsNone result ↔ (has_part bytes.now n ≡ false) }
{
    if n >= elf.count {
        return None;
    }
    let header = numbered_header(bytes, elf, n);
    if header.is_loaded() {
        Some(header)
    } else {
        None
    }
}
