// Program headers: how they are read, and which are those of a static file.
ghost use Rattle.std.specs.Prelude.{◌≡◌, ◌≤◌, ◌+◌, ◌<◌, length};
ghost use Rattle.elf_image.specs.Elf.{header, header_at, is_loaded, is_linked, is_in_file, is_in_window, fits, is_static};
ghost use Rattle.elf_image.specs.Parsed.{HasTable, read_elf};

use crate::elf::Elf;
use crate::format::{DYNAMIC, HEADER_LEN, Header, INTERPRETER, LOAD};
use crate::numbers::{ends_by, number_4, number_8};
use parts_model::limits::{WINDOW_END, WINDOW_START};

/// The program header of a number below the count.
pub fn numbered_header(bytes: &[u8], elf: &Elf, n: u16) -> Header
    requires read { elf.now ≡ read_elf bytes.now }
    requires table { HasTable bytes.now elf.now }
    requires below { n < elf.now.count }
    ensures { result ≡ header bytes.now n }
{
    read_header(bytes, elf.table as usize + HEADER_LEN * usize::from(n))
}

fn read_header(bytes: &[u8], at: usize) -> Header
    requires { at + HEADER_LEN ≤ length bytes.now }
    ensures { result ≡ header_at bytes.now at }
{
    Header {
        kind: number_4(bytes, at),
        offset: number_8(bytes, at + 8),
        address: number_8(bytes, at + 16),
        file_len: number_8(bytes, at + 32),
        memory_len: number_8(bytes, at + 40),
    }
}

impl Header {
    /// Whether the header gives memory its bytes.
    pub fn is_loaded(&self) -> bool
        ensures { result ≡ is_loaded self.now }
    {
        self.kind == LOAD && self.memory_len > 0
    }

    /// Whether no linker is asked for, and what is loaded fits, in a file of so many bytes.
    pub fn is_static(&self, len: u64) -> bool
        ensures { result ≡ is_static len self.now }
    {
        !self.is_linked() && (!self.is_loaded() || self.fits(len))
    }

    fn is_linked(&self) -> bool
        ensures { result ≡ is_linked self.now }
    {
        self.kind == DYNAMIC || self.kind == INTERPRETER
    }

    fn fits(&self, len: u64) -> bool
        ensures { result ≡ fits len self.now }
    {
        self.file_len <= self.memory_len && self.is_in_file(len) && self.is_in_window()
    }

    fn is_in_file(&self, len: u64) -> bool
        ensures { result ≡ is_in_file len self.now }
    {
        ends_by(self.offset, self.file_len, len)
    }

    fn is_in_window(&self) -> bool
        ensures { result ≡ is_in_window self.now }
    {
        WINDOW_START <= self.address && ends_by(self.address, self.memory_len, WINDOW_END)
    }
}
