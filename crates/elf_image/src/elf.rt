/// What the file header of an accepted file says.
#[derive(Clone, Copy, Debug, PartialEq, Eq)]
pub struct Elf {
    /// The address of the first instruction: `e_entry`.
    pub entry: u64,
    /// Where the table of program headers stands in the file: `e_phoff`.
    pub table: u64,
    /// How many program headers it has: `e_phnum`.
    pub count: u16,
}

/// The bytes are no static ELF64 file that is accepted.
#[derive(Clone, Copy, Debug, PartialEq, Eq)]
pub struct NotElf;

/// A range of the file, and the range of memory that begins with its bytes.
#[derive(Clone, Copy, Debug, PartialEq, Eq)]
pub struct Part {
    /// Where its bytes stand in the file: `p_offset`.
    pub offset: u32,
    /// How many bytes are copied: `p_filesz`.
    pub file_len: u32,
    /// The address of the first: `p_vaddr`.
    pub address: u64,
    /// How many bytes the range of memory has: `p_memsz`.
    pub memory_len: u32,
}
