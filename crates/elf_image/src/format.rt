// Numbers and fields of the ELF-64 object file format, each with its name there.

/// How many bytes the file header has: `e_ehsize`.
pub const FILE_HEADER_LEN: usize = 64;

/// How many bytes a program header has: `e_phentsize`.
pub const HEADER_LEN: usize = 56;

/// How many program headers an accepted file has at most.
pub const MOST_HEADERS: u16 = 64;

/// The class of files with 64-bit numbers: `ELFCLASS64`.
pub const CLASS_64: u8 = 2;

/// The order of bytes, the lowest first: `ELFDATA2LSB`.
pub const LITTLE_ENDIAN: u8 = 1;

/// The version of the format: `EV_CURRENT`.
pub const CURRENT_VERSION: u8 = 1;

/// The type of executable files: `ET_EXEC`.
pub const EXECUTABLE: u16 = 2;

/// The machine: `EM_RISCV`.
pub const RISC_V: u16 = 243;

/// The type of a program header that gives bytes to memory: `PT_LOAD`.
pub const LOAD: u32 = 1;

/// The type of a program header for a linker: `PT_DYNAMIC`.
pub const DYNAMIC: u32 = 2;

/// The type of a program header that names a linker: `PT_INTERP`.
pub const INTERPRETER: u32 = 3;

/// What a program header says of a range of the file, and of one of memory.
#[derive(Clone, Copy)]
pub struct Header {
    /// `p_type`.
    pub kind: u32,
    /// `p_offset`.
    pub offset: u64,
    /// `p_vaddr`.
    pub address: u64,
    /// `p_filesz`.
    pub file_len: u64,
    /// `p_memsz`.
    pub memory_len: u64,
}
