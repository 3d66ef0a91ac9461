// What a past state holds.
ghost use Rattle.std.specs.Prelude.{◌≡◌, ◌++◌, OnErr, OnOk};
ghost use Rattle.std.specs.String.{string_bytes};
ghost use Rattle.report_texts.specs.Values.{file_line, mem_line, regs_line};

use arn_base::{Cpu, NoMemory};
use arn_lines::{Piece, push_line};
use std::slice;

/// Appends `regs PC X1 X2 .. X31`: the registers of a process.
pub fn push_regs(text: &mut String, cpu: &Cpu) -> Result<(), NoMemory>
    ensures ok { OnOk result (string_bytes text.new ≡ string_bytes text.old ++ regs_line cpu.now) }
    ensures err { OnErr result (string_bytes text.new ≡ string_bytes text.old) }
{
    push_line(
        text,
        &[
            Piece::Text("regs"),
            Piece::Words(slice::from_ref(&cpu.pc)),
            Piece::Words(cpu.x.as_slice()),
            Piece::Text("\n"),
        ],
    )
}

/// Appends `mem HEX`: bytes of a process's memory.
pub fn push_mem(text: &mut String, bytes: &[u8]) -> Result<(), NoMemory>
    ensures ok { OnOk result
        (string_bytes text.new ≡ string_bytes text.old ++ mem_line bytes.now) }
    ensures err { OnErr result (string_bytes text.new ≡ string_bytes text.old) }
{
    push_line(
        text,
        &[Piece::Text("mem "), Piece::Bytes(bytes), Piece::Text("\n")],
    )
}

/// Appends `file HEX`: the bytes of a file.
pub fn push_file(text: &mut String, bytes: &[u8]) -> Result<(), NoMemory>
    ensures ok { OnOk result
        (string_bytes text.new ≡ string_bytes text.old ++ file_line bytes.now) }
    ensures err { OnErr result (string_bytes text.new ≡ string_bytes text.old) }
{
    push_line(
        text,
        &[Piece::Text("file "), Piece::Bytes(bytes), Piece::Text("\n")],
    )
}
