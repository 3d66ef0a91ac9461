// Blocks, line by line.
ghost use Rattle.std.specs.Prelude.{◌≡◌, ℕ, Some, ◌∷◌, [], ◌++◌, List, length, nat_lt, if◌then◌else◌, option_map, IfOk, OnOk, false};
ghost use Rattle.arn_lines.specs.Grammar.{block_name};
ghost use Rattle.arn_commands.specs.Blocks.{HoldsLines, IsLastPart, fresh_block};
ghost use Rattle.arn_commands.specs.Commands.{Asks, no_statement};
ghost use Rattle.arn_commands.specs.Lines.{lines_of};
ghost use Rattle.arn_commands.specs.Parts.{Block as block_part, is_end};
ghost use Rattle.arn_commands.specs.Pieces.{IsKept, IsOneLine};
ghost use Rattle.arn_commands.specs.Sizes.{Fits};

use crate::command::Command;
use arn_base::{Bytes, NoMemory};
use arn_lines::{Line, MOST_LINE, block_name};
use guest_asm::{AsmError, assemble};
use std::alloc::Global;
use std::marker::Model;

/// A statement that there isn't. It stands for a line that is too long.
const NO_STATEMENT: &[u8] = b"?";

/// The line behind the last one of a block.
const END: &[u8] = b"end";

/// A block so far: its name, the text of its program, and of how many lines that is.
#[derive(Drop)]
pub(crate) struct Block {
    name: Bytes,
    text: Vec<u8>,
    lines: u64,
}

impl Model for Block {
    ghost use Rattle.std.specs.Prelude.{vec_len};
    ghost use Rattle.arn_commands.specs.Blocks.{BlockState, IsBlockSound};

    ghost Value = { BlockState };

    ghost view = { λ b. record { name = b.name; text = b.text.items; lines = b.lines } };

    ghost invariant = { λ b. IsBlockSound b.name (vec_len b.text) b.lines };
}

/// Whether a line ends a block.
pub(crate) fn is_end(line: &[u8]) -> bool
    ensures { result ≡ is_end line.now }
{
    line == END
}

/// What stands in a program's text for a line of a block.
fn statement(line: &[u8]) -> &[u8]
    ensures { result.now ≡
        (if nat_lt MOST_LINE (length line.now) then no_statement else line.now) }
{
    if line.len() > MOST_LINE {
        NO_STATEMENT
    } else {
        line
    }
}

// In what follows, `line` is what is kept of a line.
impl Block {
    /// The block that a line opens, if it does.
    pub(crate) fn opened_by(alloc: Global, line: &[u8]) -> Result<Option<Block>, NoMemory>
        ensures { IfOk result (λ block. (whole : List ℕ) → IsKept whole line.now →
            block ≡ option_map fresh_block (block_name whole)) }
    {
        let Some(name) = block_name(line) else {
            return Ok(None);
        };
        Ok(Some(Block {
            name: Bytes::from_slice(alloc, name)?,
            text: Vec::new(alloc),
            lines: 0,
        }))
    }

    /// Appends a line that doesn't end the block.
    pub(crate) fn push(&mut self, line: &[u8]) -> Result<(), NoMemory>
        ensures name { self.new.name ≡ self.old.name }
        ensures lines { OnOk result ((lines : List (List ℕ)) (whole : List ℕ) →
            HoldsLines self.old lines → IsKept whole line.now → is_end line.now ≡ false →
            HoldsLines self.new (lines ++ whole ∷ [])) }
    {
        self.text.extend_from_slice(statement(line))?;
        self.text.push(b'\n')?;
        self.lines += 1;
        Ok(())
    }

    /// What the block asks for, with its `end` or without.
    pub(crate) fn command(self, is_ended: bool) -> Result<Command, NoMemory>
        ensures asks { IfOk result (λ command. (lines : List (List ℕ)) →
            HoldsLines self lines → Asks (block_part self.name lines is_ended) command) }
        ensures fits { IfOk result Fits }
    {
        match assemble(*self.text.allocator(), self.text.as_slice()) {
            Ok(bytes) => Ok(if is_ended {
                Command::Says {
                    line: Line::File {
                        name: self.name,
                        bytes,
                    },
                }
            } else {
                Command::Faulty { at: self.lines + 1 }
            }),
            Err(AsmError::Fault { line, .. }) => Ok(Command::Faulty { at: line }),
            Err(AsmError::NoMemory) => Err(NoMemory),
        }
    }

    /// What the block asks for, where the text ends with this line, which has no LF.
    pub(crate) fn last(mut self, line: &[u8]) -> Result<Command, NoMemory>
        ensures asks { IfOk result (λ command. (lines : List (List ℕ)) (whole : List ℕ) →
            HoldsLines self lines → IsOneLine whole → IsKept whole line.now →
            IsLastPart (Some self.name) (lines ++ lines_of whole) command) }
        ensures fits { IfOk result Fits }
    {
        if is_end(line) {
            return self.command(true);
        }
        if line.is_empty() {
            return self.command(false);
        }
        self.push(line)?;
        self.command(false)
    }
}
