// A source, read command by command.
ghost use Rattle.std.specs.Prelude.{◌≡◌, ◌≢◌, ◌≤◌, ◌∷◌, [], None, List, ℕ, IfOk, IfErr, IsErrOf};
ghost use Rattle.arn_base.specs.Faults.{Rose, NeverFalls};
ghost use Rattle.arn_commands.specs.declared.error.ReadError.TheVariants as error;
ghost use Rattle.arn_commands.specs.Blocks.{EndsText, ReadsBlock, ReadsNoBlock, fresh_block};
ghost use Rattle.arn_commands.specs.Lines.{lines_of};
ghost use Rattle.arn_commands.specs.Nexts.{NextFits, ReadsNext, ReadsPart};
ghost use Rattle.arn_commands.specs.Pieces.{IsKept, IsOneLine};
ghost use Rattle.arn_commands.specs.Reader.{fresh_reader, StopsLong, StopsShort, UsesSome};
ghost use Rattle.arn_commands.specs.Sizes.{Fits};

use crate::block::{Block, is_end};
use crate::command::Command;
use crate::error::ReadError;
use crate::next::Next;
use crate::reader::{MOST_TAKEN, Reader};
use arn_base::{NoMemory, Source};
use std::alloc::Global;
use std::marker::Model;

/// Takes the text of a session from a source, and gives it command by command.
///
/// Of a line that is too long, only as much is held as tells that.
#[derive(Drop)]
pub struct Commands {
    lines: Reader,
    line: Vec<u8>,
}

impl Model for Commands {
    ghost use Rattle.arn_commands.specs.Reader.{ReaderState};

    ghost Value = { ReaderState };

    ghost view = { λ c. c.lines };
}

/// What comes last in a text, where no LF ends its last line; `line` is what is kept of it.
fn last(alloc: Global, line: &[u8]) -> Result<Next, NoMemory>
    ensures next { IfOk result (λ next. (whole : List ℕ) →
        IsOneLine whole → IsKept whole line.now → EndsText whole next) }
    ensures fits { IfOk result NextFits }
{
    if line.is_empty() {
        return Ok(Next::End);
    }
    match Block::opened_by(alloc, line)? {
        Some(block) => {
            let command = block.command(false)?;
            Ok(Next::Last { command })
        }
        None => {
            let command = Command::of_line(alloc, line)?;
            Ok(Next::Last { command })
        }
    }
}

impl Commands {
    /// Before the first byte is taken.
    pub fn new(alloc: Global) -> Result<Commands, NoMemory>
        ensures { IfOk result (λ commands. commands ≡ fresh_reader) }
    {
        Ok(Commands {
            lines: Reader::new(alloc)?,
            line: Vec::new(alloc),
        })
    }

    /// Reads the next command of the text. An error gives up the part that was begun.
    pub fn next<S: Source>(&mut self, source: &mut S) -> Result<Next, ReadError>
        requires within { self.old.taken ≤ MOST_TAKEN }

        ensures next { IfOk result (λ next. ReadsNext next self.old self.new
            (S.left source.old) (S.left source.new)) }
        ensures fits { IfOk result NextFits }

        // No whole part was taken.
        ensures part { IfErr result (λ e. e ≢ error.NoMemory → ReadsPart self.old self.new
            (S.left source.old) (S.left source.new)) }
        ensures source { IsErrOf result ReadError.Source → StopsShort self.new }
        ensures long { IsErrOf result ReadError.Long → StopsLong self.new }
        ensures cause { IsErrOf result ReadError.Source →
            Rose (S.faults source.old) (S.faults source.new) }

        ensures used { UsesSome self.old self.new (S.left source.old) (S.left source.new) }
        ensures still_within { self.new.taken ≤ MOST_TAKEN }
        ensures faults { NeverFalls (S.faults source.old) (S.faults source.new) }
    {
        let has_feed = self.lines.next_line(source, &mut self.line)?;
        let alloc = *self.line.allocator();
        let line = self.line.as_slice();
        if !has_feed {
            return Ok(last(alloc, line)?);
        }
        match Block::opened_by(alloc, line)? {
            Some(block) => self.rest_of(block, source),
            None => {
                let command = Command::of_line(alloc, line)?;
                Ok(Next::More { command })
            }
        }
    }

    /// Reads the rest of a block.
    fn rest_of<S: Source>(&mut self, mut block: Block, source: &mut S) -> Result<Next, ReadError>
        requires within { self.old.taken ≤ MOST_TAKEN }
        requires fresh { block ≡ fresh_block block.name }

        ensures block { IfOk result (λ next. ReadsBlock block.name next self.old self.new
            (S.left source.old) (S.left source.new)) }
        ensures fits { IfOk result NextFits }
        ensures part { IfErr result (λ e. e ≢ error.NoMemory →
            ReadsNoBlock block.name self.old self.new (S.left source.old) (S.left source.new)) }
        ensures source { IsErrOf result ReadError.Source → StopsShort self.new }
        ensures long { IsErrOf result ReadError.Long → StopsLong self.new }
        ensures cause { IsErrOf result ReadError.Source →
            Rose (S.faults source.old) (S.faults source.new) }

        ensures used { UsesSome self.old self.new (S.left source.old) (S.left source.new) }
        ensures still_within { self.new.taken ≤ MOST_TAKEN }
        ensures faults { NeverFalls (S.faults source.old) (S.faults source.new) }
    {
        while self.lines.next_line(source, &mut self.line)? {
            let line = self.line.as_slice();
            if is_end(line) {
                let command = block.command(true)?;
                return Ok(Next::More { command });
            }
            block.push(line)?;
        }
        let command = block.last(self.line.as_slice())?;
        Ok(Next::Last { command })
    }
}
