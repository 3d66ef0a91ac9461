// What parts of a text ask for.
ghost use Rattle.std.specs.Prelude.{◌≡◌, ℕ, List, IfOk};
ghost use Rattle.arn_lines.specs.declared.line.LineReading.TheVariants as reading;
ghost use Rattle.arn_lines.specs.Grammar.{Reads};
ghost use Rattle.arn_commands.specs.Commands.{Asks, line_command};
ghost use Rattle.arn_commands.specs.Parts.{Alone};
ghost use Rattle.arn_commands.specs.Pieces.{IsKept};
ghost use Rattle.arn_commands.specs.Sizes.{Fits};

use arn_base::{Bytes, NoMemory};
use arn_lines::{Line, LineReading, read_line};
use generator::{program, typed};
use guest_asm::{AsmError, assemble};
use std::alloc::Global;

/// What a line of a session asks for, with its block where it has one.
#[derive(Drop)]
pub enum Command {
    /// Nothing: an empty line, or a comment.
    PassedOver,
    /// A line above the bound, whatever it says.
    TooLong,
    /// A line outside the grammar.
    Unreadable,
    /// What a line says. A block says what a `file` line with the image of its program says.
    Says {
        line: Line,
    },
    /// A block whose program has a fault: this is the first faulty line behind `asm NAME`, from 1.
    Faulty {
        at: u64,
    },
    /// The generator is to run: with the image of its program, on bytes that are typed, with so many
    /// processes.
    Generates {
        image: Bytes,
        typed: Bytes,
        processes: u64,
    },
}

impl Command {
    /// What a line by itself asks for; `line` is what is kept of it.
    pub(crate) fn of_line(alloc: Global, line: &[u8]) -> Result<Command, NoMemory>
        ensures asks { IfOk result (λ command. (whole : List ℕ) →
            IsKept whole line.now → Asks (Alone whole) command) }
        ensures fits { IfOk result Fits }
    {
        let reading = read_line(alloc, line)?;
        Command::of_reading(alloc, reading)
    }

    // What a line that reads so asks for.
    fn of_reading(alloc: Global, reading: LineReading) -> Result<Command, NoMemory>
        ensures asks { IfOk result (λ command. command ≡ line_command reading) }
        ensures fits { IfOk result (λ command. (text : List ℕ) → Reads text reading → Fits command) }
    {
        match reading {
            LineReading::PassedOver => Ok(Command::PassedOver),
            LineReading::TooLong => Ok(Command::TooLong),
            LineReading::Unreadable => Ok(Command::Unreadable),
            LineReading::Says { line } => Ok(Command::Says { line }),
            LineReading::Generates { seed, processes } => {
                Command::of_generator(alloc, seed, processes)
            }
        }
    }

    // What a line `gen SEED N` asks for.
    fn of_generator(alloc: Global, seed: u64, processes: u64) -> Result<Command, NoMemory>
        ensures asks { IfOk result
            (λ command. command ≡ line_command (reading.Generates seed processes)) }
        ensures fits { IfOk result Fits }
    {
        let text = program(alloc, processes)?;
        match assemble(alloc, text.as_bytes()) {
            Ok(image) => {
                let typed = Bytes::from(typed(alloc, seed)?);
                Ok(Command::Generates {
                    image,
                    typed,
                    processes,
                })
            }
            Err(AsmError::Fault { line, .. }) => Ok(Command::Faulty { at: line }),
            Err(AsmError::NoMemory) => Err(NoMemory),
        }
    }
}
