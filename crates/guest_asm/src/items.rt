// The statements of a text, with the numbers of their lines.
ghost use Rattle.std.specs.Prelude.{◌++◌, List, IfOk, OnOk, map};
ghost use Rattle.std.specs.List.{AllZip};
ghost use Rattle.guest_asm.specs.Assembled as assembled;
ghost use Rattle.asm_text.specs.Characters.{statements};
ghost use Rattle.guest_asm.specs.Kept.{KeepsItem};
ghost use Rattle.asm_text.specs.Statements.{reading};

use crate::splitting::{Parts, without_comment};
use arn_base::NoMemory;
use asm_text::{StatementReading, read, trimmed};
use std::alloc::Global;

/// What is read of a statement, and the number of its line.
#[derive(Clone, Copy)]
pub(crate) struct Item<'a> {
    pub(crate) line: u64,
    pub(crate) reading: StatementReading<'a>,
}

// Adds the statements of a line with this number.
fn add_line<'a>(kept: &mut Vec<Item<'a>>, number: u64, line: &'a [u8]) -> Result<(), NoMemory>
    ensures { OnOk result ((done : List assembled.Item) → AllZip KeepsItem kept.old.items done →
        AllZip KeepsItem kept.new.items (done
        ++ map (λ text. record { line = number; reading = reading text }) (statements line.now))) }
{
    let mut parts = Parts::new(without_comment(line), b';');
    while let Some(part) = parts.next() {
        let reading = read(trimmed(part));
        kept.extend_from_slice(&[Item {
            line: number,
            reading,
        }])?;
    }
    Ok(())
}

/// The statements of a text.
pub(crate) fn items<'a>(alloc: Global, text: &'a [u8]) -> Result<Vec<Item<'a>>, NoMemory>
    ensures { IfOk result (λ kept. AllZip KeepsItem kept.items (assembled.items text.now)) }
{
    let mut kept = Vec::new(alloc);
    let mut lines = Parts::new(text, b'\n');
    let mut number = 0u64;
    while let Some(line) = lines.next() {
        number += 1;
        add_line(&mut kept, number, line)?;
    }
    Ok(kept)
}
