ghost use Rattle.std.specs.Prelude.{◌∷◌, [], ◌++◌};
ghost use Rattle.asm_text.specs.Statements as statement;
ghost use Rattle.asm_text.specs.Seen.{KeepsReading};

use crate::characters::{is_label, split_word};
use crate::fault::AsmKind;
use crate::formed::formed;
use crate::statement::{Statement, StatementReading};
use crate::words::form_of;

// A statement that begins with a word.
fn worded(text: &[u8]) -> StatementReading<'_>
    ensures { KeepsReading result (statement.worded text.now) }
{
    let (word, rest) = split_word(text);
    let Some(form) = form_of(word) else {
        return StatementReading::Wrong(AsmKind::Word);
    };
    match formed(form, rest) {
        Some(statement) => StatementReading::Says(statement),
        None => StatementReading::Wrong(AsmKind::Operand),
    }
}

/// Reads a statement, from which the blanks at its ends were taken.
pub fn read(text: &[u8]) -> StatementReading<'_>
    ensures { KeepsReading result (statement.reading text.now) }
{
    let Some((last, name)) = text.split_last() else {
        return StatementReading::Says(Statement::Nothing);
    };
    if *last == b':' && is_label(name) {
        StatementReading::Says(Statement::Label { name })
    } else {
        worded(text)
    }
}
