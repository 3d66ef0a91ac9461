/// What is wrong with a line of a program's text. Of several faults on a line the first in this
/// order is told.
#[derive(Clone, Copy, Debug, PartialEq, Eq)]
pub enum AsmKind {
    /// There is no such statement.
    Word,
    /// The statement has other operands.
    Operand,
    /// A number or a distance is out of its field.
    Range,
    /// A label is unknown, or was defined before.
    Label,
    /// An instruction stands at an offset that is no multiple of 4.
    Align,
    /// The program has more than 262,144 bytes.
    Size,
}
