use crate::command::Command;

/// What comes next in a text.
#[derive(Drop)]
pub enum Next {
    /// A command, behind which others may stand.
    More { command: Command },
    /// The last command: its line ends with the text, or its block has no `end`.
    Last { command: Command },
    /// Nothing: the text is at its end.
    End,
}
