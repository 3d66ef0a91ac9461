// Which command is refused, and which line needs the machine. A line that isn't named here is never
// refused, and needs none.
ghost use Rattle.std.specs.Prelude.{◌≡◌, List};
ghost use Rattle.arn_base.specs.declared.records.Record.{Record};
ghost use Rattle.session_commands.specs.Given.{Given, given};
ghost use Rattle.session_commands.specs.Lines.{command_refusal};
ghost use Rattle.session_commands.specs.Rows.{row_of};
ghost use Rattle.session_model.specs.Questions.{Told};

use crate::refusals::{
    boot_refusal, bring_refusal, early_refusal, fault_refusal, generator_refusal, unplug_refusal,
};
use arn_base::Record;
use arn_commands::Command;
use arn_lines::{Line, Refusal};
use guest_devices::Plugs;

// Why a line is refused, if it is. The line, the records of the history and the devices that are there
// tell, and no machine is needed.
fn refusal_of<A: Plugs>(entries: &[Record], line: &Line, answers: &A) -> Option<Refusal>
    ensures { (told : Told) → result ≡
        (row_of (given told (A.filled answers.now)) entries.now line.now).refusal }
{
    match line {
        Line::File { name, .. } => bring_refusal(entries, name.as_slice()),
        Line::Boot { name } => boot_refusal(entries, name.as_slice()),
        Line::Type { .. } | Line::Run { .. } => early_refusal(entries),
        Line::Unplug { device } => unplug_refusal(entries, *device, answers),
        _ => None,
    }
}

/// Why a command is refused, if it is.
pub fn command_refusal<A: Plugs>(
    entries: &[Record],
    command: &Command,
    answers: &A,
) -> Option<Refusal>
    ensures { (told : Told) → result ≡
        command_refusal (given told (A.filled answers.now)) entries.now command.now }
{
    match command {
        Command::PassedOver => None,
        Command::TooLong => Some(Refusal::NoLong),
        Command::Unreadable => Some(Refusal::NoLine),
        Command::Says { line } => refusal_of(entries, line, answers),
        Command::Faulty { at } => Some(fault_refusal(entries, *at)),
        Command::Generates { .. } => generator_refusal(entries),
    }
}

/// Whether a line that isn't refused goes on with the running machine.
pub fn needs_machine(line: &Line) -> bool
    ensures { (g : Given) (history : List Record) →
        result ≡ (row_of g history line.now).needs_machine }
{
    match line {
        Line::File { .. }
        | Line::Boot { .. }
        | Line::Type { .. }
        | Line::Run { .. }
        | Line::Unplug { .. } => true,
        _ => false,
    }
}
