// What holds of all commands.
ghost use Rattle.arn_commands.specs.Commands.{AsksOneWay};

use arn_lines::lines_read_one_way;

/// A part of a text asks for one thing.
pub fn parts_ask_one_way()
    ensures { AsksOneWay }
{
    lines_read_one_way();
}
