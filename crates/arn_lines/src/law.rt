// What holds of the grammar as a whole.
ghost use Rattle.arn_lines.specs.Grammar.{ReadsOneWay};

/// The grammar is unambiguous.
pub fn lines_read_one_way()
    ensures { ReadsOneWay }
{}
