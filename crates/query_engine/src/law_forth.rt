// What holds of queries forward.
ghost use Rattle.query_engine.specs.LawsForth.{LawsForth};

use query_laws::{first_are_told, forth_is_one, reaching_is_among, sinks_are_reached};

/// What a query forward rests on: of groups, of their items and of writes to the outside.
pub fn laws_forth()
    ensures { LawsForth }
{
    forth_is_one();
    first_are_told();
    sinks_are_reached();
    reaching_is_among();
}
