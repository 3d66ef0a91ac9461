// What holds of queries.
ghost use Rattle.query_engine.specs.Engines.{SeenStays};
ghost use Rattle.query_engine.specs.Laws.{Laws, LawsOfNames, LawsOfStates};

use followed_groups::kept_stays;
use query_laws::{
    groups_are_connected, groups_are_one, held_is_of_bytes, held_items_are_there, items_fit,
    named_are_written, reaching_is_of_bytes, written_is_of_bytes,
};

/// What a query rests on, of groups and of their items.
pub fn laws()
    ensures { Laws }
{
    groups_are_connected();
    groups_are_one();
    items_fit();
    reaching_is_of_bytes();
}

/// What one of bytes that a process holds at a moment rests on besides.
pub fn laws_of_states()
    ensures { LawsOfStates }
{
    held_items_are_there();
    held_is_of_bytes();
}

/// What one of bytes of a file at a moment rests on besides.
pub fn laws_of_names()
    ensures { LawsOfNames }
{
    named_are_written();
    written_is_of_bytes();
}

/// An engine whose queries so far were on records has seen those that begin with these.
pub fn seen_stays()
    ensures { SeenStays }
{
    kept_stays();
}
