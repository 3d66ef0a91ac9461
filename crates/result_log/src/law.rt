// What holds of the spellings as a whole.
ghost use Rattle.result_log.specs.Laws.{ReadsAsSpelled, ReadsBytes, ReadsOneWay, ReadsToItsEnd, SpelledOneWay, SpelledWhereRead};

use exchange_log::gives_spelled_one_way;
use schedule_log::fields_spelled_one_way;

/// A record is read where it is spelled, and nothing else is read there.
pub fn records_spelled_one_way()
    // No spelling begins another, and no two records have the same.
    ensures spelled { SpelledOneWay }

    // At a place of bytes at most one record is read, with one end.
    ensures read { ReadsOneWay }

    // A record is read wherever its spelling stands.
    ensures stands { ReadsAsSpelled }

    // Where a record is read, its spelling stands.
    ensures as_spelled { SpelledWhereRead }

    // Reading goes on by at least one byte.
    ensures goes_on { ReadsBytes }

    // Reading goes on by as many bytes as the record's spelling has.
    ensures to_its_end { ReadsToItsEnd }
{
    fields_spelled_one_way();
    gives_spelled_one_way();
}
