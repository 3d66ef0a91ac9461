// What holds of the spellings of gives.
ghost use Rattle.exchange_log.specs.Gives.{GiveOneWay};

use schedule_log::fields_spelled_one_way;

/// Bytes begin with at most one give.
pub fn gives_spelled_one_way()
    ensures { GiveOneWay }
{
    fields_spelled_one_way();
}
