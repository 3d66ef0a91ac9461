// What holds of records that are compared.
ghost use Rattle.record_match.specs.Laws.{RecordsCompare};

/// Two records are the same or they aren't, and `==` tells.
pub fn records_compare()
    ensures { RecordsCompare }
{}
