// What holds of the spellings of fields.
ghost use Rattle.schedule_log.specs.Laws.{CountedOneWay, FieldOneWay, FieldSpelled, FlagOneWay, FrontStands, NamedOneWay, StandsInFront};

/// Fields are read where they are spelled, and nothing else is read there.
pub fn fields_spelled_one_way()
    // Bytes begin with one number of so many bytes.
    ensures field { FieldOneWay }

    // Bytes begin with at most one flag.
    ensures flag { FlagOneWay }

    // Bytes begin with at most one list of bytes behind its length.
    ensures counted { CountedOneWay }

    // Bytes begin with at most one name.
    ensures named { NamedOneWay }

    // Two, four or eight bytes are a number's.
    ensures two { FieldSpelled 2 }
    ensures four { FieldSpelled 4 }
    ensures eight { FieldSpelled 8 }

    // What begins the bytes from a place on stands at that place.
    ensures stands { FrontStands }

    // What stands at a place begins the bytes from there on.
    ensures front { StandsInFront }
{}
