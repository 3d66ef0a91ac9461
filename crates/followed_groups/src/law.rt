// What holds of what is kept.
ghost use Rattle.followed_groups.specs.Relations.{KeptStays};

/// What is kept of records is kept of those that begin with these.
pub fn kept_stays()
    ensures { KeptStays }
{}
