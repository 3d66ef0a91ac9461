// What calls come to, by their numbers.
ghost use Rattle.guest_requests.specs.Calls.{ComeToRows, OthersAreReady};

/// Each call comes to its row.
pub fn calls_come_to_rows()
    ensures { ComeToRows }
{}

/// All calls but four are always ready.
pub fn others_are_ready()
    ensures { OthersAreReady }
{}
