// When an event is fresh.
ghost use Rattle.guest_bodies.specs.Fresh.{LaterIsFresh, OthersStayUnheld};

/// An event is fresh where every memory that a live process holds was made before it.
pub fn later_is_fresh()
    ensures { LaterIsFresh }
{}

/// What keeps an event fresh: whatever happens at another takes no memory that it made.
pub fn others_stay_unheld()
    ensures { OthersStayUnheld }
{}
