// What holds of groups alone, for who follows their members.
ghost use Rattle.taint_state.specs.Kept.{shown};
ghost use Rattle.taint_state.specs.Shown.{Tracking};
ghost use Rattle.taint_laws.specs.Laws.{FollowsHolders, HearsEvents, ToldHears, ToldHolds, ToldShows, UnheardHaveNone};

use taint_state::stays_apart;
use window_laws::instructions_keep_lengths;

/// What happens inside a group alone is what its members do, by what they hold, and is possible.
pub fn follows_holders()
    ensures { FollowsHolders }
{
    instructions_keep_lengths();
}

/// Who was told of all that happened inside a group shows what tracking the group alone by lists says.
pub fn told_shows()
    ensures { ToldShows (λ (x : Tracking). x) }
{
    stays_apart();
}

/// So does what a tracker keeps.
pub fn told_keeps()
    ensures { ToldShows shown }
{
    stays_apart();
}

/// Who was told of all that happened inside a group, and keeps it, has heard its events.
pub fn told_hears()
    ensures { ToldHears shown }
{
    stays_apart();
}

/// Its members are those that live then, with the memories that they hold.
pub fn told_holds()
    ensures { ToldHolds shown }
{
    stays_apart();
}

/// An event that isn't one of a group's shows nothing there, and one that started no group shows no byte
/// with which a child begins.
pub fn unheard_have_none()
    ensures { UnheardHaveNone }
{}

/// What a group hears are events of the history: each has as many bytes as its record has, and is a fork
/// that started a group only where its record is one.
pub fn hears_events()
    ensures { HearsEvents }
{}
