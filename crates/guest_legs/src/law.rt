// What holds of slices that are picked, and of their records.
ghost use Rattle.guest_legs.specs.LegLaws.{LegsAsNamed, PicksFollow};

use log_model::{named_append, slices_are_named};

/// Choices of slices follow one another.
pub fn picks_follow()
    ensures { PicksFollow }
{}

/// Slices do what the slices do that their records name.
pub fn legs_as_named()
    ensures { LegsAsNamed }
{
    named_append();
    slices_are_named();
}
