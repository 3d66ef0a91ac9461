// What is too far to be asked for.
ghost use Rattle.session_reports.specs.Far.{FarIsNowhere};

use past_lives::lives_have_groups;

/// On records that can be indexed no process has a number that 32 bits don't count, and none has so many
/// bytes that can be asked for.
pub fn far_is_nowhere()
    ensures { FarIsNowhere }
{
    lives_have_groups();
}
