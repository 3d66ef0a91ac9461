// What holds of touches, of points, and of what lies between them.
ghost use Rattle.session_runs.specs.Ends.{RunsEnd};
ghost use Rattle.session_runs.specs.Laws.{PointsFollow, SlicesUnplugNothing, TouchesFollow};
ghost use Rattle.session_runs.specs.Quiet.{QuietPointsFollow};
ghost use Rattle.session_runs.specs.Touches.{answering};

use arn_base::Disk;
use arn_model::runs_append;
use guest_devices::Plugs;
use guest_machine::picks_follow;
use log_model::{events_recorded, named_append, records_append};
use session_effects::{Runs, effects_follow, halts_follow, quiet_follows};

/// What touches those who answer for devices follows one another.
pub fn touches_follow<A: Plugs>()
    ensures { TouchesFollow (answering A.answers A.unplugs A.filled) }
{}

/// Records that name slices alone unplug nothing.
pub fn slices_unplug_nothing()
    ensures { SlicesUnplugNothing }
{}

/// What lies between points follows one another, and where a session halts behind it.
pub fn points_follow<R: Runs, D: Disk, A: Plugs>()
    ensures { PointsFollow R.is_run D.Disk (answering A.answers A.unplugs A.filled) }
{
    touches_follow::<A>();
    picks_follow();
    named_append();
    effects_follow::<R, D>();
    halts_follow::<R, D>();
}

/// What is done over a sink that drops what it is given, and then told in one text.
pub fn quiet_points_follow<R: Runs, D: Disk, A: Plugs>()
    ensures { QuietPointsFollow R.is_run D.Disk (answering A.answers A.unplugs A.filled) }
{
    quiet_follows::<R, D>();
    halts_follow::<R, D>();
    records_append();
    events_recorded();
    runs_append();
}

/// Each run ends with its machine done or stalled, or with its budget spent, and not before.
pub fn runs_end()
    ensures { RunsEnd }
{}
