// What a version of a file is on the records of a run.
ghost use Rattle.version_laws.specs.OfRuns.{VersionsAreOfRuns};

use arn_model::{runs_append, runs_sound, steps_tell};
use log_model::events_recorded;
use replay_laws::records_tell_events;

/// On the records of a run the version of a file at a moment is what the whole machine holds of it then;
/// where fewer than 2^63 processes have been made.
pub fn versions_are_of_runs()
    ensures { VersionsAreOfRuns }
{
    steps_tell();
    runs_sound();
    runs_append();
    events_recorded();
    records_tell_events();
}
