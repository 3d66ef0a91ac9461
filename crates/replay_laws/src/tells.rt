// What the records of a run tell of it.
ghost use Rattle.replay_laws.specs.Laws.{RecordsTellEvents, RecordsTellMoments, RecordsTellRuns};

use arn_model::{runs_append, runs_sound, steps_tell, turns_have_parts};
use log_model::events_recorded;

/// What the records of a run tell of it: how many instructions and events there were, whether a process
/// was made, which file a name stands for, and which devices were unplugged; where fewer than 2^63 processes
/// have been made.
pub fn records_tell_runs()
    ensures { RecordsTellRuns }
{
    turns_have_parts();
    steps_tell();
    runs_append();
    runs_sound();
    events_recorded();
}

/// What the records of a run tell of a moment: who lives, and which segment each live process holds;
/// where fewer than 2^63 processes have been made.
pub fn records_tell_moments()
    ensures { RecordsTellMoments }
{
    turns_have_parts();
    steps_tell();
    runs_sound();
}

/// Which events the records of a run tell to have happened at a moment: as many of the first ones as the
/// run has had up to it.
pub fn records_tell_events()
    ensures { RecordsTellEvents }
{
    turns_have_parts();
}
