// When the events of a run happened, and what its groups ran.
ghost use Rattle.view_laws.specs.Counts.{CountsAreOfRuns};

use arn_model::steps_tell;
use log_model::events_recorded;
use replay_laws::{groups_pass_through, records_tell_events, records_tell_runs};
use replayer::runs_before;
use unbroken_laws::runs_are_unbroken;

/// The records of a run tell its events, the moment of each, and how many instructions each group did, as
/// they were in the run.
pub fn counts_are_of_runs()
    ensures { CountsAreOfRuns }
{
    steps_tell();
    events_recorded();
    groups_pass_through();
    records_tell_events();
    records_tell_runs();
    runs_are_unbroken();
    runs_before();
}
