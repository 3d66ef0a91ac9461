// That each record of a run stands behind those before it.
ghost use Rattle.unbroken_laws.specs.Laws.{RunsAreUnbroken};

use arn_model::{requests_bounded, runs_append, runs_sound, steps_tell};
use log_model::records_append;
use replay_laws::{records_tell_moments, records_tell_runs};

/// Each record of a run can stand behind those before it, so that the run can be indexed; where fewer
/// than 2^63 processes have been made.
pub fn runs_are_unbroken()
    ensures { RunsAreUnbroken }
{
    requests_bounded();
    steps_tell();
    runs_sound();
    runs_append();
    records_append();
    records_tell_runs();
    records_tell_moments();
}
