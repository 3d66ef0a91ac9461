// What holds of the records of a log, which is never long.
ghost use Rattle.session_questions.specs.Short.{ShortLogsAreCountable, ShortRunsHaveNumbers, ShortRunsStand};

use arn_model::runs_sound;
use log_model::records_bound;
use unbroken_laws::runs_are_unbroken;

/// The records of a log can be counted, and so can the bytes of each: every list whose bytes an event
/// counts stands in its record's spelling.
pub fn short_logs_are_countable()
    ensures { ShortLogsAreCountable }
{}

/// A run with the records of a log has made fewer than 2^63 processes, since each was made by an event.
pub fn short_runs_have_numbers()
    ensures { ShortRunsHaveNumbers }
{
    records_bound();
    runs_sound();
}

/// The records of a run that are those of a log can be indexed.
pub fn short_runs_stand()
    ensures { ShortRunsStand }
{
    short_runs_have_numbers();
    runs_are_unbroken();
}
