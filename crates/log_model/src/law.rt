// What holds of the records of runs.
ghost use Rattle.log_model.specs.Laws.{BehindAppend, EventsRecorded, NamedAppend, NamedRunsAgain, RecordsAppend, RecordsAreRun, RecordsBegin, RecordsBound, SlicesAreNamed, SlicesTakeSteps};

use arn_model::{replies_are_told, runs_append, turns_have_parts};

/// Records are only ever added.
pub fn records_append()
    ensures { RecordsAppend }
{}

/// The records of a run without its slices are those of its events, in order.
pub fn events_recorded()
    ensures { EventsRecorded }
{
    turns_have_parts();
}

/// What records name does the same again.
pub fn named_runs_again()
    ensures { NamedRunsAgain }
{
    turns_have_parts();
    runs_append();
    replies_are_told();
}

/// The records of any inputs are those of a run.
pub fn records_are_run()
    ensures { RecordsAreRun }
{
    turns_have_parts();
    runs_append();
    replies_are_told();
}

/// A slice that may run takes a step.
pub fn slices_take_steps()
    ensures { SlicesTakeSteps }
{}

/// A slice that may run is named by its records.
pub fn slices_are_named()
    ensures { SlicesAreNamed }
{
    turns_have_parts();
    replies_are_told();
}

/// What records behind others name.
pub fn named_append()
    ensures named { NamedAppend }
    ensures behind { BehindAppend }
    ensures begin { RecordsBegin }
{}

/// How many events and instructions records allow.
pub fn records_bound()
    ensures { RecordsBound }
{
    turns_have_parts();
}
