// What holds of runs and their records.
ghost use Rattle.guest_machine.specs.Gone.{GoneUnasked};
ghost use Rattle.guest_machine.specs.Laws.{NamedFollow, RecordsFollow, RecordsLeaveRoom, RunsFollow};
ghost use Rattle.guest_machine.specs.TookLaws.{AnswersAreRecorded, SlotsFollow, TookBy};

use arn_base::Device;
use arn_model::turns_have_parts;
use guest_devices::Answers;
use log_model::{named_runs_again, records_bound};

/// Runs follow one another.
pub fn runs_follow()
    ensures { RunsFollow }
{}

/// Records are only ever added.
pub fn records_follow()
    ensures { RecordsFollow }
{}

/// What records name leads to the same machine.
pub fn named_follow()
    ensures { NamedFollow }
{
    named_runs_again();
}

/// A machine with few enough records can go on counting.
pub fn records_leave_room()
    ensures { RecordsLeaveRoom }
{
    records_bound();
}

/// The record of a slice's call holds what was answered to what it asks.
pub fn answers_are_recorded<A: Answers>()
    ensures { AnswersAreRecorded A.answers }
{
    turns_have_parts();
}

/// A device that was unplugged isn't asked.
pub fn gone_unasked()
    ensures { GoneUnasked }
{}

/// What devices in slots gave and took is what the records say, slice by slice and in a whole leg.
pub fn slots_follow<D: Device>()
    ensures follow { SlotsFollow D.Device }
    ensures took { TookBy D.Device }
{
    turns_have_parts();
}
