// That local tracking, joined over stored origins, is the tracking of the whole machine.
ghost use Rattle.lineage_laws.specs.Laws.{LineageIsJoined};

use arn_model::{runs_append, runs_sound, steps_tell};
use log_model::events_recorded;

/// At every moment of every run, under every table of operands, tracking each step of the whole machine
/// gives each byte of a live process, of an event and of the kernel what the tracking of groups alone,
/// joined over stored origins and forks, gives.
pub fn lineage_is_joined()
    ensures { LineageIsJoined }
{
    steps_tell();
    runs_sound();
    runs_append();
    events_recorded();
}
