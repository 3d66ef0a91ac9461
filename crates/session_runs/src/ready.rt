// What holds where a machine adds records to the history to which it belongs.
ghost use Rattle.std.specs.Prelude.{◌<◌, ◌^◌, length};
ghost use Rattle.arn_model.specs.Laws.{EachRunAppends};
ghost use Rattle.guest_legs.specs.LegLaws.{LegsAsNamed};
ghost use Rattle.guest_machine.specs.Laws.{NamedFollow, RecordsFollow, RecordsLeaveRoom, RunsFollow};
ghost use Rattle.log_model.specs.Laws.{NamedAppend, RecordsAreRun, RecordsBegin};

use arn_model::runs_append;
use guest_machine::{legs_as_named, named_follow, records_follow, records_leave_room, runs_follow};
use log_model::{named_append, records_are_run};
use log_store::Store;

/// The laws of machines and histories.
pub fn history_laws()
    ensures named { NamedFollow }
    ensures records { RecordsFollow }
    ensures runs { RunsFollow }
    ensures are_run { RecordsAreRun }
    ensures room { RecordsLeaveRoom }
    ensures legs { LegsAsNamed }
    ensures names { NamedAppend }
    ensures begin { RecordsBegin }
    ensures append { EachRunAppends }
{
    named_follow();
    records_follow();
    runs_follow();
    records_are_run();
    records_leave_room();
    legs_as_named();
    named_append();
    runs_append();
}

/// There are few enough records to count them.
pub fn count_records(store: &Store)
    ensures { length store.now.entries < 2 ^ 63 }
{
    let _ = store.entries().len();
}
