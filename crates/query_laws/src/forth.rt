// What holds of a query forward.
ghost use Rattle.query_laws.specs.Forth.{FirstAreTold, ForthIsConnected, ForthIsOne, ReachingIsAmong, SinksAreReached};
ghost use Rattle.query_laws.specs.ForthOfRuns.{ForthIsOfRuns, ForthLosesNothing};

use crate::law::{items_are_received, queries_are_of_runs};
use arn_model::steps_tell;
use lineage_join::{pairs_are_told, reach_same};
use lineage_laws::lineage_is_joined;
use log_model::events_recorded;
use replay_laws::{groups_pass_through, records_tell_events};
use taint_laws::follows_holders;
use taint_state::acts_have_len;
use unbroken_laws::runs_are_unbroken;

/// The groups that a query forward asks are those that can have received bytes from the given ones, each
/// once, in rising order.
pub fn forth_is_connected()
    ensures { ForthIsConnected }
{}

/// No other list names these groups, each once, in rising order.
pub fn forth_is_one()
    ensures { ForthIsOne }
{}

/// The groups that had bytes of the outside first are those that received copies of them, and that which
/// read them from a device.
pub fn first_are_told()
    ensures { FirstAreTold }
{}

/// The bytes that a byte reaches are those of writes to the outside that it is in.
pub fn sinks_are_reached()
    ensures { SinksAreReached }
{}

/// Items of some groups alone, at the bytes that events have, tell what reaches these by no other group.
pub fn reaching_is_among()
    ensures { ReachingIsAmong }
{
    follows_holders();
    acts_have_len();
    reach_same();
}

/// The pairs of a query forward are those of writes by whatever groups: following those to which bytes can
/// have come loses none.
pub fn forth_loses_nothing()
    ensures { ForthLosesNothing }
{
    items_are_received();
    pairs_are_told();
}

/// On the records of a run no group of a query forward disagrees, and its pairs are those of writes whose
/// byte has the source byte by the tracking of every step of the whole machine.
pub fn forth_is_of_runs()
    ensures { ForthIsOfRuns }
{
    steps_tell();
    events_recorded();
    groups_pass_through();
    records_tell_events();
    runs_are_unbroken();
    lineage_is_joined();
    queries_are_of_runs();
    forth_loses_nothing();
}
