// What holds of a lineage query's answers.
ghost use Rattle.query_laws.specs.Fitting.{ItemsFit, ReachingIsOfBytes};
ghost use Rattle.query_laws.specs.Laws.{GroupsAreConnected, GroupsAreOne};
ghost use Rattle.query_laws.specs.OfRuns.{QueriesAreOfRuns};
ghost use Rattle.query_laws.specs.Received.{ItemsAreReceived};

use arn_model::steps_tell;
use lineage_laws::lineage_is_joined;
use replay_laws::{groups_pass_through, records_tell_events};
use taint_laws::follows_holders;
use taint_state::acts_have_len;

/// The groups that a query asks are those from which the given ones can have received bytes, each once,
/// in rising order.
pub fn groups_are_connected()
    ensures { GroupsAreConnected }
{}

/// No other list names these groups, each once, in rising order.
pub fn groups_are_one()
    ensures { GroupsAreOne }
{}

/// On records that can be indexed the items of a group alone are bytes that its events received, or with
/// which it began by a fork, and come before what they reach.
pub fn items_are_received()
    ensures { ItemsAreReceived }
{
    follows_holders();
    acts_have_len();
}

/// Items of groups alone can be joined at the bytes that events have, under the operands of a linkage:
/// each is a byte that its event has, and comes before what it reaches.
pub fn items_fit()
    ensures { ItemsFit }
{
    follows_holders();
    acts_have_len();
}

/// Items of connected groups at the bytes that events have tell what reaches these, under the operands
/// of a linkage.
pub fn reaching_is_of_bytes()
    ensures { ReachingIsOfBytes }
{
    follows_holders();
    acts_have_len();
}

/// On the records of a run no group disagrees, and what reaches a byte of an event is what the tracking
/// of every step of the whole machine gave it.
pub fn queries_are_of_runs()
    ensures { QueriesAreOfRuns }
{
    steps_tell();
    groups_pass_through();
    records_tell_events();
    lineage_is_joined();
}
