// What holds of a lineage query's answers about bytes of past states.
ghost use Rattle.query_laws.specs.States.{HeldIsOfBytes, HeldItemsAreThere, StatesAreOfRuns};

use lineage_laws::lineage_is_joined;
use past_lives::lives_have_groups;
use replay_laws::groups_pass_through;
use taint_laws::follows_holders;
use taint_state::acts_have_len;
use unbroken_laws::runs_are_unbroken;

/// On records that can be indexed the items of each byte that a process holds at a moment are bytes that
/// events of the history have, under the operands of a linkage.
pub fn held_items_are_there()
    ensures { HeldItemsAreThere }
{
    follows_holders();
    acts_have_len();
}

/// Items of connected groups at the bytes that events have tell what reaches each byte that a process
/// holds at a moment, under the operands of a linkage.
pub fn held_is_of_bytes()
    ensures { HeldIsOfBytes }
{
    follows_holders();
    acts_have_len();
}

/// On the records of a run no group disagrees, and what reaches a byte of a register or of memory of a
/// process that lives at a moment is what the tracking of every step of the whole machine gives it.
pub fn states_are_of_runs()
    ensures { StatesAreOfRuns }
{
    groups_pass_through();
    lineage_is_joined();
    runs_are_unbroken();
    lives_have_groups();
}
