// The state of a group at a moment of a run.
ghost use Rattle.view_laws.specs.States.{GroupStatesAreOfRuns};

use arn_model::{runs_append, runs_sound};
use replay_laws::groups_pass_through;

/// On the records of a run the state of a group alone is at each moment that of its live members in
/// the whole machine then.
pub fn group_states_are_of_runs()
    ensures { GroupStatesAreOfRuns }
{
    groups_pass_through();
    runs_append();
    runs_sound();
}
