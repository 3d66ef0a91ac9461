// What holds of groups alone, made from the records of runs.
ghost use Rattle.replay_laws.specs.Laws.{GroupsPassThrough};

use arn_model::{runs_append, runs_sound, steps_tell};
use window_laws::instructions_keep_lengths;

/// A group alone, made from the records of a run, never disagrees, and is at every moment what the
/// whole machine holds of it.
pub fn groups_pass_through()
    ensures { GroupsPassThrough }
{
    instructions_keep_lengths();
    steps_tell();
    runs_sound();
    runs_append();
}
