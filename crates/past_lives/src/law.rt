// What a group alone holds of its processes.
ghost use Rattle.past_lives.specs.Laws.{LivesHaveGroups, MembersAreSeen, WindowsAreWhole};

use arn_base::Record;
use window_laws::{blocks_are_whole, instructions_keep_lengths};

/// Who has a body in a group alone, and which segment it holds, is told by the records themselves.
pub fn members_are_seen()
    ensures { MembersAreSeen }
{}

/// A process that is replayed reaches the whole of each window that is present.
pub fn windows_are_whole(entries: &[Record])
    ensures { WindowsAreWhole entries.now }
{
    instructions_keep_lengths();
    blocks_are_whole(entries);
}

/// Who lives has a group, which is replayed to see it.
pub fn lives_have_groups()
    ensures { LivesHaveGroups }
{}
