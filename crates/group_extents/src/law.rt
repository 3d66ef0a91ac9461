// What an extent tells.
ghost use Rattle.group_extents.specs.Laws.{EqualExtentsMakeOne};

use replayer::alone_by_slices;

/// A group that has come equally far by two moments is the same group alone at both, where the records
/// of the one history begin those of the other.
pub fn equal_extents_make_one()
    ensures { EqualExtentsMakeOne }
{
    alone_by_slices();
}
