// Laws of what is joined.
ghost use Rattle.lineage_join.specs.Alike.{ReachSame};
ghost use Rattle.lineage_join.specs.Asked.{NumbersStand};
ghost use Rattle.lineage_join.specs.Laws.{PairsAreOne, PairsAreTold};

/// Rising pairs are told by their members alone.
pub fn pairs_are_one()
    ensures { PairsAreOne }
{}

/// The pairs that answer rise, and are those of the sources.
pub fn pairs_are_told()
    ensures { PairsAreTold }
{}

/// Where answers of groups are the same, so is what they lead to.
pub fn reach_same()
    ensures { ReachSame }
{}

/// The number of a byte that its event has tells what the byte stands for.
pub fn numbers_stand()
    ensures { NumbersStand }
{}
