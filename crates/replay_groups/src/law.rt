// What holds of groups after one more process.
ghost use Rattle.replay_groups.specs.Laws.{NextHasItsGroup, NextIsLastMember, OthersKeepMembers, OthersKeepTheirs, StaysStarted};

/// One more process changes its own group alone.
pub fn groups_grow()
    // The next process has the group that it is given.
    ensures next { NextHasItsGroup }

    // Each other number has the group that it had, or none as before.
    ensures others { OthersKeepTheirs }

    // A group that was started stays so.
    ensures started { StaysStarted }

    // The group has the next process as its last member.
    ensures last { NextIsLastMember }

    // Each other group has the members that it had.
    ensures members { OthersKeepMembers }
{}
