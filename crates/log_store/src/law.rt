// What holds of logs as a whole.
ghost use Rattle.log_store.specs.Laws.{BadAreNone, BadAtOnePlace, ClosedAreLogs, ClosedHoldCommits, CommitsReadOneWay, LogsReadOneWay};

use result_log::records_spelled_one_way;

/// The bytes of a log hold one list of commits, and so one list of records.
pub fn logs_read_one_way()
    // No bytes are logs of two lists of commits, or of records.
    ensures commits { CommitsReadOneWay }
    ensures one { LogsReadOneWay }

    // What a store leaves is a log of its records, and of its commits.
    ensures closed { ClosedAreLogs }
    ensures closed_commits { ClosedHoldCommits }

    // What is refused for its name or its frames is no log.
    ensures none { BadAreNone }

    // The place at which that shows is one.
    ensures one_place { BadAtOnePlace }
{
    records_spelled_one_way();
}
