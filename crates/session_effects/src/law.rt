// What holds of effects as a whole.
ghost use Rattle.session_effects.specs.Laws.{CausesFollow, OpeningCarries, OpeningKeeps, OpeningLeaves, OpenedCarries, OpenedStops, OpenedLeaves, OpenedRests, ReadsNothing, HistoryIsStore, EffectsFollow, HaltsFollow, CarriedLeaves, StoppedLeaves, CarriedRests, StoppedRests, StoppedShuts};
ghost use Rattle.session_effects.specs.Quiet.{QuietFollows};

use crate::runs::Runs;
use arn_base::Disk;
use log_store::logs_read_one_way;

/// Effects follow one another, and where they stop.
pub fn effects_follow<R: Runs, D: Disk>()
    // What was carried out, and where it stopped.
    ensures follow { EffectsFollow R.is_run D.Disk }

    // What a stop of the machine leaves at any moment, and when nothing is pending again.
    ensures leaves { CarriedLeaves R.is_run D.Disk }
    ensures stop_leaves { StoppedLeaves R.is_run D.Disk }
    ensures rests { CarriedRests R.is_run D.Disk }
    ensures stop_rests { StoppedRests R.is_run D.Disk }
    ensures stop_shuts { StoppedShuts R.is_run D.Disk }
{}

/// Where effects stop, with what was done and what wasn't.
pub fn halts_follow<R: Runs, D: Disk>()
    ensures { HaltsFollow R.is_run D.Disk }
{}

/// Counts of faults follow one another, and what made a later call halt made the whole halt.
pub fn causes_follow<D: Disk>()
    ensures { CausesFollow D.image D.faults }
{}

/// Effects follow the opening of a log, which is none.
pub fn openings_follow<R: Runs, D: Disk>()
    // The history of a log is that of the store that opened it.
    ensures history { HistoryIsStore D.Disk }

    // An opening carries out nothing; where it fails, too, a stop leaves the history.
    ensures carries { OpeningCarries R.is_run D.Disk }
    ensures keeps { OpeningKeeps R.is_run D.Disk }
    ensures leaves { OpeningLeaves R.is_run D.Disk }

    // What was carried out behind an opening was carried out with it.
    ensures behind { OpenedCarries R.is_run D.Disk }
    ensures stops_behind { OpenedStops R.is_run D.Disk }
    ensures leaves_behind { OpenedLeaves R.is_run D.Disk }
    ensures rests_behind { OpenedRests R.is_run D.Disk }

    // A disk with which nothing was done was read at most.
    ensures read { ReadsNothing D.Disk }
{
    logs_read_one_way();
}

/// What was done over a sink that drops what it is given, seen from another that was given nothing.
pub fn quiet_follows<R: Runs, D: Disk>()
    ensures { QuietFollows R.is_run D.Disk }
{}
