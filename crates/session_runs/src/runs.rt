// Which records a session keeps as those of a run.
use session_effects::Runs;

/// The records of a run of the machine.
pub struct MachineRuns;

impl Runs for MachineRuns {
    ghost use Rattle.log_model.specs.Records.{IsRun};

    ghost is_run = { IsRun };
}
