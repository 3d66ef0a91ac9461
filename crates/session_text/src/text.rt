// Reads a source to its end, and does what each command of its text asks for.
ghost use Rattle.std.specs.Prelude.{◌≡◌, false, is_some};
ghost use Rattle.arn_commands.specs.Reader.{fresh_reader};
ghost use Rattle.session_text.specs.Gone.{GoneLaws};
ghost use Rattle.session_text.specs.Halts.{read_halt_of};
ghost use Rattle.session_text.specs.Leaves.{Leaves, scene};
ghost use Rattle.session_effects.specs.Outside.{IsSame};
ghost use Rattle.session_effects.specs.Standing.{IsOpen};
ghost use Rattle.session_commands.specs.Given.{given};
ghost use Rattle.session_commands.specs.Kept.{IsSound};
ghost use Rattle.session_runs.specs.Touches.{answering};

use arn_base::{Chooser, Disk, Sink, Source};
use arn_commands::{Commands, Next, ReadError};
use arn_model::runs_append;
use guest_devices::Plugs;
use guest_machine::legs_as_named;
use log_model::records_append;
use log_store::Store;
use replay_laws::records_tell_runs;
use session_commands::{Kept, answer};
use session_effects::{Halt, Outside, causes_follow, effects_follow, goings_follow, halts_follow};
use session_model::Questions;
use session_runs::{MachineRuns, points_follow, slices_unplug_nothing, touches_follow};
use std::alloc::Global;
use std::sync::ledger::Ledger;

// What ends a session whose next command isn't read.
fn read_halt(error: ReadError) -> Halt
    ensures { result ≡ read_halt_of error }
{
    match error {
        ReadError::Source => Halt::Source,
        ReadError::Long => Halt::Long,
        ReadError::NoMemory => Halt::NoMemory,
    }
}

// What the records of runs tell of devices that were unplugged.
fn gone_laws()
    ensures { GoneLaws }
{
    records_tell_runs();
    records_append();
    runs_append();
    legs_as_named();
    slices_unplug_nothing();
}

// Reads the source to its end, and does what each command asks for on what is kept of a history. It
// owns nothing: what it is lent is dropped in one place, and not at each of its ends.
fn answer_all<Q: Questions, S: Source, C: Chooser, A: Plugs, D: Disk, K: Sink, L: Ledger>(
    kept: &mut Kept<Q>,
    commands: &mut Commands,
    source: &mut S,
    outside: &mut Outside<C, A, D, K, L>,
) -> Result<(), Halt>
    requires open { IsOpen D.Disk kept.old.store outside.old.disk.now }
    requires sound { IsSound Q.knows kept.old.machine kept.old.questions kept.old.store.entries }
    requires bare { is_some kept.old.machine ≡ false }
    requires fresh { commands.old ≡ fresh_reader }
    ensures leaves { Leaves D.Disk (answering A.answers A.unplugs A.filled)
        (given Q.told (A.filled outside.old.answers.now)) kept.old.store.entries result
        (scene S.Source C.Chooser K.Sink source.old outside.old)
        (scene S.Source C.Chooser K.Sink source.new outside.new) }
    ensures same { IsSame outside.old outside.new }
{
    effects_follow::<MachineRuns, D>();
    halts_follow::<MachineRuns, D>();
    causes_follow::<D>();
    goings_follow::<C, A, D, K, L>();
    touches_follow::<A>();
    points_follow::<MachineRuns, D, A>();
    gone_laws();
    loop {
        let next = match commands.next(source) {
            Ok(next) => next,
            Err(error) => return Err(read_halt(error)),
        };
        match next {
            Next::More { command } => answer(kept, command, outside)?,
            Next::Last { command } => return answer(kept, command, outside),
            Next::End => return Ok(()),
        }
    }
}

/// Reads the source to its end, and does what each command of its text asks for on the history of a
/// log, with whoever answers for devices. It takes at most 2^40 bytes of the source.
pub fn session<Q: Questions + Drop, S: Source, C: Chooser, A: Plugs, D: Disk, K: Sink, L: Ledger>(
    alloc: Global,
    store: Store,
    questions: Q,
    source: &mut S,
    outside: &mut Outside<C, A, D, K, L>,
) -> Result<(), Halt>
    requires open { IsOpen D.Disk store outside.old.disk.now }
    requires known { Q.knows questions store.entries }
    ensures leaves { Leaves D.Disk (answering A.answers A.unplugs A.filled)
        (given Q.told (A.filled outside.old.answers.now)) store.entries result
        (scene S.Source C.Chooser K.Sink source.old outside.old)
        (scene S.Source C.Chooser K.Sink source.new outside.new) }
    ensures same { IsSame outside.old outside.new }
{
    effects_follow::<MachineRuns, D>();
    halts_follow::<MachineRuns, D>();
    goings_follow::<C, A, D, K, L>();
    touches_follow::<A>();
    points_follow::<MachineRuns, D, A>();
    gone_laws();
    let mut commands = Commands::new(alloc)?;
    let mut kept = Kept {
        alloc,
        store,
        machine: None,
        questions,
    };
    answer_all(&mut kept, &mut commands, source, outside)
}
