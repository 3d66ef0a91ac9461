// Records, added to the log of a history.
ghost use Rattle.std.specs.Prelude.{◌≡◌, ◌++◌, [], ◌∷◌, ℕ, List, Option, All, OnOk, IfErr};
ghost use Rattle.log_store.specs.Stops.{GoesOn};
ghost use Rattle.result_log.specs.Spelling.{HasSpelling};
ghost use Rattle.session_effects.specs.Effects.{Commits};
ghost use Rattle.session_effects.specs.Carrying.{StopsAt, StopsBetween};
ghost use Rattle.session_effects.specs.Standing.{Carries, IsCause, IsOpen};

use crate::halt::Halt;
use crate::runs::Runs;
use arn_base::{Disk, Record};
use log_store::{Store, logs_read_one_way};

/// Adds records to the log: all of them, and only then Ok.
pub fn commit<R: Runs, D: Disk>(
    store: &mut Store,
    disk: &mut D,
    entries: Vec<Record>,
) -> Result<(), Halt>
    requires open { IsOpen D.Disk store.old disk.old }
    requires spelled { All HasSpelling entries.items }
    requires run { R.is_run store.old.entries → R.is_run (store.old.entries ++ entries.items) }
    ensures carries { OnOk result ((held : Option (List ℕ)) →
        Carries R.is_run D.Disk disk.old disk.new store.old store.new held held
        (Commits entries.items ∷ [])) }
    ensures stops { IfErr result (λ halt. (held : Option (List ℕ)) →
        StopsAt R.is_run D.Disk disk.old disk.new store.old.entries held held halt []
        (Commits entries.items ∷ [])) }
    ensures undone { IfErr result (λ halt. (held : Option (List ℕ)) →
        StopsBetween R.is_run D.Disk disk.old disk.new store.old.entries held held halt []
        (Commits entries.items ∷ [])) }
    ensures cause { IfErr result (λ halt. (faults : ℕ) →
        IsCause halt (D.faults disk.old) (D.faults disk.new) faults faults) }
    ensures later { GoesOn D.image D.faults disk.old disk.new }
{
    logs_read_one_way();
    store.commit(disk, entries)?;
    Ok(())
}
