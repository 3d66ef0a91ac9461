// Answers a text with devices in slots, and with all else that is lent beside them.
ghost use Rattle.std.specs.Prelude.{◌≡◌};
ghost use Rattle.guest_devices.specs.Slots.{is_filled};
ghost use Rattle.session_commands.specs.Given.{given};
ghost use Rattle.session_effects.specs.Outside.{IsSame};
ghost use Rattle.session_effects.specs.Standing.{IsOpen};
ghost use Rattle.session_runs.specs.Points.{around};
ghost use Rattle.session_runs.specs.Touches.{answering};
ghost use Rattle.session_text.specs.Begun.{slots_answer};
ghost use Rattle.session_text.specs.Leaves.{Leaves, scene_of};

use crate::text::session;
use arn_base::{Chooser, Device, Disk, Sink, Source};
use guest_devices::{Plugs, Slots};
use log_store::Store;
use session_effects::{Halt, Outside};
use session_model::Questions;
use std::alloc::Global;
use std::sync::ledger::Ledger;

// Answers a text on the history of a log, with those who answer for devices and all else that is lent.
fn answer_lent<Q: Questions + Drop, C: Chooser, A: Plugs, S: Source, K: Sink, D: Disk, L: Ledger>(
    alloc: Global,
    store: Store,
    questions: Q,
    source: &mut S,
    answers: &mut A,
    outside: &mut Outside<C, (), D, K, L>,
) -> Result<(), Halt>
    requires open { IsOpen D.Disk store outside.old.disk.now }
    requires known { Q.knows questions store.entries }
    ensures leaves { Leaves D.Disk (answering A.answers A.unplugs A.filled)
        (given Q.told (A.filled answers.old)) store.entries result
        (scene_of S.Source K.Sink source.old outside.old.sink.now outside.old.disk.now
        (around (C.choices outside.old.chooser.now) answers.old outside.old.steps.now))
        (scene_of S.Source K.Sink source.new outside.new.sink.now outside.new.disk.now
        (around (C.choices outside.new.chooser.now) answers.new outside.new.steps.now)) }
    ensures same { IsSame outside.old outside.new }
{
    let mut all = Outside {
        chooser: &mut *outside.chooser,
        answers,
        disk: &mut *outside.disk,
        sink: &mut *outside.sink,
        steps: &mut *outside.steps,
        text: &mut *outside.text,
    };
    session(alloc, store, questions, source, &mut all)
}

/// Reads the source to its end, and does what each command of its text asks for on the history of a
/// log, with devices in slots, which it keeps. It takes at most 2^40 bytes of the source.
pub fn answer_in_slots<
    Q: Questions + Drop,
    C: Chooser,
    V: Device,
    S: Source,
    K: Sink,
    D: Disk,
    L: Ledger,
>(
    alloc: Global,
    store: Store,
    questions: Q,
    source: &mut S,
    slots: &mut Slots<'_, V>,
    outside: &mut Outside<C, (), D, K, L>,
) -> Result<(), Halt>
    requires open { IsOpen D.Disk store outside.old.disk.now }
    requires known { Q.knows questions store.entries }
    ensures leaves { Leaves D.Disk (slots_answer V.Device)
        (given Q.told (is_filled slots.old.devices.now.items)) store.entries result
        (scene_of S.Source K.Sink source.old outside.old.sink.now outside.old.disk.now
        (around (C.choices outside.old.chooser.now) slots.old.devices.now.items outside.old.steps.now))
        (scene_of S.Source K.Sink source.new outside.new.sink.now outside.new.disk.now
        (around (C.choices outside.new.chooser.now) slots.new.devices.now.items outside.new.steps.now)) }
    ensures slots { slots.new.devices.ghost_name ≡ slots.old.devices.ghost_name }
    ensures same { IsSame outside.old outside.new }
{
    answer_lent(alloc, store, questions, source, slots, outside)
}
