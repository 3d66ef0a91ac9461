// How a group's first process begins.
ghost use Rattle.std.specs.Prelude.{◌≡◌, ◌+◌, ℕ, All, IfErr, IsNone, IsTrue, OnOk, Some};
ghost use Rattle.arn_base.specs.declared.records.Record.{Record};
ghost use Rattle.guest_bodies.specs.Shown.{IsInside};
ghost use Rattle.history_model.specs.Alone as alone;
ghost use Rattle.history_model.specs.Alone.{Makes, Own};
ghost use Rattle.history_model.specs.Names.{is_boot};
ghost use Rattle.parts_model.specs.Numbered.{nth};
ghost use Rattle.replay_steps.specs.Notices.{Listener};
ghost use Rattle.replay_steps.specs.Standing.{Explains, GainsOnly, IsStanding, Reaches, Stands};

use crate::ReplayError;
use crate::wrong::Finding;
use acts_model::Observer;
use arn_base::{Cpu, NoMemory, Record, Start};
use guest_bodies::{Bodies, others_stay_unheld};
use guest_image::parse;

// The registers before a boot.
const NO_REGISTERS: Cpu = Cpu { x: [0; 31], pc: 0 };

/// Process 1 begins from its image file.
pub fn boot<O: Observer>(
    bodies: &mut Bodies,
    event: u64,
    entry: &Record,
    observer: &mut O,
) -> Result<(), ReplayError>
    requires boot { IsTrue (is_boot entry.now) }
    requires none { (p : ℕ) → IsNone (nth bodies.old p) }
    ensures ok { (own : Own) → (count : ℕ) → Stands bodies.old event own →
        OnOk result (Reaches (record { begins = O.begins; runs = O.runs; hears = O.hears })
        observer.old count own (alone.boots event entry.now own)
        bodies.new (event + 1) observer.new count) }
    ensures err { (own : Own) → IfErr result (Explains (alone.boots event entry.now own)) }
    ensures lives { OnOk result (GainsOnly (Some 1) bodies.old bodies.new) }
{
    others_stay_unheld();
    let Record::Boot { give, .. } = entry else {
        unreachable!()
    };
    let file = give.bytes.as_slice();
    if parse(file).is_err() {
        let finding = Finding {
            said: file.len() as u64,
            found: 0,
        };
        return Err(ReplayError::Disagrees(finding.at(event)));
    }
    observer.begin(1, event, None)?;
    observer.happened(event, entry, &NO_REGISTERS)?;
    bodies.boots(event, file)?;
    Ok(())
}

/// The first process of a group begins, as the record of a fork of another group tells.
pub fn begin<O: Observer>(
    bodies: &mut Bodies,
    group: u32,
    event: u64,
    start: &Start,
    observer: &mut O,
) -> Result<(), NoMemory>
    requires dead { IsNone (nth bodies.old group) }
    requires standing { IsStanding bodies.old event }
    requires inside { All IsInside start.now.blocks }
    ensures ok { (own : Own) → (count : ℕ) → (e : Record) → Stands bodies.old event own →
        OnOk result (Reaches (record { begins = O.begins; runs = O.runs; hears = O.hears })
        observer.old count own (Makes (alone.begins group event e start.now own))
        bodies.new (event + 1) observer.new count) }
    ensures lives { OnOk result (GainsOnly (Some group) bodies.old bodies.new) }
{
    others_stay_unheld();
    bodies.begin(group, event, start)?;
    observer.begin(group, event, None)
}
