// Legs of the example program.
ghost use Rattle.std.specs.Prelude.{◌≡◌, ◌<◌, ◌*◌};
ghost use Rattle.guest_machine.specs.Recorded.{HasRoom};
ghost use Rattle.guest_legs.specs.declared.leg.TheConstants.{MOST_LEG};

use super::{Part, Step, check};
use arn_base::{Choice, Chooser, NoMemory, Record, Steps};
use guest_devices::{RoundChooser, ScriptChooser, Told};
use guest_machine::{Leg, LegEnd, Machine};
use std::alloc::Global;
use std::marker::Brand;
use std::process::Abort;
use std::sync::ledger::{Blank, Ledger};
use std::test::Fail;

fn leg_counted<C: Chooser, L: Ledger>(
    machine: &mut Machine,
    budget: u64,
    chooser: &mut C,
    out: &mut Vec<Record>,
    blank: Blank,
) -> Result<Leg, NoMemory>
    requires name { blank.name ≡ L.name }
    requires parts { blank.parts ≡ L.parts }
    requires some { 0 < blank.parts }
    requires room { HasRoom machine.old (2 * MOST_LEG) budget }
{
    let mut steps = Steps::<L>::new(blank);
    let mut devices = Told { entry: None };
    machine.run_leg_from(budget, chooser, &mut devices, out, &mut steps)
}

fn leg_with_room<C: Chooser>(
    machine: &mut Machine,
    budget: u64,
    chooser: &mut C,
    out: &mut Vec<Record>,
) -> Result<Leg, NoMemory>
    requires { HasRoom machine.old (2 * MOST_LEG) budget }
{
    leg_counted::<C, Brand>(machine, budget, chooser, out, Blank::new(1))
}

fn leg<C: Chooser>(
    rt: &impl Abort,
    machine: &mut Machine,
    budget: u64,
    chooser: &mut C,
    out: &mut Vec<Record>,
) -> Result<Leg, NoMemory> {
    assert!(rt; machine.events() < 100);
    assert!(rt; machine.instructions() < 100);
    leg_with_room(machine, budget, chooser, out)
}

// A leg of slices by turns.
pub(crate) fn round_leg(
    rt: &impl Abort,
    machine: &mut Machine,
    budget: u64,
    out: &mut Vec<Record>,
) -> Result<Leg, NoMemory> {
    let mut chooser = RoundChooser::new(1_000);
    leg(rt, machine, budget, &mut chooser, out)
}

// Indices beyond the processes, and counts of 2, none and 10.
fn choices(alloc: Global) -> Result<ScriptChooser, NoMemory> {
    let mut choices = Vec::new(alloc);
    choices.push(Choice { index: 5, count: 2 })?;
    choices.push(Choice { index: 0, count: 0 })?;
    choices.push(Choice {
        index: 3,
        count: 10,
    })?;
    Ok(ScriptChooser::new(choices))
}

// A leg of the slices that they make.
pub(crate) fn chosen_leg(
    rt: &impl Abort,
    alloc: Global,
    machine: &mut Machine,
    out: &mut Vec<Record>,
) -> Result<Leg, NoMemory> {
    let mut chooser = choices(alloc)?;
    leg(rt, machine, 100, &mut chooser, out)
}

// Legs that end so.
const WHOLE: Leg = Leg {
    ran: 11,
    end: LegEnd::Done,
};

const NOTHING: Leg = Leg {
    ran: 0,
    end: LegEnd::Done,
};

const STALLED: Leg = Leg {
    ran: 4,
    end: LegEnd::Stalled,
};

const CUT: Leg = Leg {
    ran: 3,
    end: LegEnd::Budget,
};

// Behind them come slices of one instruction.
#[test]
fn takes_the_slices_that_are_chosen(rt: HostRuntime) -> Result<(), Fail> {
    let steps = &[
        Step::Adds(Ok(0)),
        Step::Boots(Ok(1)),
        Step::Types(Ok(2)),
        Step::Chosen(WHOLE),
    ];
    let parts = &[
        Part::File,
        Part::Boot,
        Part::Typed,
        Part::Slice(2),
        Part::Slice(1),
        Part::Slice(2),
        Part::Read,
        Part::Slice(1),
        Part::Slice(1),
        Part::Slice(1),
        Part::Write(*b"abc"),
        Part::Slice(1),
        Part::Slice(1),
        Part::Slice(1),
        Part::Exit,
    ];
    check(&rt, rt.alloc(), steps, parts)?;
    Ok(())
}

#[test]
fn cuts_a_slice_to_what_is_left(rt: HostRuntime) -> Result<(), Fail> {
    let steps = &[
        Step::Rounds(7, NOTHING),
        Step::Adds(Ok(0)),
        Step::Boots(Ok(1)),
        Step::Rounds(7, STALLED),
        Step::Types(Ok(2)),
        Step::Rounds(3, CUT),
    ];
    let parts = &[
        Part::File,
        Part::Boot,
        Part::Slice(4),
        Part::Typed,
        Part::Slice(1),
        Part::Read,
        Part::Slice(2),
    ];
    check(&rt, rt.alloc(), steps, parts)?;
    Ok(())
}
