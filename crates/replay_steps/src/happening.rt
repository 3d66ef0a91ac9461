// Events of a group's processes, as their records tell.
ghost use Rattle.std.specs.Prelude.{◌≡◌, ◌+◌, ◌≤◌, ℕ, IfErr, IfOk, IfSome, IsTrue, None, OnOk, option_and_then, option_map};
ghost use Rattle.arn_base.specs.declared.machine.Cpu.{Cpu};
ghost use Rattle.acts_model.specs.Acts.{Act, done};
ghost use Rattle.acts_model.specs.Disagreement.{wrong_with};
ghost use Rattle.acts_model.specs.Moved.{is_call_or_end};
ghost use Rattle.acts_model.specs.Told.{act_of};
ghost use Rattle.acts_model.specs.Views.{stands_at};
ghost use Rattle.guest_bodies.specs.Follows.{Follows};
ghost use Rattle.guest_bodies.specs.Shown.{IsFresh, IsLive};
ghost use Rattle.history_model.specs.Alone as alone;
ghost use Rattle.history_model.specs.Alone.{Own};
ghost use Rattle.replay_steps.specs.Calls.{ChildIsFree, OfSeen, child_joined, if_ticked, is_own, wrong_as};
ghost use Rattle.replay_steps.specs.Notices.{Listener};
ghost use Rattle.replay_steps.specs.Standing.{Explains, GainsOnly, IsStanding, Reaches, Stands};

use crate::deeds::{do_deed, joining_child};
use crate::wrong::{Finding, call_wrong, end_wrong};
use crate::{Disagrees, ReplayError};
use acts_model::{Observer, deed_of};
use arn_base::{NoMemory, Record, Steps};
use guest_bodies::{Bodies, others_stay_unheld};
use std::sync::ledger::Ledger;

// What is wrong with a record. The instruction of a call or of an end by fault is counted.
fn wrong<L: Ledger>(
    bodies: &mut Bodies,
    pid: u32,
    entry: &Record,
    steps: &mut Steps<L>,
) -> Result<Option<Finding>, NoMemory>
    requires own { IsTrue (is_own entry.now) }
    requires live { IsLive bodies.old pid }
    ensures wrong { IfOk result (λ wrong. OfSeen bodies.old pid (λ v.
        option_map wrong_as wrong ≡ wrong_with v (stands_at v) entry.now)) }
    ensures same { bodies.new ≡ bodies.old }
    ensures counted { steps.new ≡ steps.old + if_ticked (is_call_or_end entry.now) }
{
    match entry {
        Record::Call {
            number,
            result,
            extra,
            ..
        } => {
            let prospect = bodies.next_instr(pid, steps);
            call_wrong(bodies, pid, prospect, *number, *result, extra)
        }
        Record::End { status, .. } => Ok(end_wrong(bodies.next_instr(pid, steps), *status)),
        _ => Ok(None),
    }
}

// Does what a record tells. The result is the child that joins the group.
fn act(bodies: &mut Bodies, pid: u32, event: u64, entry: &Record) -> Result<Option<u32>, NoMemory>
    requires own { IsTrue (is_own entry.now) }
    requires live { IsLive bodies.old pid }
    requires fresh { IsFresh bodies.old event }
    requires child { OfSeen bodies.old pid (λ v.
        IfSome (act_of v.body.cpu entry.now) (ChildIsFree bodies.old)) }
    requires right { OfSeen bodies.old pid (λ v.
        wrong_with v (stands_at v) entry.now ≡ None) }
    ensures done { OfSeen bodies.old pid (λ v. IfSome (act_of v.body.cpu entry.now) (λ act.
        OnOk result (Follows bodies.old (done pid event act) bodies.new))) }
    ensures child { (cpu : Cpu) → IfOk result (λ child.
        child ≡ option_and_then child_joined (act_of cpu entry.now)) }
    ensures lives { (cpu : Cpu) → OnOk result (GainsOnly
        (option_and_then child_joined (act_of cpu entry.now)) bodies.old bodies.new) }
{
    let Some(deed) = deed_of(bodies.cpu(pid), entry) else {
        return Ok(None);
    };
    do_deed(bodies, pid, event, &deed)?;
    Ok(joining_child(&deed))
}

fn tell<O: Observer>(
    bodies: &Bodies,
    pid: u32,
    event: u64,
    entry: &Record,
    observer: &mut O,
) -> Result<(), NoMemory>
    requires live { IsLive bodies.now pid }
    ensures { OfSeen bodies.now pid (λ v.
        OnOk result (O.hears observer.old event entry.now v.body.cpu observer.new)) }
{
    observer.happened(event, entry, bodies.cpu(pid))
}

/// What a process does at an event of its own, if it lives.
pub fn happen<O: Observer, L: Ledger>(
    bodies: &mut Bodies,
    pid: u32,
    event: u64,
    entry: &Record,
    observer: &mut O,
    steps: &mut Steps<L>,
) -> Result<(), ReplayError>
    requires own { IsTrue (is_own entry.now) }
    requires standing { IsStanding bodies.old event }
    requires child { (cpu : Cpu) → IfSome (act_of cpu entry.now) (ChildIsFree bodies.old) }
    ensures ok { (own : Own) → Stands bodies.old event own →
        OnOk result (Reaches (record { begins = O.begins; runs = O.runs; hears = O.hears })
        observer.old steps.old own (alone.happens pid event entry.now own)
        bodies.new (event + 1) observer.new steps.new) }
    ensures err { (own : Own) → Stands bodies.old event own →
        IfErr result (Explains (alone.happens pid event entry.now own)) }
    ensures lives { (cpu : Cpu) → OnOk result (GainsOnly
        (option_and_then child_joined (act_of cpu entry.now)) bodies.old bodies.new) }
    ensures bounded { steps.new ≤ steps.old + if_ticked (is_call_or_end entry.now) }
{
    others_stay_unheld();
    if !bodies.is_live(pid) {
        return Ok(());
    }
    if let Some(finding) = wrong(bodies, pid, entry, steps)? {
        return Err(ReplayError::Disagrees(finding.at(event)));
    }
    tell(bodies, pid, event, entry, observer)?;
    if let Some(child) = act(bodies, pid, event, entry)? {
        observer.begin(child, event, Some(pid))?;
    }
    Ok(())
}
