// Instructions that the next one follows.
ghost use Rattle.std.specs.Prelude.{◌≡◌, ◌+◌, ◌≤◌, ℕ, IfErr, OnOk};
ghost use Rattle.history_model.specs.Alone as alone;
ghost use Rattle.history_model.specs.Alone.{Own};
ghost use Rattle.replay_steps.specs.Notices.{Listener};
ghost use Rattle.replay_steps.specs.Standing.{Explains, KeepsLives, Reaches, Stands};
ghost use Rattle.replay_steps.specs.Plain.{slice_of};

use crate::{Disagrees, ReplayError};
use acts_model::Observer;
use arn_base::Steps;
use guest_bodies::{Bodies, others_stay_unheld};
use std::sync::ledger::Ledger;

/// A slice: its process, its count, the number of the event that comes next, and that of the event
/// that ends the slice, or would if it had one.
#[derive(Clone, Copy)]
pub struct Turn {
    pub pid: u32,
    pub ran: u32,
    pub event: u64,
    pub end_event: u64,
}

impl Turn {
    // Fewer instructions than the slice counts are followed by the next one.
    fn stops_after(&self, found: u32) -> Disagrees
        ensures { result ≡
            record { event = self.now.end_event; said = self.now.ran; found = found } }
    {
        Disagrees {
            event: self.end_event,
            said: u64::from(self.ran),
            found: u64::from(found),
        }
    }
}

/// Runs instructions of a slice.
pub fn run<O: Observer, L: Ledger>(
    bodies: &mut Bodies,
    slice: &Turn,
    count: u32,
    observer: &mut O,
    steps: &mut Steps<L>,
) -> Result<(), ReplayError>
    ensures lives { KeepsLives bodies.old bodies.new }
    ensures ok { (own : Own) → (event : ℕ) → Stands bodies.old event own →
        OnOk result (Reaches (record { begins = O.begins; runs = O.runs; hears = O.hears })
        observer.old steps.old own (alone.plains (slice_of slice.now) 0 count own)
        bodies.new event observer.new steps.new) }
    ensures err { (own : Own) → (event : ℕ) → Stands bodies.old event own →
        IfErr result (Explains (alone.plains (slice_of slice.now) 0 count own)) }
    ensures bounded { steps.new ≤ steps.old + count }
{
    others_stay_unheld();
    if !bodies.is_live(slice.pid) {
        return if count == 0 {
            Ok(())
        } else {
            Err(ReplayError::Disagrees(slice.stops_after(0)))
        };
    }
    let ran = bodies.run_told(slice.pid, count, observer, steps)?;
    if ran < count {
        return Err(ReplayError::Disagrees(slice.stops_after(ran)));
    }
    Ok(())
}
