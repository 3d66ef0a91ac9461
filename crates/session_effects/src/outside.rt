// What is lent to a session.
ghost use Rattle.session_effects.specs.Outside.{GoingsFollow};

use arn_base::{Disk, Sink, Steps};
use std::sync::ledger::Ledger;

/// What is lent to a session: who chooses its slices, who answers for devices, the disk of its log, the
/// sink of its answers, the counter of executed instructions, and a buffer for texts, whose contents are
/// lost.
#[derive(Drop)]
pub struct Outside<'c, 'a, 'd, 'k, 's, 't, C, A, D, K, L: Ledger> {
    pub chooser: &'c mut C,
    pub answers: &'a mut A,
    pub disk: &'d mut D,
    pub sink: &'k mut K,
    pub steps: &'s mut Steps<L>,
    pub text: &'t mut String,
}

/// What is lent goes on from one call to the next.
pub fn goings_follow<C, A, D: Disk, K: Sink, L: Ledger>()
    ensures { GoingsFollow C A D K L D.Disk K.faults }
{}
