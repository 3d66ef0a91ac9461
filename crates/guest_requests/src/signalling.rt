// What calls on signals come to.
ghost use Rattle.std.specs.Prelude.{◌≡◌, ◌∷◌, [], IfSome, IsTrue, is_none, is_some};
ghost use Rattle.parts_model.specs.Processes.{live_process};
ghost use Rattle.parts_model.specs.Signals.{is_signal};
ghost use Rattle.parts_model.specs.declared.refusals.TheConstants.{NO_PROCESS};
ghost use Rattle.acts_model.specs.Views.{argument};
ghost use Rattle.arn_model.specs.Doing.{refuse, returns, unless_refused};
ghost use Rattle.arn_model.specs.SignalCalls.{kill_row, posted};
ghost use Rattle.guest_bodies.specs.Shown.{IsLive};
ghost use Rattle.guest_requests.specs.Signalling.{CanPost, IsKill};
ghost use Rattle.guest_requests.specs.Tables.{OfTables};

use crate::arguments::{argument, error};
use crate::tables::Tables;
use parts_model::limits::GREATEST_SIGNAL;
use parts_model::refusals::{BAD_ARGUMENT, NO_PROCESS};

/// What a kill comes to.
#[derive(Clone, Copy)]
pub enum Killing {
    /// It ends with this result and does nothing else.
    Answers { answer: u64 },
    /// It makes a signal pending for a process.
    Posts { target: u32, signal: u8 },
}

/// The signal of a number that a program gives, if it is one.
pub fn signal_of(number: u64) -> Option<u8>
    ensures number { IfSome result (λ signal. signal ≡ number) }
    ensures signal { is_some result ≡ is_signal number }
{
    if 1 <= number && number <= GREATEST_SIGNAL {
        Some(number as u8)
    } else {
        None
    }
}

impl<'a> Tables<'a> {
    /// What the kill at which a process stands comes to.
    pub fn killing(&self, pid: u32) -> Killing
        requires { IsLive self.now.guests pid }
        ensures killing { OfTables self.now pid (λ m v. IsKill result m (kill_row m pid v)) }
        ensures post { CanPost result self.now.kernel }
    {
        match signal_of(argument(self.bodies, pid, 1)) {
            None => Killing::Answers {
                answer: error(BAD_ARGUMENT),
            },
            Some(signal) => self.killing_by(pid, signal),
        }
    }

    // What a kill by a signal comes to.
    fn killing_by(&self, pid: u32, signal: u8) -> Killing
        requires live { IsLive self.now.guests pid }
        requires signal { IsTrue (is_signal signal) }
        ensures killing { OfTables self.now pid (λ m v. IsKill result m (unless_refused m.kernel
            (refuse NO_PROCESS (is_none (live_process m.kernel.processes
            (argument v.body.cpu 0))) ∷ [])
            (returns 0 (posted (argument v.body.cpu 0) signal m.kernel)))) }
        ensures post { CanPost result self.now.kernel }
    {
        match self.procs.live_number(argument(self.bodies, pid, 0)) {
            None => Killing::Answers {
                answer: error(NO_PROCESS),
            },
            Some(target) => Killing::Posts { target, signal },
        }
    }
}
