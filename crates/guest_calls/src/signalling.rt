// The calls on signals and segments: kill, sigaction, sigreturn, shm.
ghost use Rattle.std.specs.Prelude.{◌≡◌, ◌+◌, ◌<◌, ◌^◌, false, true, IfOk, IsSome, IsTrue, OnErr, OnOk};
ghost use Rattle.parts_model.specs.Processes.{live_process};
ghost use Rattle.parts_model.specs.Signals.{can_set, is_signal, with_handler, with_pending};
ghost use Rattle.acts_model.specs.Acts.{Leaves, Shares};
ghost use Rattle.arn_model.specs.Doing.{returns};
ghost use Rattle.arn_model.specs.SignalCalls.{kill_row, posted, shm_row, sigaction_row, sigreturn_row};
ghost use Rattle.guest_bodies.specs.Shown.{IsLive};
ghost use Rattle.guest_calls.specs.Acted.{Acted, Carried};
ghost use Rattle.guest_calls.specs.Handled.{Rehandled, handling_as};
ghost use Rattle.guest_calls.specs.State.{OfProcess};

use crate::kernel::Kernel;
use crate::outcomes::Done;
use arn_base::{Extra, NoMemory};
use guest_bodies::others_stay_unheld;
use guest_requests::{Killing, error, signal_of};
use parts_model::refusals::BAD_ARGUMENT;

impl Kernel {
    // A signal is pending for a process from now on.
    fn post(&mut self, pid: u32, signal: u8)
        requires live { IsSome (live_process self.old.kernel.processes pid) }
        requires signal { IsTrue (is_signal signal) }
        ensures { Rehandled pid (λ h. record h { pending = with_pending h.pending signal true })
            self.old self.new }
    {
        self.bodies.post(pid, signal);
    }

    // A signal is pending for a process from now on, and a call, which may be its own, ends with 0.
    fn posts(&mut self, pid: u32, target: u32, signal: u8) -> Done
        requires live { IsLive self.old.guests pid }
        requires room { self.old.events + 1 < 2 ^ 64 }
        requires target { IsSome (live_process self.old.kernel.processes target) }
        requires signal { IsTrue (is_signal signal) }
        ensures carried { OfProcess self.old pid (λ m v.
            Carried (returns 0 (posted target signal m.kernel)) result m pid v self.new) }
        ensures nothing { result.extra ≡ Extra.Nothing }
    {
        self.post(target, signal);
        self.returns(pid, 0);
        Done {
            result: 0,
            extra: Extra::Nothing,
        }
    }

    /// The call `kill(process, signal)`.
    pub(crate) fn kill(&mut self, pid: u32) -> Done
        requires live { IsLive self.old.guests pid }
        requires room { self.old.events + 1 < 2 ^ 64 }
        ensures carried { OfProcess self.old pid (λ m v.
            Carried (kill_row m pid v) result m pid v self.new) }
        ensures nothing { result.extra ≡ Extra.Nothing }
    {
        match self.tables().killing(pid) {
            Killing::Answers { answer } => self.answers(pid, answer),
            Killing::Posts { target, signal } => self.posts(pid, target, signal),
        }
    }

    // A signal of a process has this handler from now on. False says that it may not be set.
    fn set_handler(&mut self, pid: u32, signal: u8, handler: u64) -> bool
        requires live { IsLive self.old.guests pid }
        ensures allowed { result ≡ can_set signal handler }
        ensures set { IsTrue result → Rehandled pid (λ h.
            record h { handlers = with_handler h.handlers signal handler }) self.old self.new }
        ensures refused { result ≡ false → self.new ≡ self.old }
    {
        self.bodies.set_handler(pid, signal, handler)
    }

    // A signal of a process has this handler from now on, if it may be set.
    fn handles(&mut self, pid: u32, signal: u8, handler: u64) -> Done
        requires live { IsLive self.old.guests pid }
        requires room { self.old.events + 1 < 2 ^ 64 }
        ensures carried { OfProcess self.old pid (λ m v.
            Carried (handling_as m pid signal handler) result m pid v self.new) }
        ensures nothing { result.extra ≡ Extra.Nothing }
    {
        if !self.set_handler(pid, signal, handler) {
            return self.answers(pid, error(BAD_ARGUMENT));
        }
        self.returns(pid, 0);
        Done {
            result: 0,
            extra: Extra::Nothing,
        }
    }

    /// The call `sigaction(signal, handler)`.
    pub(crate) fn sigaction(&mut self, pid: u32) -> Done
        requires live { IsLive self.old.guests pid }
        requires room { self.old.events + 1 < 2 ^ 64 }
        ensures carried { OfProcess self.old pid (λ m v.
            Carried (sigaction_row m pid v) result m pid v self.new) }
        ensures nothing { result.extra ≡ Extra.Nothing }
    {
        let handler = self.argument(pid, 1);
        match signal_of(self.argument(pid, 0)) {
            None => self.answers(pid, error(BAD_ARGUMENT)),
            Some(signal) => self.handles(pid, signal, handler),
        }
    }

    // A process leaves its handler.
    fn leaves(&mut self, pid: u32)
        requires live { IsLive self.old.guests pid }
        requires room { self.old.events + 1 < 2 ^ 64 }
        ensures { Acted pid Leaves self.old.kernel self.old self.new }
    {
        others_stay_unheld();
        let _ = self.bodies.leaves(pid);
        self.events += 1;
    }

    /// The call `sigreturn()`. The registers are those of the slot: no result is written to them.
    pub(crate) fn sigreturn(&mut self, pid: u32) -> Done
        requires live { IsLive self.old.guests pid }
        requires room { self.old.events + 1 < 2 ^ 64 }
        ensures carried { OfProcess self.old pid (λ m v.
            Carried (sigreturn_row m pid v) result m pid v self.new) }
        ensures nothing { result.extra ≡ Extra.Nothing }
    {
        if !self.bodies.is_in_handler(pid) {
            return self.answers(pid, error(BAD_ARGUMENT));
        }
        self.leaves(pid);
        Done {
            result: 0,
            extra: Extra::Nothing,
        }
    }

    // A process gets a fresh segment.
    fn shares(&mut self, pid: u32) -> Result<(), NoMemory>
        requires live { IsLive self.old.guests pid }
        requires room { self.old.events + 1 < 2 ^ 64 }
        ensures shared { OnOk result (Acted pid Shares self.old.kernel self.old self.new) }
        ensures err { OnErr result (self.new ≡ self.old) }
    {
        others_stay_unheld();
        self.bodies.shares(pid, self.events)?;
        self.events += 1;
        Ok(())
    }

    /// The call `shm()`.
    pub(crate) fn shm(&mut self, pid: u32) -> Result<Done, NoMemory>
        requires live { IsLive self.old.guests pid }
        requires room { self.old.events + 1 < 2 ^ 64 }
        ensures carried { IfOk result (λ done. OfProcess self.old pid (λ m v.
            Carried (shm_row m pid v) done m pid v self.new)) }
        ensures nothing { IfOk result (λ done. done.extra ≡ Extra.Nothing) }
        ensures err { OnErr result (self.new ≡ self.old) }
    {
        if self.bodies.has_segment(pid) {
            return Ok(self.answers(pid, error(BAD_ARGUMENT)));
        }
        self.shares(pid)?;
        Ok(Done {
            result: 0,
            extra: Extra::Nothing,
        })
    }
}
