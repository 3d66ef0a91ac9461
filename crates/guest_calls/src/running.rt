// What else happens to a process: instructions, deliveries and ends by fault.
ghost use Rattle.std.specs.Prelude.{◌≡◌, ◌≢◌, ◌+◌, IfSome, IsTrue, Some};
ghost use Rattle.parts_model.specs.Signals.{is_signal};
ghost use Rattle.acts_model.specs.Views.{stands_at};
ghost use Rattle.rv64_core.specs.Outcome.{WouldStore};
ghost use Rattle.rv64_model.specs.Instruction.{Call};
ghost use Rattle.arn_model.specs.Step.{delivery_step, fault_step};
ghost use Rattle.arn_model.specs.Turn.{can_go_on};
ghost use Rattle.guest_bodies.specs.Running.{StopsAt, stop_count};
ghost use Rattle.guest_bodies.specs.Shown.{IsLive, seen_in};
ghost use Rattle.guest_calls.specs.Running.{SteppedMany};
ghost use Rattle.guest_calls.specs.State.{IsNext, OfProcess, StandsFor};
ghost use Rattle.guest_calls.specs.Steps.{DeliveredBy, Stepped};

use crate::kernel::Kernel;
use crate::outcomes::Delivered;
use arn_base::Steps;
use guest_bodies::{Stood, others_stay_unheld};
use rv64_core::Outcome;
use std::sync::ledger::Ledger;

impl Kernel {
    /// Whether a process can go on: a signal is due for it, or it doesn't stand at a call that isn't
    /// ready.
    pub fn runnable(&self, pid: u32) -> bool
        requires live { IsLive self.now.guests pid }
        ensures { OfProcess self.now pid (λ m v. result ≡ can_go_on m pid (Some v)) }
    {
        match self.bodies.due(pid) {
            Some(_) => true,
            None => !self.tables().waits(pid),
        }
    }

    /// Runs the instruction at which a process stands, and counts it whatever it comes to.
    #[inline(always)]
    pub fn step<L: Ledger>(&mut self, pid: u32, steps: &mut Steps<L>) -> Outcome
        requires live { IsLive self.old.guests pid }
        ensures tick { steps.new ≡ steps.old + 1 }
        ensures stepped { result ≢ Outcome.NoMemory → OfProcess self.old pid (λ m v.
            Stepped result m pid v (stands_at v) self.old self.new) }
        ensures no_memory { result ≡ Outcome.NoMemory → self.new ≡ self.old }
        ensures stores { result ≡ Outcome.NoMemory →
            OfProcess self.old pid (λ m v. WouldStore (stands_at v)) }
        ensures at_call { result ≡ Outcome.Call →
            IfSome (seen_in self.new.guests pid) (λ v. stands_at v ≡ Call) }
        ensures alive { IsLive self.new.guests pid }
    {
        others_stay_unheld();
        self.bodies.step(pid, steps)
    }

    /// Runs up to so many instructions of a process, as long as the next one follows, and counts them.
    /// A call or an end at which it stops is counted too, and so is a store that finds no memory.
    pub fn run<L: Ledger>(&mut self, pid: u32, count: u32, steps: &mut Steps<L>) -> Stood
        requires live { IsLive self.old.guests pid }
        ensures tick { steps.new ≡ steps.old + result.ran + stop_count result.outcome }
        ensures stepped { SteppedMany result.ran pid self.old self.new }
        ensures stops { IfSome (seen_in self.new.guests pid) (λ v.
            StopsAt result.outcome result.ran count (stands_at v)) }
        ensures alive { IsLive self.new.guests pid }
    {
        others_stay_unheld();
        self.bodies.run(pid, count, steps)
    }

    /// Delivers the due signal of a process, if there is one.
    pub fn deliver(&mut self, pid: u32, event: u64) -> Option<Delivered>
        requires live { IsLive self.old.guests pid }
        requires next { IsNext self.old event }
        ensures delivered { OfProcess self.old pid (λ m v.
            DeliveredBy result pid (delivery_step m pid v) self.old self.new) }
        ensures signal { IfSome result (λ d. IsTrue (is_signal d.signal)) }
    {
        let signal = match self.bodies.due(pid) {
            Some(signal) => signal,
            None => return None,
        };
        let cut = self.tables().waits(pid);
        let handler = self.bodies.handler(pid, signal);
        if handler == 0 {
            self.ends(pid, 128 + signal);
        } else {
            self.enters(pid, signal, handler, cut);
        }
        Some(Delivered {
            signal,
            cut,
            handler,
        })
    }

    /// Ends a process with a status, as a fault does.
    pub fn fault(&mut self, pid: u32, status: u8, event: u64)
        requires live { IsLive self.old.guests pid }
        requires next { IsNext self.old event }
        ensures { OfProcess self.old pid (λ m v.
            StandsFor self.new (fault_step m pid v status).after) }
    {
        self.ends(pid, status);
    }
}
