// The signals of a process.
ghost use Rattle.std.specs.Prelude.{◌≡◌, ◌<◌, ◌-◌, IsTrue, IsSome, IfSome, IsNone, Some, None, true, false, is_some, option_copied};
ghost use Rattle.parts_model.specs.Signals.{no_signals, no_handlers, none_pending, is_signal, can_set, handler_of, due_signal, with_handler, with_pending, without};
ghost use Rattle.guest_signals.specs.Handling.{due_handler, handling};

use crate::pending;
use arn_base::Cpu;
use parts_model::limits::{GREATEST_SIGNAL, KILL_SIGNAL};
use std::marker::Model;

const COUNT: usize = GREATEST_SIGNAL as usize;

/// The handlers, the pending signals and the save slot of one process. A handler is an address, 0 where there is none. The
/// lowest digit of `pending` stands for signal 1.
#[derive(Drop)]
pub struct Signals {
    handlers: [u64; COUNT],
    pending: u32,
    slot: Option<Cpu>,
}

impl Model for Signals {
    ghost use Rattle.std.specs.Prelude.{◌≡◌, length};
    ghost use Rattle.parts_model.specs.Signals.{Signals};
    ghost use Rattle.parts_model.specs.declared.limits.TheConstants.{GREATEST_SIGNAL};
    ghost use Rattle.guest_signals.specs.Pending.{pending_in};

    ghost Value = { Signals };

    ghost view = { λ s. record { handlers = s.handlers; pending = pending_in s.pending; slot = s.slot } };

    ghost invariant = { λ s. length s.handlers ≡ GREATEST_SIGNAL };
}

/// Where a signal stands in a list of all.
fn place(signal: u8) -> usize
    requires { IsTrue (is_signal signal) }
    ensures place { result ≡ signal - 1 }
    ensures inside { result < GREATEST_SIGNAL }
{
    signal as usize - 1
}

/// Whether a handler may be set for a signal.
fn can_set(signal: u8, handler: u64) -> bool
    ensures { result ≡ can_set signal handler }
{
    (1..=COUNT as u8).contains(&signal) && signal as u64 != KILL_SIGNAL && handler.is_multiple_of(4)
}

impl Signals {
    /// No handler is set, nothing is pending or saved.
    #[tactic(auto, unfolding(crate::specs::Pending::pending_in))]
    pub fn new() -> Signals
        ensures { result ≡ no_signals }
    {
        Signals {
            handlers: [0; COUNT],
            pending: 0,
            slot: None,
        }
    }

    /// Sets a handler, or takes one away where it is 0. False says that it may not be set.
    pub fn set(&mut self, signal: u8, handler: u64) -> bool
        ensures allowed { result ≡ can_set signal handler }
        ensures set { IsTrue result → self.new ≡
            record self.old { handlers = with_handler self.old.handlers signal handler } }
        ensures refused { result ≡ false → self.new ≡ self.old }
    {
        let is_allowed = can_set(signal, handler);
        if is_allowed {
            self.handlers[place(signal)] = handler;
        }
        is_allowed
    }

    /// Makes a signal pending.
    pub fn post(&mut self, signal: u8)
        requires { IsTrue (is_signal signal) }
        ensures { self.new ≡ record self.old { pending = with_pending self.old.pending signal true } }
    {
        self.pending = pending::with(self.pending, place(signal));
    }

    /// The signal that is delivered next.
    pub fn due(&self) -> Option<u8>
        ensures due { result ≡ due_signal self.now }
        ensures signal { IfSome result (λ signal. IsTrue (is_signal signal)) }
    {
        if pending::has(self.pending, place(KILL_SIGNAL as u8)) {
            return Some(KILL_SIGNAL as u8);
        }
        if self.slot.is_some() {
            return None;
        }
        pending::lowest(self.pending)
    }

    /// A signal's handler, 0 where it has none.
    pub fn handler(&self, signal: u8) -> u64
        requires { IsTrue (is_signal signal) }
        ensures { result ≡ handler_of self.now.handlers signal }
    {
        self.handlers[place(signal)]
    }

    /// Takes the due signal away.
    pub fn drop_due(&mut self)
        ensures { self.new ≡
            record self.old { pending = without self.old.pending (due_signal self.old) } }
    {
        if let Some(signal) = self.due() {
            self.pending = pending::without(self.pending, place(signal));
        }
    }

    /// Puts registers into the slot, in the place of those that may be in it.
    pub fn save(&mut self, cpu: &Cpu)
        ensures { self.new ≡ record self.old { slot = Some cpu.now } }
    {
        self.slot = Some(*cpu);
    }

    /// Begins the due signal's handler: the registers go to the slot, x10 becomes the signal and pc the handler.
    pub fn enter(&mut self, cpu: &mut Cpu)
        requires due { IsSome (due_signal self.old) }
        requires handled { 0 < due_handler self.old }
        ensures saved { self.new.slot ≡ Some cpu.old }
        ensures pending { self.new.pending ≡ without self.old.pending (due_signal self.old) }
        ensures handlers { self.new.handlers ≡ self.old.handlers }
        ensures registers { IfSome (due_signal self.old) (λ signal. cpu.new ≡
            handling cpu.old signal (due_handler self.old)) }
    {
        if let Some(signal) = self.due() {
            self.drop_due();
            self.save(cpu);
            cpu.x[9] = signal as u64;
            cpu.pc = self.handler(signal);
        }
    }

    /// Ends a handler: the registers are those of the slot again. False says that the slot is empty.
    pub fn leave(&mut self, cpu: &mut Cpu) -> bool
        ensures left { result ≡ is_some self.old.slot }
        ensures restored { IfSome self.old.slot (λ saved. cpu.new ≡ saved) }
        ensures emptied { self.new ≡ record self.old { slot = None } }
        ensures refused { IsNone self.old.slot → self.new ≡ self.old }
        ensures kept { IsNone self.old.slot → cpu.new ≡ cpu.old }
    {
        match self.slot.take() {
            Some(saved) => {
                *cpu = saved;
                true
            }
            None => false,
        }
    }

    /// The registers that are saved while a handler runs.
    pub fn slot(&self) -> Option<&Cpu>
        ensures { option_copied result ≡ self.now.slot }
    {
        self.slot.as_ref()
    }

    /// What a child gets: the same handlers and slot, and nothing pending.
    #[tactic(auto, unfolding(crate::specs::Pending::pending_in))]
    pub fn child(&self) -> Signals
        ensures { result ≡ record self.now { pending = none_pending } }
    {
        let pending = 0;
        Signals {
            handlers: self.handlers,
            pending,
            slot: self.slot,
        }
    }

    /// Takes all handlers away and empties the slot. What is pending stays.
    pub fn clear(&mut self)
        ensures { self.new ≡ record self.old { handlers = no_handlers; slot = None } }
    {
        self.handlers = [0; COUNT];
        self.slot = None;
    }
}
