// One live process.
ghost use Rattle.std.specs.Prelude.{◌≡◌, Some, None, is_some, option_map, unwrap_or};
ghost use Rattle.acts_model.specs.Acts.{cut_off};
ghost use Rattle.acts_model.specs.Views.{returned};
ghost use Rattle.parts_model.specs.Signals.{no_handlers, no_signals, none_pending};
ghost use Rattle.rv64_model.specs.Registers.{with_register};

use crate::registers;
use arn_base::{Blocks, Cpu, Start};
use guest_signals::Signals;

/// A memory that a process holds: the event that made it, and its key among those of its kind.
#[derive(Clone, Copy)]
pub struct Held {
    pub made: u64,
    pub key: usize,
}

/// Registers, signals, the private window, and the segment that is held.
#[derive(Drop)]
pub struct Guest {
    pub cpu: Cpu,
    pub signals: Signals,
    pub window: Held,
    pub segment: Option<Held>,
}

impl Guest {
    /// A call ends with a result.
    pub fn returns(&mut self, answer: u64)
        ensures { self.new ≡ record self.old { cpu = returned self.old.cpu answer } }
    {
        registers::set_result(&mut self.cpu, answer);
    }

    /// A handler begins. The registers that it interrupts go to the slot.
    pub fn delivers(&mut self, signal: u8, handler: u64, cut: bool)
        ensures { self.new ≡ record self.old {
          cpu = record (with_register (cut_off cut self.old.cpu) 10 signal) { pc = handler };
          signals = record self.old.signals { slot = Some (cut_off cut self.old.cpu) };
        } }
    {
        registers::cut_off(&mut self.cpu, cut);
        self.signals.save(&self.cpu);
        registers::enter(&mut self.cpu, signal, handler);
    }

    /// A handler ends. False says that the slot is empty.
    pub fn leaves(&mut self) -> bool
        ensures left { result ≡ is_some self.old.signals.slot }
        ensures restored { self.new ≡ record self.old {
          cpu = unwrap_or self.old.signals.slot self.old.cpu;
          signals = record self.old.signals { slot = None };
        } }
    {
        self.signals.leave(&mut self.cpu)
    }

    /// The child of a fork, in this window, which has the bytes of its parent's.
    pub fn child(&self, window: Held, segment: Option<Held>) -> Guest
        ensures { result ≡ record {
          cpu = returned self.now.cpu 0;
          signals = record self.now.signals { pending = none_pending };
          window = window;
          segment = segment;
        } }
    {
        Guest {
            cpu: registers::of_child(&self.cpu),
            signals: self.signals.child(),
            window,
            segment,
        }
    }

    /// A process gets a fresh segment, in the place of one that it may hold, which it gives back.
    pub fn shares(&mut self, segment: Held) -> Option<Held>
        ensures shares { self.new ≡ record self.old {
          cpu = returned self.old.cpu 0;
          segment = Some segment;
        } }
        ensures former { result ≡ self.old.segment }
    {
        self.returns(0);
        self.segment.replace(segment)
    }

    /// A process starts anew, with these registers and in this window. It holds no segment any more.
    pub fn starts(&mut self, cpu: Cpu, window: Held)
        ensures { self.new ≡ record {
          cpu = cpu;
          signals = record self.old.signals { handlers = no_handlers; slot = None };
          window = window;
          segment = None;
        } }
    {
        self.cpu = cpu;
        self.signals.clear();
        self.window = window;
        self.segment = None;
    }

    /// The event that made the segment that is held.
    pub fn segment_event(&self) -> Option<u64>
        ensures { result ≡ option_map (λ held. held.made) self.now.segment }
    {
        Some(self.segment?.made)
    }

    /// How the child of a fork begins, with these blocks in its window.
    pub fn start(&self, blocks: Blocks) -> Start
        ensures { result ≡ record {
          cpu = returned self.now.cpu 0;
          slot = self.now.signals.slot;
          blocks = blocks;
        } }
    {
        Start {
            cpu: registers::of_child(&self.cpu),
            slot: self.signals.slot().copied(),
            blocks,
        }
    }
}

/// A process that begins in this window as a record tells.
pub fn begin(window: Held, start: &Start) -> Guest
    ensures { result ≡ record {
      cpu = start.now.cpu;
      signals = record no_signals { slot = start.now.slot };
      window = window;
      segment = None;
    } }
{
    let mut signals = Signals::new();
    if let Some(cpu) = &start.slot {
        signals.save(cpu);
    }
    Guest {
        cpu: start.cpu,
        signals,
        window,
        segment: None,
    }
}

/// Process 1 as it begins, with these registers and in this window.
pub fn boot(window: Held, cpu: Cpu) -> Guest
    ensures { result ≡ record {
      cpu = cpu;
      signals = no_signals;
      window = window;
      segment = None;
    } }
{
    Guest {
        cpu,
        signals: Signals::new(),
        window,
        segment: None,
    }
}
