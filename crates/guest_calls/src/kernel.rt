// The kernel, and what it knows of processes.
ghost use Rattle.std.specs.Prelude.{◌≡◌, ◌≢◌, ◌+◌, ◌<◌, ◌^◌, ◌↔◌, nat_lt, false, true, [], length, Err, Ok, IfErr, OnOk, OnErr, IsNone, IsSome, IsTrue};
ghost use Rattle.parts_model.specs.declared.limits.TheConstants.{MOST_FILE_BYTES};
ghost use Rattle.parts_model.specs.Files.{find_file, is_full};
ghost use Rattle.parts_model.specs.Processes.{live};
ghost use Rattle.arn_model.specs.Run.{file_step, typed_step, unplug_step};
ghost use Rattle.arn_model.specs.TransferCalls.{was_unplugged};
ghost use Rattle.guest_bodies.specs.Shown.{IsLive};
ghost use Rattle.guest_calls.specs.State.{Becomes, IsNext, state_first};
ghost use Rattle.guest_calls.specs.Tables.{tables_in};

use arn_base::NoMemory;
use guest_bodies::Bodies;
use guest_channels::Channels;
use guest_files::FileError;
use guest_procs::Procs;
use guest_requests::Tables;
use guest_resources::{Console, Resources, Unplugged};
use std::alloc::Global;
use std::marker::Model;

/// Processes, and what they have to do with each other and with the outside: what they have open,
/// files, pipes and ports, the console, and the devices that were unplugged.
#[derive(Drop)]
pub struct Kernel {
    pub(crate) alloc: Global,
    pub(crate) bodies: Bodies,
    pub(crate) procs: Procs,
    pub(crate) resources: Resources,
    pub(crate) channels: Channels,
    pub(crate) console: Console,
    pub(crate) unplugged: Unplugged,
    pub(crate) booted: bool,
    pub(crate) events: u64,
}

impl Model for Kernel {
    ghost use Rattle.guest_calls.specs.State.{State};

    ghost Value = { State };

    ghost use Rattle.guest_calls.specs.Kept.{state_of, IsKept};

    ghost view = { state_of };

    ghost invariant = { IsKept };
}

impl Kernel {
    /// Before anything has come from outside.
    pub fn new(alloc: Global) -> Kernel
        ensures { result ≡ state_first }
    {
        Kernel {
            alloc,
            bodies: Bodies::new(alloc),
            procs: Procs::new(alloc),
            resources: Resources::new(alloc),
            channels: Channels::new(alloc),
            console: Console::new(alloc),
            unplugged: Unplugged::new(alloc),
            booted: false,
            events: 0,
        }
    }

    /// How many events there have been.
    pub fn events(&self) -> u64
        ensures { result ≡ self.now.events }
    {
        self.events
    }

    /// Whether a process has been made.
    pub fn is_booted(&self) -> bool
        ensures { result ≡ nat_lt 0 (length self.now.kernel.processes) }
    {
        self.booted
    }

    /// The numbers of the processes that live, in order.
    pub fn live(&self) -> &[u32]
        ensures { result.now ≡ live self.now.kernel.processes }
    {
        self.procs.live()
    }

    /// Whether a process lives.
    pub fn is_live(&self, pid: u32) -> bool
        ensures { IsTrue result ↔ IsLive self.now.guests pid }
    {
        self.bodies.is_live(pid)
    }

    /// Its tables, to be read.
    pub(crate) fn tables(&self) -> Tables<'_>
        ensures { result ≡ tables_in self.now }
    {
        Tables::new(
            &self.bodies,
            &self.procs,
            &self.resources,
            &self.channels,
            &self.console,
            &self.unplugged,
        )
    }

    /// Adds a boot file.
    pub fn add_file(&mut self, name: &[u8], bytes: &[u8], event: u64) -> Result<(), FileError>
        requires no_process { self.old.kernel.processes ≡ [] }
        requires next { IsNext self.old event }

        ensures added { OnOk result
            (Becomes self.old (λ m. (file_step m name.now bytes.now).after) self.new) }

        ensures exists { (result ≡ Err FileError.Exists) ↔
            IsSome (find_file self.old.kernel.files name.now) }
        ensures too_many { (result ≡ Err FileError.TooMany) ↔
            (IsNone (find_file self.old.kernel.files name.now) ×
            IsTrue (is_full self.old.kernel.files)) }
        ensures too_long { (result ≡ Err FileError.TooLong) ↔
            (IsNone (find_file self.old.kernel.files name.now) ×
            (is_full self.old.kernel.files ≡ false) × (MOST_FILE_BYTES < length bytes.now)) }
        ensures answers { IfErr result (λ error. error ≢ FileError.NoFile) }
        ensures err { OnErr result (self.new ≡ self.old) }
    {
        self.resources.add_file(name, bytes, event)?;
        self.events += 1;
        Ok(())
    }

    /// Puts bytes behind the console's queue.
    pub fn type_in(&mut self, bytes: &[u8], event: u64) -> Result<(), NoMemory>
        requires next { IsNext self.old event }
        requires few { length bytes.now < 2 ^ 32 }
        ensures typed { OnOk result (Becomes self.old (λ m. (typed_step m bytes.now).after) self.new) }
        ensures err { OnErr result (self.new ≡ self.old) }
    {
        self.console.put(bytes, event)?;
        self.events += 1;
        Ok(())
    }

    /// Whether a device of this number was unplugged.
    pub fn was_unplugged(&self, device: u32) -> bool
        ensures { result ≡ was_unplugged self.now.kernel device }
    {
        self.unplugged.contains(device)
    }

    /// Unplugs a device of this number. False comes exactly where it was unplugged before.
    pub fn unplug(&mut self, device: u32) -> Result<bool, NoMemory>
        requires room { self.old.events + 1 < 2 ^ 64 }
        ensures unplugged { result ≡ Ok true →
            Becomes self.old (λ m. (unplug_step m device).after) self.new }
        ensures before { (result ≡ Ok false) ↔ IsTrue (was_unplugged self.old.kernel device) }
        ensures same { result ≡ Ok false → self.new ≡ self.old }
        ensures err { OnErr result (self.new ≡ self.old) }
    {
        if !self.unplugged.add(device)? {
            return Ok(false);
        }
        self.events += 1;
        Ok(true)
    }
}
