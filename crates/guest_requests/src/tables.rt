// The tables of a kernel, to be read.
ghost use Rattle.std.specs.Prelude.{◌≡◌, ◌<◌, ◌^◌, IfErr, IfOk, IfSome, IsTrue, Some, length};
ghost use Rattle.std.specs.Result.{result_ok};
ghost use Rattle.parts_model.specs.Processes.{status_of};
ghost use Rattle.arn_model.specs.FileCalls.{has_no_room};
ghost use Rattle.arn_model.specs.Kernel.{description_of, descriptors_of, opened, room_for, what_is};
ghost use Rattle.arn_model.specs.TransferCalls.{was_unplugged};
ghost use Rattle.guest_bodies.specs.Shown.{IsLive};
ghost use Rattle.guest_procs.specs.Answers.{WaitFails, lowest_ended};
ghost use Rattle.guest_procs.specs.Status.{status_byte};
ghost use Rattle.guest_resources.specs.Resources.{IsKnown};
ghost use Rattle.guest_resources.specs.Rooms.{have_room};
ghost use Rattle.guest_requests.specs.Tables.{AreThere, tables_of};

use guest_bodies::Bodies;
use guest_channels::Channels;
use guest_procs::{Ended, ProcError, Procs};
use guest_resources::{Console, Resources, Unplugged};
use parts_model::Description;
use std::marker::Model;

/// How many processes are made at most, those that are gone among them.
const MOST_MADE: usize = 0x8000_0000;

/// Processes, what they have open, the console and the devices that were unplugged, while it is
/// decided what a call comes to.
#[derive(Drop)]
pub struct Tables<'a> {
    pub(crate) bodies: &'a Bodies,
    pub(crate) procs: &'a Procs,
    pub(crate) resources: &'a Resources,
    pub(crate) channels: &'a Channels,
    pub(crate) console: &'a Console,
    pub(crate) unplugged: &'a Unplugged,
}

impl<'a> Model for Tables<'a> {
    ghost use Rattle.guest_requests.specs.Tables.{Tables as TablesModel};

    ghost Value = { TablesModel };

    ghost use Rattle.guest_requests.specs.Tables.{AreThere, tables_of};

    ghost view = { λ t. tables_of t.bodies.now t.procs.now t.resources.now t.channels.now
        t.console.now t.unplugged.now };

    ghost invariant = { λ t. AreThere t.bodies.now t.procs.now };
}

impl<'a> Tables<'a> {
    pub fn new(
        bodies: &'a Bodies,
        procs: &'a Procs,
        resources: &'a Resources,
        channels: &'a Channels,
        console: &'a Console,
        unplugged: &'a Unplugged,
    ) -> Tables<'a>
        requires { AreThere bodies.now procs.now }
        ensures { result ≡ tables_of bodies.now procs.now resources.now channels.now
            console.now unplugged.now }
    {
        Tables {
            bodies,
            procs,
            resources,
            channels,
            console,
            unplugged,
        }
    }

    /// The description for which a descriptor of a process stands, if it is open.
    pub(crate) fn description_of(&self, pid: u32, descriptor: u64) -> Option<u32>
        requires { IsLive self.now.guests pid }
        ensures { result ≡ description_of self.now.kernel pid descriptor }
    {
        self.procs.descriptor(pid, descriptor)
    }

    /// What a description is, if it is there.
    pub fn what_is(&self, number: u32) -> Option<Description>
        ensures what { result ≡ what_is self.now.kernel number }
        ensures known { IfSome result (IsKnown self.now.kernel.files) }
    {
        self.resources.what_is(number)
    }

    /// What a descriptor of a process stands for, if it is open.
    pub(crate) fn opened(&self, pid: u32, descriptor: u64) -> Option<Description>
        requires { IsLive self.now.guests pid }
        ensures { result ≡ opened self.now.kernel pid descriptor }
    {
        self.what_is(self.description_of(pid, descriptor)?)
    }

    /// Whether a process has no free descriptor.
    pub(crate) fn has_no_room(&self, pid: u32) -> bool
        requires { IsLive self.now.guests pid }
        ensures { result ≡ has_no_room self.now.kernel pid }
    {
        self.procs.free(pid) == 0
    }

    /// How many more descriptors a process may open.
    pub fn room_for(&self, pid: u32) -> u32
        requires { IsLive self.now.guests pid }
        ensures { result ≡ room_for self.now.kernel pid }
    {
        self.procs.free(pid)
    }

    /// Whether there is a number for a child of a process, and room for its descriptors.
    pub fn can_add_child(&self, pid: u32) -> bool
        ensures few { IsTrue result → length self.now.kernel.processes < 2 ^ 31 }
        ensures room { IsTrue result → IsTrue
            (have_room (descriptors_of self.now.kernel pid) self.now.kernel.descriptions) }
    {
        self.procs.count_made() < MOST_MADE && self.resources.has_room(self.procs.descriptors(pid))
    }

    /// How the lowest child of a process that has ended did so.
    pub(crate) fn next_ended(&self, pid: u32) -> Result<Ended, ProcError>
        ensures answer { result_ok result ≡ lowest_ended self.now.kernel.processes pid }
        ensures told { IfOk result (λ e.
            status_of self.now.kernel.processes e.pid ≡ Some (status_byte e.status e.event)) }
        ensures why { IfErr result (WaitFails self.now.kernel.processes pid) }
    {
        self.procs.next_ended(pid)
    }

    /// Whether a device was unplugged.
    pub(crate) fn was_unplugged(&self, device: u32) -> bool
        ensures { result ≡ was_unplugged self.now.kernel device }
    {
        self.unplugged.contains(device)
    }

    /// How many bytes wait at the console.
    pub(crate) fn queued(&self) -> usize
        ensures { result ≡ length self.now.kernel.console.queue }
    {
        self.console.len()
    }
}
