// The call fork.
ghost use Rattle.std.specs.Prelude.{◌≡◌, ◌+◌, ◌<◌, ◌^◌, length, IfOk, IfSome, IsNone, IsTrue, OnErr, OnOk, option_map};
ghost use Rattle.parts_model.specs.Numbered.{nth};
ghost use Rattle.arn_model.specs.Kernel.{descriptors_of};
ghost use Rattle.arn_model.specs.ProcessCalls.{child_extra, fork_row};
ghost use Rattle.guest_bodies.specs.Follows.{Follows, SetsWatch};
ghost use Rattle.guest_bodies.specs.Shown.{IsFresh, IsLive, inherited, seen_in, watch_in};
ghost use Rattle.guest_resources.specs.Rooms.{have_room};
ghost use Rattle.guest_calls.specs.Acted.{Carried};
ghost use Rattle.guest_calls.specs.Fits.{IsShort};
ghost use Rattle.guest_calls.specs.Forks.{HasChild, with_child};
ghost use Rattle.guest_calls.specs.State.{OfProcess};

use crate::kernel::Kernel;
use crate::outcomes::Done;
use arn_base::{Boxed, Extra, NoMemory};
use guest_bodies::{Bodies, others_stay_unheld};
use guest_requests::error;
use parts_model::refusals::NO_PROCESS_ROOM;

// A process makes a child: in its own group where it holds a segment, else one that starts a group.
fn make_child(bodies: &mut Bodies, pid: u32, child: u32, event: u64) -> Result<(), NoMemory>
    requires live { IsLive bodies.old pid }
    requires dead { IsNone (nth bodies.old child) }
    requires fresh { IsFresh bodies.old event }
    ensures made { OnOk result (IfSome (seen_in bodies.old pid) (λ v.
        Follows bodies.old (with_child pid child event v) bodies.new)) }
    ensures watches { OnOk result
        (SetsWatch child (option_map inherited (watch_in bodies.old pid)) bodies.old bodies.new) }
    ensures err { OnErr result (bodies.new ≡ bodies.old) }
{
    if bodies.has_segment(pid) {
        bodies.forks(pid, child, event)
    } else {
        bodies.founds(pid, child, event)
    }
}

impl Kernel {
    /// The call `fork()`. NoMemory says too that there is no number for a child, or that too many
    /// descriptors stand for what the process has open.
    pub(crate) fn fork(&mut self, pid: u32) -> Result<Done, NoMemory>
        requires live { IsLive self.old.guests pid }
        requires room { self.old.events + 1 < 2 ^ 64 }
        ensures carried { IfOk result (λ done. OfProcess self.old pid (λ m v.
            Carried (fork_row m pid v) done m pid v self.new)) }
        ensures short { IfOk result (λ done. IsShort done.extra) }
        ensures err { OnErr result (self.new ≡ self.old) }
    {
        if self.procs.is_full() {
            return Ok(self.answers(pid, error(NO_PROCESS_ROOM)));
        }
        if !self.tables().can_add_child(pid) {
            return Err(NoMemory);
        }
        let extra = self.child_extra(pid)?;
        let child = self.add_child(pid)?;
        Ok(Done {
            result: child as u64,
            extra,
        })
    }

    // What the record of a fork holds beside the child's number.
    fn child_extra(&self, pid: u32) -> Result<Extra, NoMemory>
        requires live { IsLive self.now.guests pid }
        ensures extra { IfOk result (λ extra. IfSome (seen_in self.now.guests pid) (λ v.
            extra ≡ child_extra v.body.segment v)) }
        ensures short { IfOk result IsShort }
    {
        if self.bodies.has_segment(pid) {
            return Ok(Extra::Nothing);
        }
        let start = self.bodies.start_of(pid)?;
        Ok(Extra::Start(Boxed::new(self.alloc, start)?))
    }

    // A process has a child, and so many more descriptors stand for what it has open.
    fn add_child(&mut self, pid: u32) -> Result<u32, NoMemory>
        requires live { IsLive self.old.guests pid }
        requires room { self.old.events + 1 < 2 ^ 64 }
        requires few { length self.old.kernel.processes < 2 ^ 31 }
        requires descriptors { IsTrue
            (have_room (descriptors_of self.old.kernel pid) self.old.kernel.descriptions) }
        ensures made { IfOk result (λ child. OfProcess self.old pid (λ m v.
            HasChild child m pid v self.new)) }
        ensures err { OnErr result (self.new ≡ self.old) }
    {
        others_stay_unheld();
        let child = match self.procs.fork(pid) {
            Ok(child) => child,
            Err(_) => return Err(NoMemory),
        };
        match make_child(&mut self.bodies, pid, child, self.events) {
            Ok(()) => {}
            Err(NoMemory) => {
                self.procs.take_back();
                return Err(NoMemory);
            }
        }
        self.resources.hold_all(self.procs.descriptors(pid));
        self.events += 1;
        Ok(child)
    }
}
