// What waits for children come to.
ghost use Rattle.std.specs.Prelude.{◌≡◌, ◌∷◌, [], not};
ghost use Rattle.parts_model.specs.declared.refusals.TheConstants.{BAD_ADDRESS};
ghost use Rattle.acts_model.specs.Views.{argument, can_reach};
ghost use Rattle.arn_model.specs.Doing.{Request, refuse, unless_refused};
ghost use Rattle.arn_model.specs.ProcessCalls.{wait_row};
ghost use Rattle.guest_bodies.specs.Shown.{IsLive};
ghost use Rattle.guest_procs.specs.Status.{status_byte};
ghost use Rattle.guest_requests.specs.Tables.{OfTables};
ghost use Rattle.guest_requests.specs.Waits.{IsLowest, IsWait};

use crate::arguments::{argument, error};
use crate::tables::Tables;
use arn_base::Src;
use guest_procs::{Ended, ProcError};
use parts_model::TaggedByte;
use parts_model::refusals::{BAD_ADDRESS, NO_CHILD};

/// What a wait comes to.
#[derive(Clone, Copy)]
pub enum Waiting {
    /// It isn't ready.
    Waits,
    /// It ends with this result and moves no bytes.
    Answers { answer: u64 },
    /// It receives the status of a child that has ended.
    Collects { child: Ended },
}

/// The status with which a child has ended, as the kernel holds it.
pub fn status_of(child: Ended) -> TaggedByte
    ensures { result ≡ status_byte child.status child.event }
{
    TaggedByte {
        value: child.status,
        origin: Src {
            event: child.event,
            at: 0,
        },
    }
}

impl<'a> Tables<'a> {
    /// What the wait at which a process stands comes to.
    pub fn waiting(&self, pid: u32) -> Waiting
        requires { IsLive self.now.guests pid }
        ensures waiting { OfTables self.now pid (λ m v. IsWait result m v (wait_row m pid v)) }
        ensures lowest { IsLowest result self.now.kernel.processes pid }
    {
        match self.next_ended(pid) {
            Ok(child) => self.if_reached(pid, Waiting::Collects { child }),
            Err(ProcError::NoChild) => Waiting::Answers {
                answer: error(NO_CHILD),
            },
            Err(_) => self.if_reached(pid, Waiting::Waits),
        }
    }

    // A wait, unless there is no byte at its address.
    fn if_reached(&self, pid: u32, goes_on: Waiting) -> Waiting
        requires { IsLive self.now.guests pid }
        ensures waits { OfTables self.now pid (λ m v. (request : Request) →
            IsWait goes_on m v request → IsWait result m v (unless_refused m.kernel
            (refuse BAD_ADDRESS (not (can_reach v (argument v.body.cpu 0) 1)) ∷ []) request)) }
        ensures lowest { IsLowest goes_on self.now.kernel.processes pid →
            IsLowest result self.now.kernel.processes pid }
    {
        if !self.bodies.can_reach(pid, argument(self.bodies, pid, 0), 1) {
            return Waiting::Answers {
                answer: error(BAD_ADDRESS),
            };
        }
        goes_on
    }
}
