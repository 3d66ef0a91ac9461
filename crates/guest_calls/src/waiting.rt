// The call wait.
ghost use Rattle.std.specs.Prelude.{◌≡◌, ◌+◌, ◌<◌, ◌^◌, ◌↔◌, IfOk, IsErrOf, IsTrue, OnErr, Some};
ghost use Rattle.parts_model.specs.Processes.{reaped};
ghost use Rattle.arn_model.specs.ProcessCalls.{wait_row};
ghost use Rattle.arn_model.specs.Row.{is_waiting};
ghost use Rattle.guest_bodies.specs.Shown.{IsLive};
ghost use Rattle.guest_procs.specs.Answers.{lowest_ended};
ghost use Rattle.guest_requests.specs.Waits.{collecting};
ghost use Rattle.guest_calls.specs.Acted.{Carried};
ghost use Rattle.guest_calls.specs.Fits.{IsShort};
ghost use Rattle.guest_calls.specs.State.{OfProcess};

use crate::kernel::Kernel;
use crate::outcomes::{CallStop, Done};
use arn_base::{Extra, NoMemory};
use guest_give::give_of;
use guest_procs::Ended;
use guest_requests::{Waiting, status_of};

impl Kernel {
    /// The call `wait(address)`.
    pub(crate) fn wait(&mut self, pid: u32) -> Result<Done, CallStop>
        requires live { IsLive self.old.guests pid }
        requires room { self.old.events + 1 < 2 ^ 64 }
        ensures carried { IfOk result (λ done. OfProcess self.old pid (λ m v.
            Carried (wait_row m pid v) done m pid v self.new)) }
        ensures short { IfOk result (λ done. IsShort done.extra) }
        ensures waits { OfProcess self.old pid (λ m v.
            IsErrOf result CallStop.NotReady ↔ IsTrue (is_waiting (wait_row m pid v))) }
        ensures err { OnErr result (self.new ≡ self.old) }
    {
        match self.tables().waiting(pid) {
            Waiting::Waits => Err(CallStop::NotReady),
            Waiting::Answers { answer } => Ok(self.answers(pid, answer)),
            Waiting::Collects { child } => Ok(self.collect(pid, child)?),
        }
    }

    // The lowest child of a process that has ended is gone.
    fn forget(&mut self, pid: u32, child: Ended)
        requires live { IsLive self.old.guests pid }
        requires ended { lowest_ended self.old.kernel.processes pid ≡ Some child }
        ensures { self.new ≡ record self.old {
          kernel = record self.old.kernel {
            processes = reaped self.old.kernel.processes child.pid;
          };
        } }
    {
        match self.procs.reap(pid) {
            Ok(_) => {}
            Err(_) => unreachable!(),
        }
    }

    // A process receives the status of a child, which is gone from then on.
    fn collect(&mut self, pid: u32, child: Ended) -> Result<Done, NoMemory>
        requires live { IsLive self.old.guests pid }
        requires room { self.old.events + 1 < 2 ^ 64 }
        requires ended { lowest_ended self.old.kernel.processes pid ≡ Some child }
        ensures carried { IfOk result (λ done. OfProcess self.old pid (λ m v.
            Carried (collecting m v child) done m pid v self.new)) }
        ensures short { IfOk result (λ done. IsShort done.extra) }
        ensures err { OnErr result (self.new ≡ self.old) }
    {
        let give = give_of(self.alloc, &[status_of(child)])?;
        let spare = self.bodies.spare(1)?;
        let at = self.argument(pid, 0);
        let answer = child.pid as u64;
        self.forget(pid, child);
        self.receives(pid, at, give.bytes.as_slice(), answer, spare);
        Ok(Done {
            result: answer,
            extra: Extra::Give(give),
        })
    }
}
