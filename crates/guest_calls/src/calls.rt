// The table of calls.
ghost use Rattle.std.specs.Prelude.{◌≡◌, ◌≢◌, ◌+◌, ◌<◌, ◌^◌, ◌↔◌, false, IfOk, IfSome, IsErrOf, IsTrue, OnErr};
ghost use Rattle.parts_model.specs.declared.calls.TheConstants.{DEVICE};
ghost use Rattle.acts_model.specs.Views.{call_number, stands_at};
ghost use Rattle.rv64_model.specs.Instruction.{Call};
ghost use Rattle.arn_model.specs.Row.{is_waiting, request};
ghost use Rattle.guest_bodies.specs.Shown.{IsLive, seen_in};
ghost use Rattle.guest_requests.specs.Standing.{can_wait};
ghost use Rattle.guest_calls.specs.Acted.{Carried};
ghost use Rattle.guest_calls.specs.Asked.{Ended};
ghost use Rattle.guest_calls.specs.Fits.{IsShort};
ghost use Rattle.guest_calls.specs.State.{IsNext, OfProcess};
ghost use Rattle.guest_calls.specs.Steps.{Performed};

use crate::kernel::Kernel;
use crate::outcomes::{CallStop, Done};
use arn_base::NoMemory;
use guest_devices::Answers;
use guest_requests::{calls_come_to_rows, error, others_are_ready};
use parts_model::calls::{
    ACCEPT, CLOSE, CONNECT, DEVICE, DUP, EXEC, EXIT, FORK, GETPID, KILL, LISTEN, OPEN, PIPE, READ,
    SEEK, SHM, SIGACTION, SIGRETURN, UNLINK, WAIT, WRITE, YIELD,
};
use parts_model::refusals::NO_SUCH_CALL;

impl Kernel {
    // Carries out a call that is always ready, and asks no device.
    fn carry_out_ready(&mut self, pid: u32, number: u64) -> Result<Done, NoMemory>
        requires live { IsLive self.old.guests pid }
        requires room { self.old.events + 1 < 2 ^ 64 }
        requires number { IfSome (seen_in self.old.guests pid) (λ v.
            number ≡ call_number v.body.cpu) }
        requires ready { can_wait number ≡ false }
        requires alone { number ≢ DEVICE }
        ensures carried { IfOk result (λ done. OfProcess self.old pid (λ m v.
            Carried (request m pid v) done m pid v self.new)) }
        ensures short { IfOk result (λ done. IsShort done.extra) }
        ensures err { OnErr result (self.new ≡ self.old) }
    {
        calls_come_to_rows();
        match number {
            EXIT => Ok(self.exit(pid)),
            FORK => self.fork(pid),
            EXEC => self.exec(pid),
            GETPID => Ok(self.getpid(pid)),
            KILL => Ok(self.kill(pid)),
            SIGACTION => Ok(self.sigaction(pid)),
            SIGRETURN => Ok(self.sigreturn(pid)),
            OPEN => self.open(pid),
            CLOSE => Ok(self.close(pid)),
            SEEK => Ok(self.seek(pid)),
            DUP => self.dup(pid),
            PIPE => self.pipe(pid),
            UNLINK => self.unlink(pid),
            SHM => self.shm(pid),
            LISTEN => self.listen(pid),
            CONNECT => self.connect(pid),
            YIELD => Ok(self.yields(pid)),
            _ => Ok(self.answers(pid, error(NO_SUCH_CALL))),
        }
    }

    // Carries out the call at which a process stands.
    fn carry_out<A: Answers>(&mut self, pid: u32, answers: &mut A) -> Result<Done, CallStop>
        requires live { IsLive self.old.guests pid }
        requires room { self.old.events + 1 < 2 ^ 64 }
        ensures ended { IfOk result (λ done. OfProcess self.old pid (λ m v.
            Ended A.answers answers.old answers.new (request m pid v) done m pid v self.new)) }
        ensures short { IfOk result (λ done. IsShort done.extra) }
        ensures waits { OfProcess self.old pid (λ m v.
            IsErrOf result CallStop.NotReady ↔ IsTrue (is_waiting (request m pid v))) }
        ensures err { OnErr result (self.new ≡ self.old) }
        ensures unasked { OnErr result (answers.new ≡ answers.old) }
    {
        calls_come_to_rows();
        others_are_ready();
        match self.call_number(pid) {
            READ => self.read(pid, answers),
            WRITE => self.write(pid, answers),
            DEVICE => self.device(pid, answers),
            WAIT => self.wait(pid),
            ACCEPT => self.accept(pid),
            number => Ok(self.carry_out_ready(pid, number)?),
        }
    }

    /// Carries out the call at which a process stands. NotReady says that it isn't ready.
    pub fn perform<A: Answers>(
        &mut self,
        pid: u32,
        event: u64,
        answers: &mut A,
    ) -> Result<Done, CallStop>
        requires live { IsLive self.old.guests pid }
        requires next { IsNext self.old event }
        requires at_call { IfSome (seen_in self.old.guests pid) (λ v. stands_at v ≡ Call) }

        ensures performed { IfOk result (λ done. OfProcess self.old pid (λ m v.
            Performed A.answers answers.old answers.new done m pid v self.new)) }
        ensures short { IfOk result (λ done. IsShort done.extra) }

        ensures waits { OfProcess self.old pid (λ m v.
            IsErrOf result CallStop.NotReady ↔ IsTrue (is_waiting (request m pid v))) }
        ensures err { OnErr result (self.new ≡ self.old) }
        ensures unasked { OnErr result (answers.new ≡ answers.old) }
    {
        self.carry_out(pid, answers)
    }
}
