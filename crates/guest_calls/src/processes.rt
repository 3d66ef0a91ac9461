// The calls on processes.
ghost use Rattle.std.specs.Prelude.{◌≡◌, ◌+◌, ◌<◌, ◌^◌};
ghost use Rattle.arn_model.specs.ProcessCalls.{exit_row, getpid_row, yield_row};
ghost use Rattle.guest_bodies.specs.Shown.{IsLive};
ghost use Rattle.guest_calls.specs.Acted.{Carried};
ghost use Rattle.guest_calls.specs.State.{OfProcess};

use crate::kernel::Kernel;
use crate::outcomes::Done;
use arn_base::Extra;

impl Kernel {
    /// The call `exit(status)`.
    pub(crate) fn exit(&mut self, pid: u32) -> Done
        requires live { IsLive self.old.guests pid }
        requires room { self.old.events + 1 < 2 ^ 64 }
        ensures carried { OfProcess self.old pid (λ m v.
            Carried (exit_row m pid v) result m pid v self.new) }
        ensures nothing { result.extra ≡ Extra.Nothing }
    {
        let status = (self.argument(pid, 0) % 256) as u8;
        self.ends(pid, status);
        Done {
            result: 0,
            extra: Extra::Nothing,
        }
    }

    /// The call `getpid()`.
    pub(crate) fn getpid(&mut self, pid: u32) -> Done
        requires live { IsLive self.old.guests pid }
        requires room { self.old.events + 1 < 2 ^ 64 }
        ensures carried { OfProcess self.old pid (λ m v.
            Carried (getpid_row m pid v) result m pid v self.new) }
        ensures nothing { result.extra ≡ Extra.Nothing }
    {
        self.answers(pid, pid as u64)
    }

    /// The call `yield()`.
    pub(crate) fn yields(&mut self, pid: u32) -> Done
        requires live { IsLive self.old.guests pid }
        requires room { self.old.events + 1 < 2 ^ 64 }
        ensures carried { OfProcess self.old pid (λ m v.
            Carried (yield_row m pid v) result m pid v self.new) }
        ensures nothing { result.extra ≡ Extra.Nothing }
    {
        self.answers(pid, 0)
    }
}
