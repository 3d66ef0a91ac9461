// What the calls are made of.
ghost use Rattle.std.specs.Prelude.{◌≡◌, ◌+◌, ◌<◌, ◌^◌, IfSome, length};
ghost use Rattle.parts_model.specs.Signals.{due_signal};
ghost use Rattle.acts_model.specs.Acts.{Act, Delivers, Receives};
ghost use Rattle.acts_model.specs.Views.{argument, call_number};
ghost use Rattle.arn_model.specs.Doing.{returns};
ghost use Rattle.arn_model.specs.Kernel.{ended, status_at};
ghost use Rattle.arn_model.specs.Step.{without_signal};
ghost use Rattle.guest_bodies.specs.Follows.{IsEnd, IsResult};
ghost use Rattle.guest_bodies.specs.Shown.{IsLive, seen_in, signals_in};
ghost use Rattle.guest_mem.specs.Pages.{IsEnough};
ghost use Rattle.guest_calls.specs.Acted.{Acted, Carried};
ghost use Rattle.guest_calls.specs.State.{OfProcess};

use crate::kernel::Kernel;
use crate::outcomes::Done;
use arn_base::Extra;
use guest_bodies::others_stay_unheld;
use guest_mem::Spare;
use guest_requests::{argument, call_number};

impl Kernel {
    /// The number of the call at which a process stands.
    pub fn call_number(&self, pid: u32) -> u64
        requires { IsLive self.now.guests pid }
        ensures { IfSome (seen_in self.now.guests pid) (λ v. result ≡ call_number v.body.cpu) }
    {
        call_number(&self.bodies, pid)
    }

    /// An argument of the call at which a process stands.
    pub(crate) fn argument(&self, pid: u32, place: usize) -> u64
        requires live { IsLive self.now.guests pid }
        requires place { place < 8 }
        ensures { IfSome (seen_in self.now.guests pid) (λ v. result ≡ argument v.body.cpu place) }
    {
        argument(&self.bodies, pid, place)
    }

    /// A call of a process that moves no bytes to it ends with a result.
    pub(crate) fn returns(&mut self, pid: u32, answer: u64)
        requires live { IsLive self.old.guests pid }
        requires room { self.old.events + 1 < 2 ^ 64 }
        ensures { (act : Act) → IsResult act answer →
            Acted pid act self.old.kernel self.old self.new }
    {
        others_stay_unheld();
        self.bodies.returns(pid, answer);
        self.events += 1;
    }

    /// A call of a process ends with a result and with bytes for it at an address. Where they don't lie
    /// whole in one window, it gets none. The memory that this may take is in hand.
    pub(crate) fn receives(&mut self, pid: u32, at: u64, bytes: &[u8], answer: u64, spare: Spare)
        requires live { IsLive self.old.guests pid }
        requires enough { IsEnough (length bytes.now) spare }
        requires room { self.old.events + 1 < 2 ^ 64 }
        ensures { Acted pid (Receives at bytes.now answer) self.old.kernel self.old self.new }
    {
        others_stay_unheld();
        self.bodies.receives(pid, at, bytes, answer, spare);
        self.events += 1;
    }

    /// A call ends with a result, and does nothing else.
    pub(crate) fn answers(&mut self, pid: u32, answer: u64) -> Done
        requires live { IsLive self.old.guests pid }
        requires room { self.old.events + 1 < 2 ^ 64 }
        ensures carried { OfProcess self.old pid (λ m v.
            Carried (returns answer m.kernel) result m pid v self.new) }
        ensures nothing { result.extra ≡ Extra.Nothing }
    {
        self.returns(pid, answer);
        Done {
            result: answer,
            extra: Extra::Nothing,
        }
    }

    /// A process ends with a status.
    pub(crate) fn ends(&mut self, pid: u32, status: u8)
        requires live { IsLive self.old.guests pid }
        requires room { self.old.events + 1 < 2 ^ 64 }
        ensures { (act : Act) → IsEnd act →
            Acted pid act (ended pid (status_at self.old.events status) self.old.kernel)
            self.old self.new }
    {
        self.close_all(pid);
        match self.procs.end(pid, status, self.events) {
            Ok(()) => {}
            Err(_) => unreachable!(),
        }
        others_stay_unheld();
        self.bodies.ends(pid);
        self.events += 1;
    }

    /// The handler of the due signal begins. `cut` says that this ends a call.
    pub(crate) fn enters(&mut self, pid: u32, signal: u8, handler: u64, cut: bool)
        requires live { IsLive self.old.guests pid }
        requires room { self.old.events + 1 < 2 ^ 64 }
        requires due { IfSome (signals_in self.old.guests pid) (λ s. due_signal s ≡ Some signal) }
        ensures { Acted pid (Delivers signal handler cut)
            (without_signal pid signal self.old.kernel) self.old self.new }
    {
        others_stay_unheld();
        self.bodies.drop_due(pid);
        self.bodies.delivers(pid, signal, handler, cut);
        self.events += 1;
    }
}
