// Descriptors of processes: what opens and closes them, and the calls close and dup.
ghost use Rattle.std.specs.Prelude.{◌≡◌, ◌+◌, ◌<◌, ◌^◌, false, length, IfOk, IfSome, IsNone, OnErr, Some};
ghost use Rattle.parts_model.specs.declared.limits.TheConstants.{MOST_DESCRIPTORS};
ghost use Rattle.arn_model.specs.FileCalls.{close_row, dup_opened, dup_row, has_no_room};
ghost use Rattle.arn_model.specs.Kernel.{all_dropped, closes, description_of, descriptors_of, dropped, next_descriptor, placed};
ghost use Rattle.guest_bodies.specs.Shown.{IsLive};
ghost use Rattle.guest_calls.specs.Acted.{Carried};
ghost use Rattle.guest_calls.specs.Opened.{dropped_if};
ghost use Rattle.guest_calls.specs.State.{OfProcess};

use crate::kernel::Kernel;
use crate::outcomes::Done;
use arn_base::{Extra, NoMemory};
use guest_requests::error;
use parts_model::limits::MOST_DESCRIPTORS;
use parts_model::refusals::{BAD_DESCRIPTOR, NO_DESCRIPTOR_ROOM};

impl Kernel {
    /// The description for which a descriptor of a process stands, if it is open.
    pub(crate) fn description_of(&self, pid: u32, descriptor: u64) -> Option<u32>
        requires { IsLive self.now.guests pid }
        ensures { result ≡ description_of self.now.kernel pid descriptor }
    {
        self.procs.descriptor(pid, descriptor)
    }

    /// Whether a process has no free descriptor.
    pub(crate) fn has_no_room(&self, pid: u32) -> bool
        requires { IsLive self.now.guests pid }
        ensures { result ≡ has_no_room self.now.kernel pid }
    {
        self.procs.free(pid) == 0
    }

    /// The lowest free descriptor of a process stands for a description from now on.
    pub(crate) fn place(&mut self, pid: u32, description: u32) -> u64
        requires live { IsLive self.old.guests pid }
        requires room { has_no_room self.old.kernel pid ≡ false }
        ensures placed { self.new ≡ record self.old {
          kernel = placed pid description self.old.kernel;
        } }
        ensures number { result ≡ next_descriptor self.old.kernel pid }
        ensures small { result < 256 }
    {
        match self.procs.place(pid, description) {
            Ok(number) => number as u64,
            Err(_) => unreachable!(),
        }
    }

    // One descriptor of a process fewer stands for a description. Without any it is gone, and what it
    // stood for is closed.
    fn drop_one(&mut self, pid: u32, number: u32)
        requires { IsLive self.old.guests pid }
        ensures dropped { self.new ≡ record self.old { kernel = dropped number self.old.kernel } }
        ensures processes { self.new.kernel.processes ≡ self.old.kernel.processes }
    {
        if let Some(what) = self.resources.drop_one(number) {
            self.channels.close(what);
        }
    }

    // Closes a descriptor of a process, and answers for which description it stood.
    fn lift(&mut self, pid: u32, descriptor: u64) -> Option<u32>
        requires { IsLive self.old.guests pid }
        ensures found { result ≡ description_of self.old.kernel pid descriptor }
        ensures closed { IfSome result (λ number. self.new ≡ record self.old {
          kernel = closes pid descriptor number self.old.kernel;
        }) }
        ensures none { IsNone result → self.new ≡ self.old }
    {
        let number = self.procs.lift(pid, descriptor)?;
        self.drop_one(pid, number);
        Some(number)
    }

    /// The call `close(descriptor)`.
    pub(crate) fn close(&mut self, pid: u32) -> Done
        requires live { IsLive self.old.guests pid }
        requires room { self.old.events + 1 < 2 ^ 64 }
        ensures carried { OfProcess self.old pid (λ m v.
            Carried (close_row m pid v) result m pid v self.new) }
        ensures nothing { result.extra ≡ Extra.Nothing }
    {
        match self.lift(pid, self.argument(pid, 0)) {
            None => self.answers(pid, error(BAD_DESCRIPTOR)),
            Some(_) => {
                self.returns(pid, 0);
                Done {
                    result: 0,
                    extra: Extra::Nothing,
                }
            }
        }
    }

    /// The call `dup(descriptor)`.
    pub(crate) fn dup(&mut self, pid: u32) -> Result<Done, NoMemory>
        requires live { IsLive self.old.guests pid }
        requires room { self.old.events + 1 < 2 ^ 64 }
        ensures carried { IfOk result (λ done. OfProcess self.old pid (λ m v.
            Carried (dup_row m pid v) done m pid v self.new)) }
        ensures nothing { IfOk result (λ done. done.extra ≡ Extra.Nothing) }
        ensures err { OnErr result (self.new ≡ self.old) }
    {
        match self.description_of(pid, self.argument(pid, 0)) {
            None => Ok(self.answers(pid, error(BAD_DESCRIPTOR))),
            Some(number) => self.dup_description(pid, number),
        }
    }

    // Another descriptor for a description.
    fn dup_description(&mut self, pid: u32, number: u32) -> Result<Done, NoMemory>
        requires live { IsLive self.old.guests pid }
        requires room { self.old.events + 1 < 2 ^ 64 }
        ensures carried { IfOk result (λ done. OfProcess self.old pid (λ m v.
            Carried (dup_opened m pid (Some number)) done m pid v self.new)) }
        ensures nothing { IfOk result (λ done. done.extra ≡ Extra.Nothing) }
        ensures err { OnErr result (self.new ≡ self.old) }
    {
        if self.has_no_room(pid) {
            return Ok(self.answers(pid, error(NO_DESCRIPTOR_ROOM)));
        }
        self.resources.hold_one(number)?;
        let descriptor = self.place(pid, number);
        self.returns(pid, descriptor);
        Ok(Done {
            result: descriptor,
            extra: Extra::Nothing,
        })
    }

    // Each process has all its descriptors, open or not.
    fn count_descriptors(&self, pid: u32)
        requires { IsLive self.now.guests pid }
        ensures { length (descriptors_of self.now.kernel pid) ≡ MOST_DESCRIPTORS }
    {
        let _ = &self.procs;
    }

    // What a descriptor of a process stands for has one descriptor fewer. The descriptor stays.
    fn close_descriptor(&mut self, pid: u32, descriptor: u64)
        requires { IsLive self.old.guests pid }
        ensures closed { self.new ≡ record self.old {
          kernel = dropped_if (description_of self.old.kernel pid descriptor) self.old.kernel;
        } }
        ensures processes { self.new.kernel.processes ≡ self.old.kernel.processes }
    {
        if let Some(number) = self.description_of(pid, descriptor) {
            self.drop_one(pid, number);
        }
    }

    /// All that a process has open is closed. Its descriptors stay.
    pub(crate) fn close_all(&mut self, pid: u32)
        requires { IsLive self.old.guests pid }
        ensures { self.new ≡ record self.old {
          kernel = all_dropped (descriptors_of self.old.kernel pid) self.old.kernel;
        } }
    {
        self.count_descriptors(pid);
        for descriptor in 0..MOST_DESCRIPTORS {
            self.close_descriptor(pid, descriptor);
        }
    }
}
