// Calls that ask devices: device, and reads and writes of what it opens.
ghost use Rattle.std.specs.Prelude.{◌≡◌, ◌+◌, ◌<◌, ◌≤◌, ◌^◌, false, IfOk, IfSome, IsSome, OnErr, take};
ghost use Rattle.parts_model.specs.declared.limits.TheConstants.{MOST_TRANSFER};
ghost use Rattle.acts_model.specs.Views.{bytes_in, error};
ghost use Rattle.arn_model.specs.ChannelCalls.{device_row};
ghost use Rattle.arn_model.specs.Doing.{Does, Here, Reads, Writes, returning};
ghost use Rattle.arn_model.specs.FileCalls.{has_no_room};
ghost use Rattle.guest_bodies.specs.Shown.{IsLive, seen_in};
ghost use Rattle.guest_calls.specs.Acted.{Carried};
ghost use Rattle.guest_calls.specs.Asked.{Replied};
ghost use Rattle.guest_calls.specs.Fits.{IsShort};
ghost use Rattle.guest_calls.specs.State.{OfProcess};
ghost use Rattle.guest_calls.specs.Tried.{Tried};

use crate::kernel::Kernel;
use crate::outcomes::{CallStop, Done};
use arn_base::{Bytes, Extra, NoMemory};
use guest_devices::{Answer, Answers};
use guest_requests::{Opening, copy_of, error};
use parts_model::Description;
use parts_model::refusals::{DEVICE_FAULT, NO_DEVICE};

// The first bytes of a buffer, which keeps no memory for more.
fn front_of(mut buffer: Vec<u8>, count: u32) -> Bytes
    ensures { result ≡ take count buffer.items }
{
    buffer.truncate(count as usize);
    buffer.shrink_to_fit();
    Bytes::from(buffer)
}

impl Kernel {
    /// A call ends since no device answers it: with an error, and with this in its record.
    pub(crate) fn fails(&mut self, pid: u32, refusal: u64, more: Extra) -> Done
        requires live { IsLive self.old.guests pid }
        requires room { self.old.events + 1 < 2 ^ 64 }
        requires some { 0 < refusal }
        ensures carried { OfProcess self.old pid (λ m v.
            Carried (Does (returning (error refusal) more m.kernel)) result m pid v self.new) }
        ensures extra { result.extra ≡ more }
    {
        let answer = error(refusal);
        self.returns(pid, answer);
        Done {
            result: answer,
            extra: more,
        }
    }

    /// A process receives what a device gives, at most so many bytes.
    pub(crate) fn read_device<A: Answers>(
        &mut self,
        pid: u32,
        device: u32,
        at: u64,
        most: u64,
        answers: &mut A,
    ) -> Result<Done, NoMemory>
        requires live { IsLive self.old.guests pid }
        requires room { self.old.events + 1 < 2 ^ 64 }
        requires few { most ≤ MOST_TRANSFER }
        ensures replied { IfOk result (λ done. OfProcess self.old pid (λ m v.
            Replied A.answers answers.old answers.new (Reads device at most) done m pid v self.new)) }
        ensures short { IfOk result (λ done. IsShort done.extra) }
        ensures err { OnErr result (self.new ≡ self.old) }
        ensures unasked { OnErr result (answers.new ≡ answers.old) }
    {
        let spare = self.bodies.spare(most)?;
        let mut buffer = Vec::from_elem(self.alloc, 0u8, most as usize)?;
        match answers.ask(device as u64, buffer.as_mut_slice()) {
            Answer::Gave(count) => {
                let bytes = front_of(buffer, count);
                self.receives(pid, at, bytes.as_slice(), count as u64, spare);
                Ok(Done {
                    result: count as u64,
                    extra: Extra::Reply { device, bytes },
                })
            }
            Answer::Fault => Ok(self.fails(pid, DEVICE_FAULT, Extra::Fault)),
            Answer::Absent => Ok(self.fails(pid, NO_DEVICE, Extra::Absent)),
        }
    }

    /// A process gives a device bytes from an address, as many as that takes.
    pub(crate) fn write_device<A: Answers>(
        &mut self,
        pid: u32,
        device: u32,
        at: u64,
        count: u64,
        answers: &mut A,
    ) -> Result<Done, NoMemory>
        requires live { IsLive self.old.guests pid }
        requires room { self.old.events + 1 < 2 ^ 64 }
        requires reach { IfSome (seen_in self.old.guests pid) (λ v. IsSome (bytes_in v at count)) }
        requires few { count ≤ MOST_TRANSFER }
        ensures replied { IfOk result (λ done. OfProcess self.old pid (λ m v.
            Replied A.answers answers.old answers.new (Writes device at count) done m pid v
            self.new)) }
        ensures short { IfOk result (λ done. IsShort done.extra) }
        ensures err { OnErr result (self.new ≡ self.old) }
        ensures unasked { OnErr result (answers.new ≡ answers.old) }
    {
        let mut bytes = copy_of(&self.bodies, pid, at, count)?;
        match answers.put(device as u64, bytes.as_slice()) {
            Answer::Gave(taken) => {
                bytes.truncate(taken as usize);
                self.returns(pid, taken as u64);
                Ok(Done {
                    result: taken as u64,
                    extra: Extra::Sent { device, bytes },
                })
            }
            Answer::Fault => Ok(self.fails(pid, DEVICE_FAULT, Extra::Fault)),
            Answer::Absent => Ok(self.fails(pid, NO_DEVICE, Extra::Absent)),
        }
    }

    /// The call `device(number)`.
    pub(crate) fn device<A: Answers>(&mut self, pid: u32, answers: &mut A) -> Result<Done, CallStop>
        requires live { IsLive self.old.guests pid }
        requires room { self.old.events + 1 < 2 ^ 64 }
        ensures { Tried A.answers answers.old answers.new device_row pid result self.old self.new }
    {
        match self.tables().opening(pid) {
            Opening::Answers { answer } => Ok(self.answers(pid, answer)),
            Opening::Absent => Ok(self.fails(pid, NO_DEVICE, Extra::Absent)),
            Opening::Asks { device } => Ok(self.open_device(pid, device, answers)?),
        }
    }

    // Opens a device, if it is there.
    fn open_device<A: Answers>(
        &mut self,
        pid: u32,
        device: u32,
        answers: &mut A,
    ) -> Result<Done, NoMemory>
        requires live { IsLive self.old.guests pid }
        requires room { self.old.events + 1 < 2 ^ 64 }
        requires free { has_no_room self.old.kernel pid ≡ false }
        ensures replied { IfOk result (λ done. OfProcess self.old pid (λ m v.
            Replied A.answers answers.old answers.new (Here device) done m pid v self.new)) }
        ensures short { IfOk result (λ done. IsShort done.extra) }
        ensures err { OnErr result (self.new ≡ self.old) }
        ensures unasked { OnErr result (answers.new ≡ answers.old) }
    {
        let number = self.resources.open_channel(Description::Device { device })?;
        if answers.here(device as u64) {
            return Ok(self.answers_one(pid, number));
        }
        self.resources.remove_last();
        Ok(self.fails(pid, NO_DEVICE, Extra::Absent))
    }
}
