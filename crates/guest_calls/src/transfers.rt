// The calls that move bytes: read and write.
ghost use Rattle.std.specs.Prelude.{◌≡◌, ◌+◌, ◌<◌, ◌≤◌, ◌^◌, IfOk, IfSome, IsSome, OnErr, length};
ghost use Rattle.parts_model.specs.declared.limits.TheConstants.{MOST_TRANSFER};
ghost use Rattle.acts_model.specs.Views.{bytes_in, read};
ghost use Rattle.arn_model.specs.TransferCalls.{read_row, write_console, write_row};
ghost use Rattle.guest_bodies.specs.Shown.{IsLive, seen_in};
ghost use Rattle.guest_requests.specs.Transfers.{CanDrain, CanPour, IsOpenAt, draining, pouring, reading_at, taking, writing_at};
ghost use Rattle.guest_calls.specs.Acted.{Carried};
ghost use Rattle.guest_calls.specs.Fits.{IsShort};
ghost use Rattle.guest_calls.specs.State.{OfProcess};
ghost use Rattle.guest_calls.specs.Tried.{Tried};

use crate::kernel::Kernel;
use crate::outcomes::{CallStop, Done, or_stop};
use arn_base::{Extra, NoMemory};
use guest_bodies::others_stay_unheld;
use guest_devices::Answers;
use guest_give::give_of;
use guest_requests::{Place, Reading, Writing, copy_of, error, first_of};
use parts_model::limits::MOST_PIPE_BYTES;
use parts_model::refusals::{BROKEN_PIPE, NO_DEVICE, NO_ROOM};

impl Kernel {
    /// The call `read(descriptor, address, count)`.
    pub(crate) fn read<A: Answers>(&mut self, pid: u32, answers: &mut A) -> Result<Done, CallStop>
        requires live { IsLive self.old.guests pid }
        requires room { self.old.events + 1 < 2 ^ 64 }
        ensures { Tried A.answers answers.old answers.new read_row pid result self.old self.new }
    {
        match self.tables().reading(pid) {
            Reading::Waits => Err(CallStop::NotReady),
            Reading::Answers { answer } => Ok(self.answers(pid, answer)),
            Reading::Takes { at, count } => or_stop(self.take(pid, at, count)),
            Reading::Reads { at, most, place } => or_stop(self.take_from_file(
                pid, at, most, place,
            )),
            Reading::Drains { at, most, pipe } => or_stop(self.drain(pid, at, most, pipe)),
            Reading::Absent => Ok(self.fails(pid, NO_DEVICE, Extra::Absent)),
            Reading::Asks { device, at, most } => {
                or_stop(self.read_device(pid, device, at, most, answers))
            }
        }
    }

    // A process receives the first bytes of the console's queue.
    fn take(&mut self, pid: u32, at: u64, count: usize) -> Result<Done, NoMemory>
        requires live { IsLive self.old.guests pid }
        requires room { self.old.events + 1 < 2 ^ 64 }
        requires queued { count ≤ length self.old.kernel.console.queue }
        requires few { count ≤ MOST_TRANSFER }
        ensures carried { IfOk result (λ done. OfProcess self.old pid (λ m v.
            Carried (taking m at count) done m pid v self.new)) }
        ensures short { IfOk result (λ done. IsShort done.extra) }
        ensures err { OnErr result (self.new ≡ self.old) }
    {
        let give = give_of(self.alloc, self.console.front(count))?;
        let spare = self.bodies.spare(count as u64)?;
        others_stay_unheld();
        self.bodies
            .receives(pid, at, give.bytes.as_slice(), count as u64, spare);
        self.console.take(count);
        self.events += 1;
        Ok(Done {
            result: count as u64,
            extra: Extra::Give(give),
        })
    }

    // A process receives what stands behind a place in a file.
    fn take_from_file(
        &mut self,
        pid: u32,
        at: u64,
        most: u32,
        place: Place,
    ) -> Result<Done, NoMemory>
        requires live { IsLive self.old.guests pid }
        requires room { self.old.events + 1 < 2 ^ 64 }
        requires place { IsOpenAt self.old.kernel place }
        requires few { most ≤ MOST_TRANSFER }
        ensures carried { IfOk result (λ done. OfProcess self.old pid (λ m v.
            Carried (reading_at m at most place) done m pid v self.new)) }
        ensures short { IfOk result (λ done. IsShort done.extra) }
        ensures err { OnErr result (self.new ≡ self.old) }
    {
        let spare = self.bodies.spare(most as u64)?;
        let give = self.resources.read(place.file, place.position, most)?;
        let count = give.bytes.len();
        if count == 0 {
            return Ok(self.answers(pid, 0));
        }
        others_stay_unheld();
        self.bodies
            .receives(pid, at, give.bytes.as_slice(), count as u64, spare);
        self.resources
            .move_to(place.number, place.file, place.position + count as u32);
        self.events += 1;
        Ok(Done {
            result: count as u64,
            extra: Extra::Give(give),
        })
    }

    // A process receives the first bytes of a pipe. Where there are none, nothing writes it.
    fn drain(&mut self, pid: u32, at: u64, most: u32, pipe: u32) -> Result<Done, NoMemory>
        requires live { IsLive self.old.guests pid }
        requires room { self.old.events + 1 < 2 ^ 64 }
        requires ready { CanDrain self.old.kernel pipe }
        requires some { 0 < most }
        requires few { most ≤ MOST_TRANSFER }
        ensures carried { IfOk result (λ done. OfProcess self.old pid (λ m v.
            Carried (draining m at most pipe) done m pid v self.new)) }
        ensures short { IfOk result (λ done. IsShort done.extra) }
        ensures err { OnErr result (self.new ≡ self.old) }
    {
        let spare = self.bodies.spare(most as u64)?;
        let give = self.channels.take(pipe, most)?;
        let count = give.bytes.len();
        if count == 0 {
            return Ok(self.answers(pid, 0));
        }
        others_stay_unheld();
        self.bodies
            .receives(pid, at, give.bytes.as_slice(), count as u64, spare);
        self.events += 1;
        Ok(Done {
            result: count as u64,
            extra: Extra::Give(give),
        })
    }

    /// The call `write(descriptor, address, count)`.
    pub(crate) fn write<A: Answers>(&mut self, pid: u32, answers: &mut A) -> Result<Done, CallStop>
        requires live { IsLive self.old.guests pid }
        requires room { self.old.events + 1 < 2 ^ 64 }
        ensures { Tried A.answers answers.old answers.new write_row pid result self.old self.new }
    {
        match self.tables().writing(pid) {
            Writing::Waits => Err(CallStop::NotReady),
            Writing::Answers { answer } => Ok(self.answers(pid, answer)),
            Writing::Prints { at, count } => or_stop(self.print(pid, at, count)),
            Writing::Puts { at, count, place } => or_stop(self.put(pid, at, count, place)),
            Writing::Pours { at, count, pipe } => or_stop(self.pour(pid, at, count, pipe)),
            Writing::Absent => Ok(self.fails(pid, NO_DEVICE, Extra::Absent)),
            Writing::Asks { device, at, count } => {
                or_stop(self.write_device(pid, device, at, count, answers))
            }
        }
    }

    // A process gives the console bytes from an address.
    fn print(&mut self, pid: u32, at: u64, count: u64) -> Result<Done, NoMemory>
        requires live { IsLive self.old.guests pid }
        requires room { self.old.events + 1 < 2 ^ 64 }
        requires reach { IfSome (seen_in self.old.guests pid) (λ v. IsSome (bytes_in v at count)) }
        requires few { count ≤ MOST_TRANSFER }
        ensures carried { IfOk result (λ done. OfProcess self.old pid (λ m v.
            Carried (write_console m at (read v at count)) done m pid v self.new)) }
        ensures short { IfOk result (λ done. IsShort done.extra) }
        ensures err { OnErr result (self.new ≡ self.old) }
    {
        let bytes = copy_of(&self.bodies, pid, at, count)?;
        self.returns(pid, count);
        Ok(Done {
            result: count,
            extra: Extra::Console { bytes },
        })
    }

    // A process gives a file at a place bytes from an address, as many as fit.
    fn put(&mut self, pid: u32, at: u64, count: u64, place: Place) -> Result<Done, NoMemory>
        requires live { IsLive self.old.guests pid }
        requires room { self.old.events + 1 < 2 ^ 64 }
        requires place { IsOpenAt self.old.kernel place }
        requires reach { IfSome (seen_in self.old.guests pid) (λ v. IsSome (bytes_in v at count)) }
        requires few { count ≤ MOST_TRANSFER }
        ensures carried { IfOk result (λ done. OfProcess self.old pid (λ m v.
            Carried (writing_at m at (read v at count) place) done m pid v self.new)) }
        ensures short { IfOk result (λ done. IsShort done.extra) }
        ensures err { OnErr result (self.new ≡ self.old) }
    {
        let room = self.resources.room(place.file, place.position) as u64;
        if room == 0 {
            return Ok(self.answers(pid, error(NO_ROOM)));
        }
        let fits = count.min(room);
        let bytes = first_of(&self.bodies, pid, at, count, fits)?;
        self.resources.write(
            place.number,
            place.file,
            place.position,
            bytes.as_slice(),
            self.events,
        )?;
        self.returns(pid, fits);
        Ok(Done {
            result: fits,
            extra: Extra::Put {
                file: place.file,
                at: place.position,
                bytes,
            },
        })
    }

    // A process gives a pipe bytes from an address, as many as fit. No pipe takes more than the first
    // MOST_PIPE_BYTES of them.
    fn pour(&mut self, pid: u32, at: u64, count: u64, pipe: u32) -> Result<Done, NoMemory>
        requires live { IsLive self.old.guests pid }
        requires room { self.old.events + 1 < 2 ^ 64 }
        requires ready { CanPour self.old.kernel pipe }
        requires reach { IfSome (seen_in self.old.guests pid) (λ v. IsSome (bytes_in v at count)) }
        ensures carried { IfOk result (λ done. OfProcess self.old pid (λ m v.
            Carried (pouring m at (read v at count) pipe) done m pid v self.new)) }
        ensures short { IfOk result (λ done. IsShort done.extra) }
        ensures err { OnErr result (self.new ≡ self.old) }
    {
        let few = count.min(MOST_PIPE_BYTES);
        let bytes = first_of(&self.bodies, pid, at, count, few)?;
        match self.channels.put(pipe, bytes.as_slice(), self.events)? {
            None => Ok(self.answers(pid, error(BROKEN_PIPE))),
            Some(taken) => {
                let answer = taken as u64;
                self.returns(pid, answer);
                Ok(Done {
                    result: answer,
                    extra: Extra::Nothing,
                })
            }
        }
    }
}
