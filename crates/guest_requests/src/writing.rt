// What writes come to.
ghost use Rattle.std.specs.Prelude.{◌≡◌, ◌≤◌, IfSome, IsSome};
ghost use Rattle.parts_model.specs.declared.limits.TheConstants.{MOST_TRANSFER};
ghost use Rattle.acts_model.specs.Bodies.{View};
ghost use Rattle.acts_model.specs.Views.{bytes_in, read};
ghost use Rattle.arn_model.specs.Doing.{Writes};
ghost use Rattle.arn_model.specs.Kernel.{Machine};
ghost use Rattle.arn_model.specs.TransferCalls.{unless_unplugged, write_row};
ghost use Rattle.guest_bodies.specs.Shown.{IsLive, seen_in};
ghost use Rattle.guest_requests.specs.Tables.{OfTables};
ghost use Rattle.guest_requests.specs.Transfers.{CanPrint, IsOpenAt, IsWriting, console_write, file_write, number_write, pipe_write, pouring, to_device};

use crate::arguments::{argument, error};
use crate::ranges::moving;
use crate::reading::Place;
use crate::tables::Tables;
use parts_model::Description;
use parts_model::refusals::BAD_DESCRIPTOR;

/// What a write comes to.
#[derive(Clone, Copy)]
pub enum Writing {
    /// It isn't ready.
    Waits,
    /// It ends with this result and moves no bytes.
    Answers { answer: u64 },
    /// It gives the console so many bytes from an address.
    Prints { at: u64, count: u64 },
    /// It gives a file at a place so many bytes from an address, or as many of them as fit.
    Puts { at: u64, count: u64, place: Place },
    /// It gives a pipe so many bytes from an address, or as many of them as fit. Where nothing reads
    /// the pipe, it fails.
    Pours { at: u64, count: u64, pipe: u32 },
    /// There is no such device, since it was unplugged.
    Absent,
    /// It hands a device so many bytes from an address.
    Asks { device: u32, at: u64, count: u64 },
}

impl<'a> Tables<'a> {
    /// What the write at which a process stands comes to.
    pub fn writing(&self, pid: u32) -> Writing
        requires { IsLive self.now.guests pid }
        ensures writing { OfTables self.now pid (λ m v. IsWriting result m v (write_row m pid v)) }
        ensures within { IfSome (seen_in self.now.guests pid) (CanPrint result self.now.kernel) }
    {
        match self.description_of(pid, argument(self.bodies, pid, 0)) {
            Some(number) => self.writing_to(pid, number),
            None => Writing::Answers {
                answer: error(BAD_DESCRIPTOR),
            },
        }
    }

    // What a write to a description comes to.
    fn writing_to(&self, pid: u32, number: u32) -> Writing
        requires { IsLive self.now.guests pid }
        ensures writing { OfTables self.now pid (λ m v.
            IsWriting result m v (number_write m v number)) }
        ensures within { IfSome (seen_in self.now.guests pid) (CanPrint result self.now.kernel) }
    {
        match self.what_is(number) {
            Some(Description::Console) => self.writing_console(pid),
            Some(Description::File { file, position }) => self.writing_file(
                pid,
                Place {
                    number,
                    file,
                    position,
                },
            ),
            Some(Description::Writer { pipe }) => self.writing_pipe(pid, pipe),
            Some(Description::Connection { reads: _, writes }) => self.writing_pipe(pid, writes),
            Some(Description::Device { device }) => self.writing_device(pid, device),
            _ => Writing::Answers {
                answer: error(BAD_DESCRIPTOR),
            },
        }
    }

    // What a write to a file comes to.
    fn writing_file(&self, pid: u32, place: Place) -> Writing
        requires live { IsLive self.now.guests pid }
        requires place { IsOpenAt self.now.kernel place }
        ensures writing { OfTables self.now pid (λ m v. IsWriting result m v (file_write m v place)) }
        ensures within { IfSome (seen_in self.now.guests pid) (CanPrint result self.now.kernel) }
    {
        let at = argument(self.bodies, pid, 1);
        match moving(self.bodies, pid, at, argument(self.bodies, pid, 2)) {
            Err(answer) => Writing::Answers { answer },
            Ok(count) => Writing::Puts { at, count, place },
        }
    }

    // What a write to the console comes to.
    fn writing_console(&self, pid: u32) -> Writing
        requires { IsLive self.now.guests pid }
        ensures writing { OfTables self.now pid (λ m v. IsWriting result m v (console_write m v)) }
        ensures within { IfSome (seen_in self.now.guests pid) (CanPrint result self.now.kernel) }
    {
        let at = argument(self.bodies, pid, 1);
        match moving(self.bodies, pid, at, argument(self.bodies, pid, 2)) {
            Err(answer) => Writing::Answers { answer },
            Ok(count) => Writing::Prints { at, count },
        }
    }

    // What a write to a device comes to.
    fn writing_device(&self, pid: u32, device: u32) -> Writing
        requires { IsLive self.now.guests pid }
        ensures writing { OfTables self.now pid (λ m v. IsWriting result m v (to_device m v device)) }
        ensures within { IfSome (seen_in self.now.guests pid) (CanPrint result self.now.kernel) }
    {
        let at = argument(self.bodies, pid, 1);
        match moving(self.bodies, pid, at, argument(self.bodies, pid, 2)) {
            Err(answer) => Writing::Answers { answer },
            Ok(count) => self.handing(pid, device, at, count),
        }
    }

    // What a write of so many bytes to a device comes to.
    fn handing(&self, pid: u32, device: u32, at: u64, count: u64) -> Writing
        requires reach { IfSome (seen_in self.now.guests pid) (λ v. IsSome (bytes_in v at count)) }
        requires few { count ≤ MOST_TRANSFER }
        ensures writing { (m : Machine) → (v : View) → self.now.kernel ≡ m.kernel →
            IsWriting result m v (unless_unplugged m device (Writes device at count)) }
        ensures within { IfSome (seen_in self.now.guests pid) (CanPrint result self.now.kernel) }
    {
        if self.was_unplugged(device) {
            return Writing::Absent;
        }
        Writing::Asks { device, at, count }
    }

    // What a write to a pipe comes to.
    fn writing_pipe(&self, pid: u32, pipe: u32) -> Writing
        requires { IsLive self.now.guests pid }
        ensures writing { OfTables self.now pid (λ m v. IsWriting result m v (pipe_write m v pipe)) }
        ensures within { IfSome (seen_in self.now.guests pid) (CanPrint result self.now.kernel) }
    {
        let at = argument(self.bodies, pid, 1);
        match moving(self.bodies, pid, at, argument(self.bodies, pid, 2)) {
            Err(answer) => Writing::Answers { answer },
            Ok(count) => self.pouring(pid, at, count, pipe),
        }
    }

    // What a write of so many bytes to a pipe comes to.
    fn pouring(&self, pid: u32, at: u64, count: u64, pipe: u32) -> Writing
        requires reach { IfSome (seen_in self.now.guests pid) (λ v. IsSome (bytes_in v at count)) }
        requires few { count ≤ MOST_TRANSFER }
        ensures writing { (m : Machine) → (v : View) → self.now.kernel ≡ m.kernel →
            IsWriting result m v (pouring m at (read v at count) pipe) }
        ensures within { IfSome (seen_in self.now.guests pid) (CanPrint result self.now.kernel) }
    {
        if !self.channels.is_there(pipe) {
            return Writing::Answers {
                answer: error(BAD_DESCRIPTOR),
            };
        }
        if !self.channels.can_put(pipe) {
            return Writing::Waits;
        }
        Writing::Pours { at, count, pipe }
    }
}
