// What reads come to.
ghost use Rattle.std.specs.Prelude.{◌≡◌, ◌<◌, ◌≤◌};
ghost use Rattle.parts_model.specs.declared.limits.TheConstants.{MOST_TRANSFER};
ghost use Rattle.arn_model.specs.Doing.{Reads};
ghost use Rattle.arn_model.specs.Kernel.{Machine};
ghost use Rattle.arn_model.specs.TransferCalls.{read_row, unless_unplugged};
ghost use Rattle.guest_bodies.specs.Shown.{IsLive};
ghost use Rattle.guest_requests.specs.Tables.{OfTables};
ghost use Rattle.guest_requests.specs.Transfers.{CanTake, IsOpenAt, IsReading, console_read, draining, file_read, from_device, number_read, pipe_read};

use crate::arguments::{argument, error};
use crate::ranges::moving;
use crate::tables::Tables;
use parts_model::Description;
use parts_model::refusals::BAD_DESCRIPTOR;

/// A place in a file, and the description whose place it is.
#[derive(Clone, Copy)]
pub struct Place {
    pub number: u32,
    pub file: u32,
    pub position: u32,
}

/// What a read comes to.
#[derive(Clone, Copy)]
pub enum Reading {
    /// It isn't ready.
    Waits,
    /// It ends with this result and moves no bytes.
    Answers { answer: u64 },
    /// It receives so many bytes of the console's queue at an address.
    Takes { at: u64, count: usize },
    /// It receives at an address what stands behind a place in a file, at most so many bytes.
    Reads { at: u64, most: u32, place: Place },
    /// It receives at an address the first bytes of a pipe, at most so many.
    Drains { at: u64, most: u32, pipe: u32 },
    /// There is no such device, since it was unplugged.
    Absent,
    /// It asks a device, and receives at an address what that gives, at most so many bytes.
    Asks { device: u32, at: u64, most: u64 },
}

impl<'a> Tables<'a> {
    /// What the read at which a process stands comes to.
    pub fn reading(&self, pid: u32) -> Reading
        requires { IsLive self.now.guests pid }
        ensures reading { OfTables self.now pid (λ m v. IsReading result m (read_row m pid v)) }
        ensures within { CanTake result self.now.kernel }
    {
        match self.description_of(pid, argument(self.bodies, pid, 0)) {
            Some(number) => self.reading_of(pid, number),
            None => Reading::Answers {
                answer: error(BAD_DESCRIPTOR),
            },
        }
    }

    // What a read from a description comes to.
    fn reading_of(&self, pid: u32, number: u32) -> Reading
        requires { IsLive self.now.guests pid }
        ensures reading { OfTables self.now pid (λ m v.
            IsReading result m (number_read m v number)) }
        ensures within { CanTake result self.now.kernel }
    {
        match self.what_is(number) {
            Some(Description::Console) => self.reading_console(pid),
            Some(Description::File { file, position }) => self.reading_file(
                pid,
                Place {
                    number,
                    file,
                    position,
                },
            ),
            Some(Description::Reader { pipe }) => self.reading_pipe(pid, pipe),
            Some(Description::Connection { reads, writes: _ }) => self.reading_pipe(pid, reads),
            Some(Description::Device { device }) => self.reading_device(pid, device),
            _ => Reading::Answers {
                answer: error(BAD_DESCRIPTOR),
            },
        }
    }

    // What a read from a file comes to.
    fn reading_file(&self, pid: u32, place: Place) -> Reading
        requires live { IsLive self.now.guests pid }
        requires place { IsOpenAt self.now.kernel place }
        ensures reading { OfTables self.now pid (λ m v. IsReading result m (file_read m v place)) }
        ensures within { CanTake result self.now.kernel }
    {
        let at = argument(self.bodies, pid, 1);
        match moving(self.bodies, pid, at, argument(self.bodies, pid, 2)) {
            Err(answer) => Reading::Answers { answer },
            Ok(most) => Reading::Reads {
                at,
                most: most as u32,
                place,
            },
        }
    }

    // What a read from the console comes to.
    fn reading_console(&self, pid: u32) -> Reading
        requires { IsLive self.now.guests pid }
        ensures reading { OfTables self.now pid (λ m v. IsReading result m (console_read m v)) }
        ensures within { CanTake result self.now.kernel }
    {
        let at = argument(self.bodies, pid, 1);
        match moving(self.bodies, pid, at, argument(self.bodies, pid, 2)) {
            Err(answer) => Reading::Answers { answer },
            Ok(most) => match self.queued() {
                0 => Reading::Waits,
                queued => Reading::Takes {
                    at,
                    count: queued.min(most as usize),
                },
            },
        }
    }

    // What a read from a device comes to.
    fn reading_device(&self, pid: u32, device: u32) -> Reading
        requires { IsLive self.now.guests pid }
        ensures reading { OfTables self.now pid (λ m v. IsReading result m (from_device m v device)) }
        ensures within { CanTake result self.now.kernel }
    {
        let at = argument(self.bodies, pid, 1);
        match moving(self.bodies, pid, at, argument(self.bodies, pid, 2)) {
            Err(answer) => Reading::Answers { answer },
            Ok(most) => self.asking(device, at, most),
        }
    }

    // What a read of at most so many bytes from a device comes to.
    fn asking(&self, device: u32, at: u64, most: u64) -> Reading
        requires { most ≤ MOST_TRANSFER }
        ensures reading { (m : Machine) → self.now.kernel ≡ m.kernel →
            IsReading result m (unless_unplugged m device (Reads device at most)) }
        ensures within { CanTake result self.now.kernel }
    {
        if self.was_unplugged(device) {
            return Reading::Absent;
        }
        Reading::Asks { device, at, most }
    }

    // What a read from a pipe comes to.
    fn reading_pipe(&self, pid: u32, pipe: u32) -> Reading
        requires { IsLive self.now.guests pid }
        ensures reading { OfTables self.now pid (λ m v. IsReading result m (pipe_read m v pipe)) }
        ensures within { CanTake result self.now.kernel }
    {
        let at = argument(self.bodies, pid, 1);
        match moving(self.bodies, pid, at, argument(self.bodies, pid, 2)) {
            Err(answer) => Reading::Answers { answer },
            Ok(most) => self.draining(at, most as u32, pipe),
        }
    }

    // What a read of at most so many bytes from a pipe comes to.
    fn draining(&self, at: u64, most: u32, pipe: u32) -> Reading
        requires some { 0 < most }
        requires few { most ≤ MOST_TRANSFER }
        ensures reading { (m : Machine) → self.now.kernel ≡ m.kernel →
            IsReading result m (draining m at most pipe) }
        ensures within { CanTake result self.now.kernel }
    {
        if !self.channels.is_there(pipe) {
            return Reading::Answers {
                answer: error(BAD_DESCRIPTOR),
            };
        }
        if !self.channels.can_take(pipe) {
            return Reading::Waits;
        }
        Reading::Drains { at, most, pipe }
    }
}
