// What calls that open devices come to.
ghost use Rattle.std.specs.Prelude.{◌≡◌, false};
ghost use Rattle.arn_model.specs.ChannelCalls.{device_asked, device_row};
ghost use Rattle.arn_model.specs.FileCalls.{has_no_room};
ghost use Rattle.arn_model.specs.Kernel.{Machine};
ghost use Rattle.guest_bodies.specs.Shown.{IsLive};
ghost use Rattle.guest_requests.specs.Openings.{CanOpen, IsOpening};
ghost use Rattle.guest_requests.specs.Tables.{OfTables};

use crate::arguments::{argument, error};
use crate::tables::Tables;
use parts_model::refusals::NO_DESCRIPTOR_ROOM;

/// What a call that opens a device comes to.
#[derive(Clone, Copy)]
pub enum Opening {
    /// It ends with this result and opens nothing.
    Answers { answer: u64 },
    /// There is no such device: it was unplugged, or no device has such a number.
    Absent,
    /// It asks whether a device is there, and opens that.
    Asks { device: u32 },
}

impl<'a> Tables<'a> {
    /// What the call of a process that opens a device comes to.
    pub fn opening(&self, pid: u32) -> Opening
        requires { IsLive self.now.guests pid }
        ensures opening { OfTables self.now pid (λ m v. IsOpening result m (device_row m pid v)) }
        ensures room { CanOpen result self.now.kernel pid }
    {
        if self.has_no_room(pid) {
            return Opening::Answers {
                answer: error(NO_DESCRIPTOR_ROOM),
            };
        }
        self.opening_of(pid, argument(self.bodies, pid, 0))
    }

    // What a call that opens the device of a number comes to, where there is a free descriptor.
    fn opening_of(&self, pid: u32, number: u64) -> Opening
        requires { has_no_room self.now.kernel pid ≡ false }
        ensures opening { (m : Machine) → self.now.kernel ≡ m.kernel →
            IsOpening result m (device_asked m number) }
        ensures room { CanOpen result self.now.kernel pid }
    {
        if number > u32::MAX as u64 || self.was_unplugged(number as u32) {
            return Opening::Absent;
        }
        Opening::Asks {
            device: number as u32,
        }
    }
}
