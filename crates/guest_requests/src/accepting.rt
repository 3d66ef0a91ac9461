// What accepts come to.
ghost use Rattle.std.specs.Prelude.{Some};
ghost use Rattle.parts_model.specs.declared.open.Description.TheVariants.{Listener};
ghost use Rattle.arn_model.specs.ChannelCalls.{accept_at, accept_row};
ghost use Rattle.guest_bodies.specs.Shown.{IsLive};
ghost use Rattle.guest_requests.specs.Accepts.{CanAccept, IsAccept};
ghost use Rattle.guest_requests.specs.Tables.{OfTables};

use crate::arguments::{argument, error};
use crate::tables::Tables;
use parts_model::refusals::{BAD_DESCRIPTOR, NO_DESCRIPTOR_ROOM};
use parts_model::{Conn, Description};

/// What an accept comes to.
#[derive(Clone, Copy)]
pub enum Accepting {
    /// It isn't ready.
    Waits,
    /// It ends with this result and opens nothing.
    Answers { answer: u64 },
    /// It opens the server's side of a connection that waits at a port.
    Accepts { port: u16, conn: Conn },
}

impl<'a> Tables<'a> {
    /// What the accept at which a process stands comes to.
    pub fn accepting(&self, pid: u32) -> Accepting
        requires { IsLive self.now.guests pid }
        ensures accepting { OfTables self.now pid (λ m v. IsAccept result m pid (accept_row m pid v)) }
        ensures ready { CanAccept result self.now.kernel pid }
    {
        match self.opened(pid, argument(self.bodies, pid, 0)) {
            Some(Description::Listener { port }) => self.accepting_at(pid, port),
            _ => Accepting::Answers {
                answer: error(BAD_DESCRIPTOR),
            },
        }
    }

    // What an accept at a port comes to.
    fn accepting_at(&self, pid: u32, port: u16) -> Accepting
        requires { IsLive self.now.guests pid }
        ensures accepting { OfTables self.now pid (λ m v.
            IsAccept result m pid (accept_at m pid (Some (Listener port)))) }
        ensures ready { CanAccept result self.now.kernel pid }
    {
        if self.has_no_room(pid) {
            return Accepting::Answers {
                answer: error(NO_DESCRIPTOR_ROOM),
            };
        }
        match self.channels.oldest(port) {
            None => Accepting::Waits,
            Some(conn) => Accepting::Accepts { port, conn },
        }
    }
}
