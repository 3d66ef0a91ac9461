// The calls that make channels: pipe, listen, connect and accept.
ghost use Rattle.std.specs.Prelude.{◌≡◌, ◌≢◌, ◌+◌, ◌*◌, ◌<◌, ◌≤◌, ◌^◌, ◌↔◌, false, length, IfOk, IsErrOf, IsTrue, OnErr, OnOk, Some};
ghost use Rattle.parts_model.specs.Pipes.{free_pipes};
ghost use Rattle.parts_model.specs.Ports.{can_connect, is_full, is_in_use};
ghost use Rattle.acts_model.specs.Acts.{Returns};
ghost use Rattle.arn_model.specs.ChannelCalls.{accept_conn, accept_row, connect_row, listen_row, new_conn, pipe_row};
ghost use Rattle.arn_model.specs.FileCalls.{has_no_room};
ghost use Rattle.arn_model.specs.Kernel.{next_descriptor, placed, room_for};
ghost use Rattle.arn_model.specs.Row.{is_waiting};
ghost use Rattle.guest_bodies.specs.Shown.{IsLive};
ghost use Rattle.guest_calls.specs.Acted.{Acted, Carried};
ghost use Rattle.guest_calls.specs.Channels.{listening, with_client, with_ends, with_listener, with_server};
ghost use Rattle.guest_calls.specs.Fits.{IsShort};
ghost use Rattle.guest_calls.specs.State.{OfProcess};

use crate::kernel::Kernel;
use crate::outcomes::{CallStop, Done};
use arn_base::{Extra, NoMemory};
use guest_requests::{Accepting, error};
use parts_model::limits::GREATEST_PORT;
use parts_model::refusals::{
    BAD_ARGUMENT, CONNECTION_REFUSED, NO_DESCRIPTOR_ROOM, NO_ROOM, PORT_IN_USE,
};
use parts_model::{Conn, Description};

impl Kernel {
    /// The lowest free descriptor of a process stands for a description, and is the call's result.
    pub(crate) fn answers_one(&mut self, pid: u32, description: u32) -> Done
        requires live { IsLive self.old.guests pid }
        requires room { self.old.events + 1 < 2 ^ 64 }
        requires free { has_no_room self.old.kernel pid ≡ false }
        ensures acted { Acted pid (Returns result.result)
            (placed pid description self.old.kernel) self.old self.new }
        ensures result { result.result ≡ next_descriptor self.old.kernel pid }
        ensures nothing { result.extra ≡ Extra.Nothing }
    {
        let descriptor = self.place(pid, description);
        self.returns(pid, descriptor);
        Done {
            result: descriptor,
            extra: Extra::Nothing,
        }
    }

    // The lowest free descriptors of a process stand for a description and the next one, and both are
    // the call's result.
    fn answers_two(&mut self, pid: u32, first: u32) -> Done
        requires live { IsLive self.old.guests pid }
        requires room { self.old.events + 1 < 2 ^ 64 }
        requires free { 2 ≤ room_for self.old.kernel pid }
        requires few { first + 1 < 2 ^ 32 }
        ensures acted { Acted pid (Returns result.result)
            (placed pid (first + 1) (placed pid first self.old.kernel)) self.old self.new }
        ensures result { result.result ≡ next_descriptor self.old.kernel pid +
            256 * next_descriptor (placed pid first self.old.kernel) pid }
        ensures nothing { result.extra ≡ Extra.Nothing }
    {
        let one = self.place(pid, first);
        let other = self.place(pid, first + 1);
        let answer = one + 256 * other;
        self.returns(pid, answer);
        Done {
            result: answer,
            extra: Extra::Nothing,
        }
    }

    /// The call `pipe()`.
    pub(crate) fn pipe(&mut self, pid: u32) -> Result<Done, NoMemory>
        requires live { IsLive self.old.guests pid }
        requires room { self.old.events + 1 < 2 ^ 64 }
        ensures carried { IfOk result (λ done. OfProcess self.old pid (λ m v.
            Carried (pipe_row m pid v) done m pid v self.new)) }
        ensures nothing { IfOk result (λ done. done.extra ≡ Extra.Nothing) }
        ensures err { OnErr result (self.new ≡ self.old) }
    {
        if self.tables().room_for(pid) < 2 {
            return Ok(self.answers(pid, error(NO_DESCRIPTOR_ROOM)));
        }
        if self.channels.free_pipes() == 0 {
            return Ok(self.answers(pid, error(NO_ROOM)));
        }
        let first = self.open_pipe(pid)?;
        Ok(self.answers_two(pid, first))
    }

    // Makes a pipe and opens both its ends. Answers the description of the read end, before that of the
    // write end.
    fn open_pipe(&mut self, pid: u32) -> Result<u32, NoMemory>
        requires live { IsLive self.old.guests pid }
        requires room { free_pipes self.old.kernel.pipes ≢ 0 }
        ensures opened { OnOk result
            (self.new ≡ record self.old { kernel = with_ends self.old.kernel }) }
        ensures number { IfOk result (λ number. number ≡ length self.old.kernel.descriptions) }
        ensures few { IfOk result (λ number. number + 1 < 2 ^ 32) }
        ensures err { OnErr result (self.new ≡ self.old) }
    {
        let pipe = self.channels.make_pipe()?;
        let reader = Description::Reader { pipe };
        let writer = Description::Writer { pipe };
        match self.resources.open_two(reader, writer) {
            Ok(number) => Ok(number),
            Err(NoMemory) => {
                self.channels.remove_last_pipe();
                Err(NoMemory)
            }
        }
    }

    /// The call `listen(port)`.
    pub(crate) fn listen(&mut self, pid: u32) -> Result<Done, NoMemory>
        requires live { IsLive self.old.guests pid }
        requires room { self.old.events + 1 < 2 ^ 64 }
        ensures carried { IfOk result (λ done. OfProcess self.old pid (λ m v.
            Carried (listen_row m pid v) done m pid v self.new)) }
        ensures nothing { IfOk result (λ done. done.extra ≡ Extra.Nothing) }
        ensures err { OnErr result (self.new ≡ self.old) }
    {
        let port = self.argument(pid, 0);
        if port > GREATEST_PORT {
            return Ok(self.answers(pid, error(BAD_ARGUMENT)));
        }
        self.listen_at(pid, port as u16)
    }

    // Listens at a port, unless that is refused.
    fn listen_at(&mut self, pid: u32, port: u16) -> Result<Done, NoMemory>
        requires live { IsLive self.old.guests pid }
        requires room { self.old.events + 1 < 2 ^ 64 }
        ensures carried { IfOk result (λ done. OfProcess self.old pid (λ m v.
            Carried (listening m pid port) done m pid v self.new)) }
        ensures nothing { IfOk result (λ done. done.extra ≡ Extra.Nothing) }
        ensures err { OnErr result (self.new ≡ self.old) }
    {
        if self.channels.is_in_use(port) {
            return Ok(self.answers(pid, error(PORT_IN_USE)));
        }
        if self.has_no_room(pid) {
            return Ok(self.answers(pid, error(NO_DESCRIPTOR_ROOM)));
        }
        if self.channels.has_no_port() {
            return Ok(self.answers(pid, error(NO_ROOM)));
        }
        let number = self.open_listener(pid, port)?;
        Ok(self.answers_one(pid, number))
    }

    // Begins to listen at a port, and answers the description of what listens there.
    fn open_listener(&mut self, pid: u32, port: u16) -> Result<u32, NoMemory>
        requires live { IsLive self.old.guests pid }
        requires free { is_in_use self.old.kernel.ports port ≡ false }
        requires room { is_full self.old.kernel.ports ≡ false }
        ensures opened { OnOk result
            (self.new ≡ record self.old { kernel = with_listener port self.old.kernel }) }
        ensures number { IfOk result (λ number. number ≡ length self.old.kernel.descriptions) }
        ensures err { OnErr result (self.new ≡ self.old) }
    {
        let number = self.resources.open_channel(Description::Listener { port })?;
        match self.channels.listen(port) {
            Ok(()) => Ok(number),
            Err(NoMemory) => {
                self.resources.remove_last();
                Err(NoMemory)
            }
        }
    }

    /// The call `connect(port)`.
    pub(crate) fn connect(&mut self, pid: u32) -> Result<Done, NoMemory>
        requires live { IsLive self.old.guests pid }
        requires room { self.old.events + 1 < 2 ^ 64 }
        ensures carried { IfOk result (λ done. OfProcess self.old pid (λ m v.
            Carried (connect_row m pid v) done m pid v self.new)) }
        ensures nothing { IfOk result (λ done. done.extra ≡ Extra.Nothing) }
        ensures err { OnErr result (self.new ≡ self.old) }
    {
        let port = self.argument(pid, 0);
        if !self.channels.can_connect(port) {
            return Ok(self.answers(pid, error(CONNECTION_REFUSED)));
        }
        if self.has_no_room(pid) {
            return Ok(self.answers(pid, error(NO_DESCRIPTOR_ROOM)));
        }
        if self.channels.free_pipes() < 2 {
            return Ok(self.answers(pid, error(NO_ROOM)));
        }
        let number = self.open_client(pid, port)?;
        Ok(self.answers_one(pid, number))
    }

    // Makes a connection that waits at a port, and answers the description of the client's side.
    fn open_client(&mut self, pid: u32, port: u64) -> Result<u32, NoMemory>
        requires live { IsLive self.old.guests pid }
        requires can { IsTrue (can_connect self.old.kernel.ports port) }
        requires room { 2 ≤ free_pipes self.old.kernel.pipes }
        ensures opened { OnOk result (self.new ≡ record self.old {
          kernel = with_client port (new_conn self.old.kernel) self.old.kernel;
        }) }
        ensures number { IfOk result (λ number. number ≡ length self.old.kernel.descriptions) }
        ensures err { OnErr result (self.new ≡ self.old) }
    {
        let conn = self.channels.next_conn()?;
        let number = self.resources.open_channel(Description::Connection {
            reads: conn.to_client,
            writes: conn.to_server,
        })?;
        match self.channels.connect(port) {
            Ok(()) => Ok(number),
            Err(NoMemory) => {
                self.resources.remove_last();
                Err(NoMemory)
            }
        }
    }

    /// The call `accept(descriptor)`.
    pub(crate) fn accept(&mut self, pid: u32) -> Result<Done, CallStop>
        requires live { IsLive self.old.guests pid }
        requires room { self.old.events + 1 < 2 ^ 64 }
        ensures carried { IfOk result (λ done. OfProcess self.old pid (λ m v.
            Carried (accept_row m pid v) done m pid v self.new)) }
        ensures short { IfOk result (λ done. IsShort done.extra) }
        ensures waits { OfProcess self.old pid (λ m v.
            IsErrOf result CallStop.NotReady ↔ IsTrue (is_waiting (accept_row m pid v))) }
        ensures err { OnErr result (self.new ≡ self.old) }
    {
        match self.tables().accepting(pid) {
            Accepting::Waits => Err(CallStop::NotReady),
            Accepting::Answers { answer } => Ok(self.answers(pid, answer)),
            Accepting::Accepts { port, conn } => Ok(self.take_up(pid, port, conn)?),
        }
    }

    // A process takes up a connection that waits at a port.
    fn take_up(&mut self, pid: u32, port: u16, conn: Conn) -> Result<Done, NoMemory>
        requires live { IsLive self.old.guests pid }
        requires room { self.old.events + 1 < 2 ^ 64 }
        requires free { has_no_room self.old.kernel pid ≡ false }
        ensures carried { IfOk result (λ done. OfProcess self.old pid (λ m v.
            Carried (accept_conn m pid port (Some conn)) done m pid v self.new)) }
        ensures nothing { IfOk result (λ done. done.extra ≡ Extra.Nothing) }
        ensures err { OnErr result (self.new ≡ self.old) }
    {
        let number = self.open_server(pid, port, conn)?;
        Ok(self.answers_one(pid, number))
    }

    // A connection waits at a port no more. Answers the description of the server's side.
    fn open_server(&mut self, pid: u32, port: u16, conn: Conn) -> Result<u32, NoMemory>
        requires { IsLive self.old.guests pid }
        ensures opened { OnOk result
            (self.new ≡ record self.old { kernel = with_server port conn self.old.kernel }) }
        ensures number { IfOk result (λ number. number ≡ length self.old.kernel.descriptions) }
        ensures err { OnErr result (self.new ≡ self.old) }
    {
        let number = self.resources.open_channel(Description::Connection {
            reads: conn.to_server,
            writes: conn.to_client,
        })?;
        self.channels.accept(port);
        Ok(number)
    }
}
