// Pipes and ports together.
ghost use Rattle.std.specs.Prelude.{◌≡◌, ◌≢◌, ◌≤◌, ◌-◌, ◌↔◌, IfOk, IfSome, IsNone, IsSome, IsTrue, OnErr, OnOk, Some, false, length, min, not, option_map, take};
ghost use Rattle.arn_model.specs.Kernel.{closed, without_side};
ghost use Rattle.guest_channels.specs.Channels.{Alters, next_conn, no_channels};
ghost use Rattle.guest_pipes.specs.Answers.{IsThere, holds};
ghost use Rattle.guest_resources.specs.Resources.{IsNoFile};
ghost use Rattle.parts_model.specs.declared.open.Description.TheVariants.{Listener};
ghost use Rattle.parts_model.specs.Channel.{front};
ghost use Rattle.parts_model.specs.Numbered.{nth};
ghost use Rattle.parts_model.specs.Pipes.{can_put, can_take, free_pipes, pipe_made, room, with_change, with_put, with_taken};
ghost use Rattle.parts_model.specs.Ports.{accepted, can_connect, connected, is_full, is_in_use, listened, oldest};
ghost use Rattle.parts_model.specs.Tagged.{given};

use arn_base::{Give, NoMemory};
use guest_pipes::{PipeError, Pipes, Side};
use guest_sockets::Ports;
use parts_model::{Conn, Description};
use std::alloc::Global;
use std::marker::Model;

/// How many pipes are made at most, those that are gone among them.
const MOST_MADE: u32 = 0x8000_0000;

/// Pipes, and ports at which connections of two pipes each wait.
#[derive(Drop)]
pub struct Channels {
    pipes: Pipes,
    ports: Ports,
}

impl Model for Channels {
    ghost use Rattle.guest_channels.specs.Channels.{Channels as ChannelsModel};

    ghost Value = { ChannelsModel };

    ghost view = { λ c. record { pipes = c.pipes; ports = c.ports } };
}

impl Channels {
    pub fn new(alloc: Global) -> Channels
        ensures { result ≡ no_channels }
    {
        Channels {
            pipes: Pipes::new(alloc),
            ports: Ports::new(alloc),
        }
    }

    /// How many more pipes there may be.
    pub fn free_pipes(&self) -> u32
        ensures { result ≡ free_pipes self.now.pipes }
    {
        self.pipes.free()
    }

    /// Makes a pipe with both ends, and answers its number. NoMemory says too that 2^31 pipes were
    /// made.
    pub fn make_pipe(&mut self) -> Result<u32, NoMemory>
        requires room { free_pipes self.old.pipes ≢ 0 }
        ensures made { OnOk result (self.new ≡ record self.old { pipes = pipe_made self.old.pipes }) }
        ensures number { IfOk result (λ pipe. pipe ≡ length self.old.pipes) }
        ensures err { OnErr result (self.new ≡ self.old) }
    {
        if self.pipes.count_made() >= MOST_MADE {
            return Err(NoMemory);
        }
        match self.pipes.make() {
            Ok(pipe) => Ok(pipe),
            Err(_) => Err(NoMemory),
        }
    }

    /// Takes the last pipe back, as if it weren't made.
    pub fn remove_last_pipe(&mut self)
        ensures { self.new ≡ record self.old {
          pipes = take (length self.old.pipes - 1) self.old.pipes;
        } }
    {
        self.pipes.remove_last();
    }

    /// Closes what a description stood for that was no file, and for which no descriptor stands any
    /// more: ends of pipes, or a port with the connections that wait there.
    pub fn close(&mut self, what: Description)
        requires { IsNoFile what }
        ensures { Alters self.old (closed what) self.new }
    {
        match what {
            Description::Reader { pipe } => self.pipes.close_end(pipe, Side::Reader),
            Description::Writer { pipe } => self.pipes.close_end(pipe, Side::Writer),
            Description::Connection { reads, writes } => self.close_side(reads, writes),
            Description::Listener { port } => self.close_port(port),
            _ => {}
        }
    }

    // Closes both ends that one side of a connection has.
    fn close_side(&mut self, reads: u32, writes: u32)
        ensures { Alters self.old (without_side reads writes) self.new }
    {
        self.pipes.close_end(reads, Side::Reader);
        self.pipes.close_end(writes, Side::Writer);
    }

    // Stops to listen at a port. The connections that wait there lose their server.
    fn close_port(&mut self, port: u16)
        ensures { Alters self.old (closed (Listener port)) self.new }
    {
        let waiting = self.ports.close(port);
        for conn in waiting.iter() {
            self.close_side(conn.to_server, conn.to_client);
        }
    }

    /// Whether the pipe of a number is there.
    pub fn is_there(&self, pipe: u32) -> bool
        ensures { IsTrue result ↔ IsThere self.now.pipes pipe }
    {
        self.pipes.is_there(pipe)
    }

    /// Whether a read from a pipe is ready: there is a byte, or nothing writes the pipe.
    pub fn can_take(&self, pipe: u32) -> bool
        requires { IsThere self.now.pipes pipe }
        ensures { Some result ≡ option_map can_take (nth self.now.pipes pipe) }
    {
        self.pipes.can_take(pipe)
    }

    /// Takes the first bytes of a pipe, at most `max`, with their origins as the longest runs.
    pub fn take(&mut self, pipe: u32, max: u32) -> Result<Give, NoMemory>
        requires there { IsThere self.old.pipes pipe }
        requires ready { option_map can_take (nth self.old.pipes pipe) ≢ Some false }
        ensures taken { OnOk result (self.new ≡ record self.old {
          pipes = with_change self.old.pipes pipe (λ p. with_taken p max);
        }) }
        ensures given { IfOk result (λ give.
            Some give ≡ option_map (λ p. given (front p.channel max)) (nth self.old.pipes pipe)) }
        ensures few_bytes { IfOk result (λ give. length give.bytes ≤ max) }
        ensures few_origins { IfOk result (λ give. length give.origins ≤ max) }
        ensures err { OnErr result (self.new ≡ self.old) }
    {
        match self.pipes.take(pipe, max) {
            Ok(give) => Ok(give),
            Err(_) => Err(NoMemory),
        }
    }

    /// Whether a write of some bytes to a pipe is ready: it takes some, or nothing reads the pipe.
    pub fn can_put(&self, pipe: u32) -> bool
        requires { IsThere self.now.pipes pipe }
        ensures { Some result ≡ option_map can_put (nth self.now.pipes pipe) }
    {
        self.pipes.can_put(pipe)
    }

    /// Puts bytes of an event into a pipe, as many as there is room for, and answers how many; none
    /// where nothing reads the pipe. NoMemory says too that 2^64 bytes were put into the pipe.
    pub fn put(&mut self, pipe: u32, bytes: &[u8], event: u64) -> Result<Option<u32>, NoMemory>
        requires there { IsThere self.old.pipes pipe }
        requires ready { option_map can_put (nth self.old.pipes pipe) ≢ Some false }
        ensures broken { IfOk result (λ count. IsNone count ↔
            holds (λ p. IsTrue (not p.has_reader)) (nth self.old.pipes pipe)) }
        ensures put { IfOk result (λ count. IsSome count → self.new ≡ record self.old {
          pipes = with_change self.old.pipes pipe (λ p. with_put p bytes.now event);
        }) }
        ensures count { IfOk result (λ count. IfSome count (λ count. Some count ≡
            option_map (λ p. min (length bytes.now) (room p)) (nth self.old.pipes pipe))) }
        ensures none { IfOk result (λ count. IsNone count → self.new ≡ self.old) }
        ensures err { OnErr result (self.new ≡ self.old) }
    {
        match self.pipes.put(pipe, bytes, event) {
            Ok(count) => Ok(Some(count)),
            Err(PipeError::Broken) => Ok(None),
            Err(_) => Err(NoMemory),
        }
    }

    /// Whether something listens at a port.
    pub fn is_in_use(&self, port: u16) -> bool
        ensures { result ≡ is_in_use self.now.ports port }
    {
        self.ports.is_in_use(port)
    }

    /// Whether as many ports are listened to as may be.
    pub fn has_no_port(&self) -> bool
        ensures { result ≡ is_full self.now.ports }
    {
        self.ports.is_full()
    }

    /// Begins to listen at a port.
    pub fn listen(&mut self, port: u16) -> Result<(), NoMemory>
        requires free { is_in_use self.old.ports port ≡ false }
        requires room { is_full self.old.ports ≡ false }
        ensures listened { OnOk result
            (self.new ≡ record self.old { ports = listened self.old.ports port }) }
        ensures err { OnErr result (self.new ≡ self.old) }
    {
        match self.ports.listen(port) {
            Ok(()) => Ok(()),
            Err(_) => Err(NoMemory),
        }
    }

    /// Whether something listens at a port, and one more connection may wait there. Nothing listens at
    /// numbers that no port has.
    pub fn can_connect(&self, port: u64) -> bool
        ensures { result ≡ can_connect self.now.ports port }
    {
        self.ports.can_connect(port)
    }

    /// The pipes that the next connection has. NoMemory says that there are no numbers for them.
    pub fn next_conn(&self) -> Result<Conn, NoMemory>
        ensures { IfOk result (λ conn. conn ≡ next_conn self.now.pipes) }
    {
        let to_server = self.pipes.count_made();
        if to_server >= MOST_MADE - 1 {
            return Err(NoMemory);
        }
        Ok(Conn {
            to_server,
            to_client: to_server + 1,
        })
    }

    /// Makes the pipes of the next connection, which waits at a port.
    pub fn connect(&mut self, port: u64) -> Result<(), NoMemory>
        requires can { IsTrue (can_connect self.old.ports port) }
        requires room { 2 ≤ free_pipes self.old.pipes }
        ensures connected { OnOk result (self.new ≡ record {
          pipes = pipe_made (pipe_made self.old.pipes);
          ports = connected self.old.ports port (next_conn self.old.pipes);
        }) }
        ensures err { OnErr result (self.new ≡ self.old) }
    {
        let to_server = self.make_pipe()?;
        let to_client = match self.make_pipe() {
            Ok(pipe) => pipe,
            Err(NoMemory) => {
                self.remove_last_pipe();
                return Err(NoMemory);
            }
        };
        let conn = Conn {
            to_server,
            to_client,
        };
        match self.ports.connect(port, conn) {
            Ok(()) => Ok(()),
            Err(_) => {
                self.remove_last_pipe();
                self.remove_last_pipe();
                Err(NoMemory)
            }
        }
    }

    /// The connection that has waited longest at a port.
    pub fn oldest(&self, port: u16) -> Option<Conn>
        ensures { result ≡ oldest self.now.ports port }
    {
        self.ports.oldest(port)
    }

    /// Takes the connection that has waited longest at a port, where one waits.
    pub fn accept(&mut self, port: u16)
        ensures { self.new ≡ record self.old { ports = accepted self.old.ports port } }
    {
        let _ = self.ports.accept(port);
    }
}
