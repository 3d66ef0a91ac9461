// Ports by number.
ghost use Rattle.std.specs.Prelude.{◌≡◌, ◌==◌, ◌↔◌, [], IfOk, IfErr, IsNone, IsTrue, IsFalse, OnOk, OnErr, Err, Some, false, is_some};
ghost use Rattle.std.specs.List.{position};
ghost use Rattle.parts_model.specs.Ports.{accepted, can_connect, connected, freed, is_full, is_in_use, listened, oldest};
ghost use Rattle.guest_sockets.specs.Answers.{IsConnectError, IsListenError, waiting_at};

use crate::PortError;
use crate::port::Port;
use parts_model::Conn;
use parts_model::limits::MOST_PORTS;
use std::alloc::Global;
use std::marker::Model;

const MOST: usize = MOST_PORTS as usize;

/// The ports that are listened to, in the order in which this began.
#[derive(Drop)]
pub struct Ports {
    all: Vec<Port>,
}

impl Model for Ports {
    ghost use Rattle.parts_model.specs.Ports.{Ports as PortsModel};
    ghost use Rattle.guest_sockets.specs.Sound.{AreApart};

    ghost Value = { PortsModel };

    ghost view = { λ s. s.all.items };

    ghost invariant = { λ s. AreApart s.all.items };
}

// Where the port of a number stands. There are numbers that no port has.
fn place_of(all: &[Port], number: u64) -> Option<usize>
    ensures { result ≡ position (λ port. port.number == number) all.now }
{
    all.iter().position(|port| port.number() as u64 == number)
}

impl Ports {
    pub fn new(alloc: Global) -> Ports
        ensures { result ≡ [] }
    {
        Ports {
            all: Vec::new(alloc),
        }
    }

    /// Whether something listens at a port.
    pub fn is_in_use(&self, port: u16) -> bool
        ensures { result ≡ is_in_use self.now port }
    {
        place_of(&self.all, port as u64).is_some()
    }

    /// Whether as many ports are listened to as may be.
    pub fn is_full(&self) -> bool
        ensures { result ≡ is_full self.now }
    {
        self.all.len() >= MOST
    }

    /// Begins to listen at a port.
    pub fn listen(&mut self, port: u16) -> Result<(), PortError>
        ensures listened { OnOk result (self.new ≡ listened self.old port) }
        ensures in_use { (result ≡ Err PortError.InUse) ↔ IsTrue (is_in_use self.old port) }
        ensures too_many { (result ≡ Err PortError.TooMany) ↔
            ((is_in_use self.old port ≡ false) × IsTrue (is_full self.old)) }
        ensures answers { IfErr result IsListenError }
        ensures err { OnErr result (self.new ≡ self.old) }
    {
        if self.is_in_use(port) {
            return Err(PortError::InUse);
        }
        if self.is_full() {
            return Err(PortError::TooMany);
        }
        self.all.reserve(1)?;
        let port = Port::new(*self.all.allocator(), port);
        self.all.push_reserved(port);
        Ok(())
    }

    /// Whether one more connection may wait at a port. Nothing listens at numbers that no port has.
    pub fn can_connect(&self, port: u64) -> bool
        ensures { result ≡ can_connect self.now port }
    {
        match place_of(&self.all, port) {
            Some(place) => self.all[place].has_place(),
            None => false,
        }
    }

    /// One more connection waits at a port.
    pub fn connect(&mut self, port: u64, conn: Conn) -> Result<(), PortError>
        ensures waits { OnOk result (self.new ≡ connected self.old port conn) }
        ensures refused { (result ≡ Err PortError.Refused) ↔ IsFalse (can_connect self.old port) }
        ensures answers { IfErr result IsConnectError }
        ensures err { OnErr result (self.new ≡ self.old) }
    {
        match place_of(&self.all, port) {
            Some(place) => self.all[place].connect(conn),
            None => Err(PortError::Refused),
        }
    }

    /// The connection that has waited longest at a port.
    pub fn oldest(&self, port: u16) -> Option<Conn>
        ensures { result ≡ oldest self.now port }
    {
        match place_of(&self.all, port as u64) {
            Some(place) => self.all[place].oldest(),
            None => None,
        }
    }

    /// Whether a connection waits at a port.
    pub fn can_accept(&self, port: u16) -> bool
        ensures { result ≡ is_some (oldest self.now port) }
    {
        self.oldest(port).is_some()
    }

    /// Takes the connection that has waited longest at a port.
    pub fn accept(&mut self, port: u16) -> Result<Conn, PortError>
        ensures accepted { self.new ≡ accepted self.old port }
        ensures oldest { IfOk result (λ conn. oldest self.old port ≡ Some conn) }
        ensures not_ready { (result ≡ Err PortError.NotReady) ↔ IsNone (oldest self.old port) }
        ensures answers { IfErr result (λ error. error ≡ PortError.NotReady) }
        ensures err { OnErr result (self.new ≡ self.old) }
    {
        let place = match place_of(&self.all, port as u64) {
            Some(place) => place,
            None => return Err(PortError::NotReady),
        };
        match self.all[place].accept() {
            Some(conn) => Ok(conn),
            None => Err(PortError::NotReady),
        }
    }

    /// Stops to listen at a port, and hands back the connections that wait there, the oldest first.
    pub fn close(&mut self, port: u16) -> Vec<Conn>
        ensures freed { self.new ≡ freed self.old port }
        ensures waiting { result.items ≡ waiting_at self.old port }
    {
        match place_of(&self.all, port as u64) {
            Some(place) => self.all.remove(place).into_waiting(),
            None => Vec::new(*self.all.allocator()),
        }
    }
}
