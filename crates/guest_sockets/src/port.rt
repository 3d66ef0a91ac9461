// One port, and the connections that wait at it.
ghost use Rattle.std.specs.Prelude.{◌≡◌, ◌↔◌, ◌++◌, ◌∷◌, [], IfErr, OnOk, OnErr, Err, IsFalse, drop, slice_get};
ghost use Rattle.parts_model.specs.Ports.{has_place};
ghost use Rattle.guest_sockets.specs.Answers.{IsConnectError};

use crate::PortError;
use parts_model::Conn;
use parts_model::limits::MOST_WAITING;
use std::alloc::Global;
use std::marker::Model;

const MOST: usize = MOST_WAITING as usize;

/// A port that is listened to, and the connections that wait at it, the oldest first.
#[derive(Drop)]
pub struct Port {
    number: u16,
    waiting: Vec<Conn>,
}

impl Model for Port {
    ghost use Rattle.parts_model.specs.Ports.{Port as PortModel};

    ghost Value = { PortModel };

    ghost view = { λ s. record { number = s.number; waiting = s.waiting.items } };
}

impl Port {
    /// A port at which nothing waits.
    pub fn new(alloc: Global, number: u16) -> Port
        ensures { result ≡ record { number = number; waiting = [] } }
    {
        Port {
            number,
            waiting: Vec::new(alloc),
        }
    }

    pub fn number(&self) -> u16
        ensures { result ≡ self.now.number }
    {
        self.number
    }

    /// Whether one more connection may wait.
    pub fn has_place(&self) -> bool
        ensures { result ≡ has_place self.now }
    {
        self.waiting.len() < MOST
    }

    /// The connection that has waited longest.
    pub fn oldest(&self) -> Option<Conn>
        ensures { result ≡ slice_get self.now.waiting 0 }
    {
        self.waiting.first().copied()
    }

    /// One more connection waits.
    pub fn connect(&mut self, conn: Conn) -> Result<(), PortError>
        ensures waits { OnOk result
            (self.new ≡ record self.old { waiting = self.old.waiting ++ conn ∷ [] }) }
        ensures number { self.new.number ≡ self.old.number }
        ensures refused { (result ≡ Err PortError.Refused) ↔ IsFalse (has_place self.old) }
        ensures answers { IfErr result IsConnectError }
        ensures err { OnErr result (self.new ≡ self.old) }
    {
        if !self.has_place() {
            return Err(PortError::Refused);
        }
        self.waiting.reserve(1)?;
        self.waiting.push_reserved(conn);
        Ok(())
    }

    /// Takes the connection that has waited longest.
    pub fn accept(&mut self) -> Option<Conn>
        ensures oldest { result ≡ slice_get self.old.waiting 0 }
        ensures rest { self.new ≡ record self.old { waiting = drop 1 self.old.waiting } }
    {
        let oldest = self.oldest()?;
        let _ = self.waiting.remove(0);
        Some(oldest)
    }

    /// The connections that wait, the oldest first.
    pub fn into_waiting(self) -> Vec<Conn>
        ensures { result.items ≡ self.waiting }
    {
        self.waiting
    }
}
