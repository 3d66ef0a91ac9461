// One process of the table.
ghost use Rattle.std.specs.Prelude.{◌≡◌, ◌<◌, length, position, is_none, option_map, None, Some, IfSome, IsSome};
ghost use Rattle.guest_procs.specs.Answers.{ended_as};
ghost use Rattle.guest_procs.specs.Shown.{process_of, shown};
ghost use Rattle.guest_procs.specs.Status.{status_byte};
ghost use Rattle.parts_model.specs.Processes.{Live, none_open, child_of, is_live, is_child_of, if_awaited, orphan, with_end, status_in, descriptor, free_descriptors, lowest_free, with_descriptor};

use crate::answers::Ended;
use parts_model::limits::MOST_DESCRIPTORS;

const COUNT: usize = MOST_DESCRIPTORS as usize;

/// It lives, or an event has ended it with a status.
#[derive(Clone, Copy)]
pub enum Life {
    Live,
    Ended { status: u8, event: u64 },
}

/// A process: its parent while that lives, and what each descriptor stands for.
#[derive(Clone, Copy)]
pub struct Process {
    pub life: Life,
    pub parent: Option<u32>,
    pub descriptors: [Option<u32>; COUNT],
}

impl Process {
    /// A process without a parent and open descriptors.
    pub fn first() -> Process
        ensures { process_of result ≡ record { life = Live; parent = None; descriptors = none_open } }
    {
        Process {
            life: Life::Live,
            parent: None,
            descriptors: [None; COUNT],
        }
    }

    pub fn child(&self, parent: u32) -> Process
        ensures { process_of result ≡ child_of parent (process_of self.now) }
    {
        Process {
            life: Life::Live,
            parent: Some(parent),
            descriptors: self.descriptors,
        }
    }

    pub fn is_live(&self) -> bool
        ensures { result ≡ is_live (process_of self.now) }
    {
        matches!(self.life, Life::Live)
    }

    pub fn is_child_of(&self, parent: u32) -> bool
        ensures { result ≡ is_child_of parent (process_of self.now) }
    {
        match self.parent {
            Some(own) => own == parent,
            None => false,
        }
    }

    /// How it has ended, if it has. Its number is this one.
    pub fn ended_as(&self, pid: u32) -> Option<Ended>
        ensures answer { result ≡ option_map (ended_as pid) (status_in (process_of self.now).life) }
        ensures number { IfSome result (λ e. e.pid ≡ pid) }
        ensures told { IfSome result (λ e.
            status_in (process_of self.now).life ≡ Some (status_byte e.status e.event)) }
    {
        match self.life {
            Life::Live => None,
            Life::Ended { status, event } => Some(Ended { pid, status, event }),
        }
    }

    /// It stays where it lives, or where its parent may wait for it.
    fn if_awaited(self) -> Option<Process>
        ensures { shown result ≡ if_awaited (process_of self) }
    {
        if self.is_live() || self.parent.is_some() {
            Some(self)
        } else {
            None
        }
    }

    /// What it is once this process, which may be its parent, has ended.
    pub fn orphaned(self, parent: u32) -> Option<Process>
        ensures { shown result ≡ orphan parent (process_of self) }
    {
        if !self.is_child_of(parent) {
            return Some(self);
        }
        let orphan = Process {
            life: self.life,
            parent: None,
            descriptors: self.descriptors,
        };
        orphan.if_awaited()
    }

    /// What it is once it has ended.
    pub fn ended(self, status: u8, event: u64) -> Option<Process>
        ensures { shown result ≡ with_end (status_byte status event) (process_of self) }
    {
        let ended = Process {
            life: Life::Ended { status, event },
            parent: self.parent,
            descriptors: [None; COUNT],
        };
        ended.if_awaited()
    }

    /// How many more descriptors it may open.
    pub fn free(&self) -> u32
        ensures { result ≡ free_descriptors (process_of self.now) }
    {
        self.descriptors
            .iter()
            .filter(|found| found.is_none())
            .count() as u32
    }

    /// The lowest number of a descriptor that isn't open.
    #[tactic(auto, using(crate::proofs::Lowest::lowest))]
    pub fn lowest_free(&self) -> Option<u8>
        ensures lowest { result ≡ lowest_free (process_of self.now) }
        ensures inside { IfSome result (λ number. number < MOST_DESCRIPTORS) }
    {
        let place = first_none(&self.descriptors)?;
        Some(place as u8)
    }

    /// What a descriptor stands for, if it is open.
    pub fn descriptor(&self, number: u64) -> Option<u32>
        ensures found { result ≡ descriptor (process_of self.now) number }
        ensures inside { IsSome result → number < MOST_DESCRIPTORS }
    {
        if number >= MOST_DESCRIPTORS {
            return None;
        }
        self.descriptors[number as usize]
    }

    /// With a descriptor that stands for something else, or for nothing any more.
    pub fn with_descriptor(self, number: u8, found: Option<u32>) -> Process
        requires { number < MOST_DESCRIPTORS }
        ensures { process_of result ≡ with_descriptor number found (process_of self) }
    {
        let mut process = self;
        process.descriptors[number as usize] = found;
        process
    }
}

/// The place of the first that is none.
fn first_none(descriptors: &[Option<u32>]) -> Option<usize>
    ensures first { result ≡ position is_none descriptors.now }
    ensures inside { IfSome result (λ place. place < length descriptors.now) }
{
    descriptors.iter().position(|found| found.is_none())
}
