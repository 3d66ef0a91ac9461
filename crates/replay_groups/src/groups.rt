// Which process is in which group.
ghost use Rattle.std.specs.Prelude.{◌≡◌, ◌≢◌, OnOk, OnErr, IsNone, IfSome, Some};
ghost use Rattle.replay_groups.specs.Groups.{no_groups, group_at, next_number, members_of, with_member, IsStarted};

use crate::lists::{self, Lists};
use arn_base::NoMemory;
use std::alloc::Global;
use std::marker::Model;

/// The group of each process. Processes are numbered from 1 in the order of their making, and a group has the number of
/// the process that started it.
#[derive(Drop)]
pub struct Groups {
    lists: Lists,
    reserved: Option<u32>,
}

impl Model for Groups {
    ghost use Rattle.replay_groups.specs.Groups.{Grouping};

    ghost Value = { Grouping };

    ghost use Rattle.replay_groups.specs.Sound.{IsSound};

    ghost view = { λ s. record { groups = s.lists.groups.items; reserved = s.reserved } };

    ghost invariant = { λ s. IsSound s.lists s.reserved };
}

impl Groups {
    /// No process has a group.
    pub fn new(alloc: Global) -> Groups
        ensures { result ≡ no_groups }
    {
        Groups {
            lists: Lists::new(alloc),
            reserved: None,
        }
    }

    /// Keeps memory for the next process, where it starts a group or joins this one.
    pub fn reserve(&mut self, group: u32) -> Result<(), NoMemory>
        ensures ok { OnOk result (self.new ≡ record self.old { reserved = Some group }) }
        ensures err { OnErr result (self.new ≡ self.old) }
    {
        self.lists.make_member_room(group)?;
        self.lists.make_room()?;
        self.reserved = Some(group);
        Ok(())
    }

    /// Adds a process that starts a group, whose number is the process's.
    pub fn start(&mut self, pid: u32) -> Result<(), NoMemory>
        requires { pid ≡ next_number self.old.groups }
        ensures ok { OnOk result (self.new ≡ with_member self.old pid) }
        ensures err { OnErr result (self.new ≡ self.old) }
        ensures memory { OnErr result (IsNone self.old.reserved) }
    {
        self.lists.make_room()?;
        self.lists.start(pid)?;
        self.reserved = None;
        Ok(())
    }

    /// Adds a process to a group that an earlier process started.
    pub fn join(&mut self, pid: u32, group: u32) -> Result<(), NoMemory>
        requires next { pid ≡ next_number self.old.groups }
        requires started { IsStarted self.old.groups group }
        ensures ok { OnOk result (self.new ≡ with_member self.old group) }
        ensures err { OnErr result (self.new ≡ self.old) }
        ensures memory { OnErr result (self.old.reserved ≢ Some group) }
    {
        self.lists.make_member_room(group)?;
        self.lists.make_room()?;
        self.lists.join(pid, group)?;
        self.reserved = None;
        Ok(())
    }

    /// The group of a process.
    pub fn of(&self, pid: u32) -> Option<u32>
        ensures group { result ≡ group_at self.now.groups pid }
        ensures started { IfSome result (IsStarted self.now.groups) }
    {
        lists::group_of(&self.lists.groups, pid)
    }

    /// The processes of a group, in the order in which they were added.
    pub fn members(&self, group: u32) -> &[u32]
        ensures { result.now ≡ members_of self.now.groups group }
    {
        lists::members_of(&self.lists.members, group)
    }
}
