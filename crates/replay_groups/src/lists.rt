// The groups by the numbers of their processes.
ghost use Rattle.std.specs.Prelude.{◌≡◌, ◌≤◌, ◌<◌, ◌-◌, ◌+◌, ◌++◌, ◌∷◌, [], ℕ, length, map, slice_get, slice_set, slice_index_or, IfSome, IsOk, OnOk, OnErr, vec_len, vec_capacity};
ghost use Rattle.replay_groups.specs.Groups.{group_at, next_number, IsStarted};
ghost use Rattle.replay_groups.specs.Room.{HasRoom, HasMemberRoom, SameLists};
ghost use Rattle.replay_groups.specs.Sound.{list_of, numbers, SameNumbers, TellsMembers};

use arn_base::NoMemory;
use std::alloc::Global;
use std::mem;

/// The group of each process, and the members of the group that each started.
#[derive(Drop)]
pub struct Lists {
    pub groups: Vec<u32>,
    pub members: Vec<Vec<u32>>,
    /// Empty, with the memory for the first member of the next group.
    pub spare: Vec<u32>,
}

/// Where a process or a group stands in a list of all.
fn place(number: u32) -> usize
    ensures { result ≡ number - 1 }
{
    number.saturating_sub(1) as usize
}

/// The group of a process.
pub fn group_of(groups: &[u32], pid: u32) -> Option<u32>
    ensures { result ≡ group_at groups.now pid }
{
    if pid == 0 {
        return None;
    }
    groups.get(place(pid)).copied()
}

/// The members of a group.
pub fn members_of(members: &[Vec<u32>], group: u32) -> &[u32]
    ensures { result.now ≡ list_of (numbers members.now) group }
{
    if group == 0 || place(group) >= members.len() {
        return &[];
    }
    members[place(group)].as_slice()
}

/// Keeps memory for one more member of a group, if it was started.
fn make_member_room(members: &mut [Vec<u32>], group: u32) -> Result<(), NoMemory>
    ensures same { numbers members.new ≡ numbers members.old }
    ensures room { OnOk result (HasMemberRoom members.new group) }
    ensures kept { (other : ℕ) → HasMemberRoom members.old other → HasMemberRoom members.new other }
    ensures given { HasMemberRoom members.old group → IsOk result }
{
    if place(group) < members.len() {
        members[place(group)].reserve(1)?;
    }
    Ok(())
}

/// Adds a member to a group that was started.
fn push_member(members: &mut [Vec<u32>], group: u32, pid: u32) -> Result<(), NoMemory>
    requires started { group - 1 < length members.old }
    requires room { HasMemberRoom members.old group }
    ensures given { IsOk result }
    ensures pushed { numbers members.new ≡ slice_set (numbers members.old) (group - 1)
        (slice_index_or (numbers members.old) (group - 1) [] ++ pid ∷ []) }
{
    members[place(group)].push(pid)?;
    Ok(())
}

impl Lists {
    pub fn new(alloc: Global) -> Lists
        ensures groups { result.groups.items ≡ [] }
        ensures members { result.members.items ≡ [] }
        ensures spare { result.spare.items ≡ [] }
    {
        Lists {
            groups: Vec::new(alloc),
            members: Vec::new(alloc),
            spare: Vec::new(alloc),
        }
    }

    /// Keeps memory for one more process, also where it starts a group.
    pub fn make_room(&mut self) -> Result<(), NoMemory>
        ensures same { SameLists self.old self.new }
        ensures room { OnOk result (HasRoom self.new) }
        ensures kept { HasRoom self.old → HasRoom self.new }
        ensures given { HasRoom self.old → IsOk result }
    {
        self.groups.reserve(1)?;
        self.members.reserve(1)?;
        self.spare.reserve(1)?;
        Ok(())
    }

    /// Keeps memory for one more member of a group, if it was started.
    pub fn make_member_room(&mut self, group: u32) -> Result<(), NoMemory>
        ensures same { SameNumbers self.old self.new }
        ensures room { OnOk result (HasMemberRoom self.new.members.items group) }
        ensures kept { (other : ℕ) → HasMemberRoom self.old.members.items other
            → HasMemberRoom self.new.members.items other }
        ensures given { HasMemberRoom self.old.members.items group → IsOk result }
        ensures process { HasRoom self.old → HasRoom self.new }
    {
        make_member_room(&mut self.members, group)
    }

    /// Adds a process, for which there is room.
    fn add(&mut self, group: u32, members: Vec<u32>) -> Result<(), NoMemory>
        requires process { vec_len self.old.groups < vec_capacity self.old.groups }
        requires list { vec_len self.old.members < vec_capacity self.old.members }
        ensures given { IsOk result }
        ensures groups { self.new.groups.items ≡ self.old.groups.items ++ group ∷ [] }
        ensures members { numbers self.new.members.items ≡
            numbers self.old.members.items ++ members.items ∷ [] }
        ensures spare { self.new.spare ≡ self.old.spare }
    {
        self.members.push(members)?;
        self.groups.push(group)?;
        Ok(())
    }

    /// Adds a process that starts a group.
    pub fn start(&mut self, pid: u32) -> Result<(), NoMemory>
        requires room { HasRoom self.old }
        requires tells { TellsMembers self.old.groups.items (numbers self.old.members.items) }
        requires next { pid ≡ next_number self.old.groups.items }
        requires spare { self.old.spare.items ≡ [] }
        ensures given { IsOk result }
        ensures groups { self.new.groups.items ≡ self.old.groups.items ++ pid ∷ [] }
        ensures tells { TellsMembers self.new.groups.items (numbers self.new.members.items) }
        ensures spare { self.new.spare.items ≡ [] }
    {
        let empty = Vec::new(*self.spare.allocator());
        let mut members = mem::replace(&mut self.spare, empty);
        members.push(pid)?;
        self.add(pid, members)
    }

    /// Adds a process to a group that was started.
    pub fn join(&mut self, pid: u32, group: u32) -> Result<(), NoMemory>
        requires room { HasRoom self.old }
        requires member_room { HasMemberRoom self.old.members.items group }
        requires tells { TellsMembers self.old.groups.items (numbers self.old.members.items) }
        requires next { pid ≡ next_number self.old.groups.items }
        requires started { IsStarted self.old.groups.items group }
        ensures given { IsOk result }
        ensures groups { self.new.groups.items ≡ self.old.groups.items ++ group ∷ [] }
        ensures tells { TellsMembers self.new.groups.items (numbers self.new.members.items) }
        ensures spare { self.new.spare ≡ self.old.spare }
    {
        push_member(&mut self.members, group, pid)?;
        let empty = Vec::new(*self.spare.allocator());
        self.add(group, empty)
    }
}
