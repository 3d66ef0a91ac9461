// Who follows a group.
ghost use Rattle.std.specs.Prelude.{◌≡◌, IfOk, IsErr, OnErr, OnOk, option_map};
ghost use Rattle.taint_state.specs.Asked.{answer};
ghost use Rattle.taint_tracker.specs.Followed.{HasNoByte, IsLost};
ghost use Rattle.taint_state.specs.Goes.{TakesBegin, TakesEvent, TakesInstr, nothing_tracked};
ghost use Rattle.taint_tracker.specs.Items.{listed};
ghost use Rattle.taint_state.specs.Kept.{shown};

use crate::answers::local;
use crate::items::KeptItems;
use acts_model::Observer;
use arn_base::{Cpu, NoMemory, Record};
use rv64_isa::Instr;
use rv64_model::Linkage;
use std::alloc::Global;
use std::marker::Model;
use taint_group::Group;
use taint_state::Point;

/// Follows one group. A step that fails leaves nothing to tell: from then on each call fails.
#[derive(Drop)]
pub struct Tracker {
    group: Group,
    lost: bool,
}

impl Model for Tracker {
    ghost use Rattle.std.specs.Prelude.{◌≡◌, false};
    ghost use Rattle.taint_tracker.specs.Followed.{kept_unless};
    ghost use Rattle.taint_group.specs.Groups.{IsSoundGroup};
    ghost use Rattle.taint_state.specs.Kept.{Kept};

    ghost Value = { Kept };

    ghost view = { λ t. kept_unless t.lost t.group };

    ghost invariant = { λ t. t.lost ≡ false → IsSoundGroup t.group };
}

impl Tracker {
    /// Has been told of nothing.
    pub fn new(alloc: Global, linkage: Linkage) -> Result<Tracker, NoMemory>
        ensures { IfOk result (λ tracker. shown tracker ≡ nothing_tracked linkage) }
    {
        let group = Group::new(alloc, linkage)?;
        Ok(Tracker { group, lost: false })
    }

    /// The items of a byte of the group so far. None where the group has no such byte, and of each
    /// byte once a step failed.
    pub fn local(&self, point: Point) -> Option<KeptItems<'_>>
        ensures { option_map listed result ≡ answer (shown self.now) point }
    {
        if self.lost {
            None
        } else {
            local(&self.group, point)
        }
    }
}

impl Observer for Tracker {
    ghost use Rattle.taint_state.specs.Goes.{TakesBegin, TakesEvent, TakesInstr};
    ghost use Rattle.taint_state.specs.Kept.{shown};

    ghost begins = { λ x pid event parent y. TakesBegin (shown x) pid event parent (shown y) };

    ghost runs = { λ x pid instr before y. TakesInstr (shown x) pid instr before (shown y) };

    ghost hears = { λ x event entry before y. TakesEvent (shown x) event entry before (shown y) };

    fn begin(&mut self, pid: u32, event: u64, parent: Option<u32>) -> Result<(), NoMemory>
        ensures takes { OnOk result
            (TakesBegin (shown self.old) pid event parent (shown self.new)) }
        ensures fails { IsLost self.old → IsErr result }
        ensures lost { OnErr result (IsLost self.new) }
        ensures nothing { OnErr result (HasNoByte (shown self.new)) }
    {
        if self.lost {
            return Err(NoMemory);
        }
        // A child began with the fork itself.
        if parent.is_some() {
            return Ok(());
        }
        self.lost = true;
        self.group.begin(pid, event)?;
        self.lost = false;
        Ok(())
    }

    #[inline(always)]
    fn instruction(&mut self, pid: u32, instr: &Instr, before: &Cpu) -> Result<(), NoMemory>
        ensures takes { OnOk result
            (TakesInstr (shown self.old) pid instr.now before.now (shown self.new)) }
        ensures fails { IsLost self.old → IsErr result }
        ensures lost { OnErr result (IsLost self.new) }
        ensures nothing { OnErr result (HasNoByte (shown self.new)) }
    {
        if self.lost {
            return Err(NoMemory);
        }
        self.lost = true;
        self.group.instruction(pid, instr, before)?;
        self.lost = false;
        Ok(())
    }

    fn happened(&mut self, event: u64, entry: &Record, before: &Cpu) -> Result<(), NoMemory>
        ensures takes { OnOk result
            (TakesEvent (shown self.old) event entry.now before.now (shown self.new)) }
        ensures fails { IsLost self.old → IsErr result }
        ensures lost { OnErr result (IsLost self.new) }
        ensures nothing { OnErr result (HasNoByte (shown self.new)) }
    {
        if self.lost {
            return Err(NoMemory);
        }
        self.lost = true;
        self.group.happened(event, entry, before)?;
        self.lost = false;
        Ok(())
    }
}
