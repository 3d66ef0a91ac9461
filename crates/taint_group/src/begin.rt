// A member that begins without a parent.
ghost use Rattle.std.specs.Prelude.{None, OnOk};
ghost use Rattle.taint_state.specs.Goes.{TakesBegin};
ghost use Rattle.taint_group.specs.Groups.{IsSoundGroup, kept_of};
ghost use Rattle.taint_state.specs.Kept.{shown};

use crate::group::Group;
use crate::memories::seat;
use arn_base::NoMemory;
use taint_events::begun;
use taint_state::begins_show;

impl Group {
    /// A member begins without a parent, in the place of one that may be there: each of its bytes
    /// is an item by itself. After an error nothing is known of what is kept.
    pub fn begin(&mut self, pid: u32, event: u64) -> Result<(), NoMemory>
        requires sound { IsSoundGroup self.old }
        ensures begins { OnOk result
            (TakesBegin (shown (kept_of self.old)) pid event None (shown (kept_of self.new))) }
        ensures sound { OnOk result (IsSoundGroup self.new) }
    {
        begins_show();
        let member = begun(*self.members.allocator(), &mut self.sets, event)?;
        seat(&mut self.members, &mut self.memories, pid, event, member)
    }
}
