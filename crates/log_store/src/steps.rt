// Changes of a disk that are synced at once.
ghost use Rattle.std.specs.Prelude.{◌≡◌, ◌≤◌, List, ℕ, length, take, IfSome, OnOk, OnErr, IsErrOf, IsTrue, option_map};
ghost use Rattle.arn_base.specs.Disk.{overwrite, Torn, Cut, NoLess, Only};
ghost use Rattle.arn_base.specs.Faults.{Rose};
ghost use Rattle.log_store.specs.Stops.{NothingPending, LeavesOnly, GoesOn};

use arn_base::{Disk, Stop};

// Writes bytes at an offset, and syncs.
pub fn write_through<D: Disk>(disk: &mut D, at: u64, bytes: &[u8]) -> Result<(), Stop>
    requires { IfSome (D.image disk.old) (λ old. at ≤ length old) }

    ensures written { OnOk result (D.image disk.new ≡
        option_map (λ old. overwrite old at bytes.now) (D.image disk.old)) }
    ensures durable { OnOk result (NothingPending D.image D.may_leave disk.new) }

    ensures any_moment { (old : List ℕ) → Only old (D.may_leave disk.old) →
        LeavesOnly D.moment D.left_since disk.old disk.new (Torn at (length bytes.now) old) }

    // What a crash might leave before it, it may leave after an error.
    ensures keeps { OnErr result (NoLess (D.may_leave disk.old) (D.may_leave disk.new)) }

    ensures cause { IsErrOf result Stop.Failed → Rose (D.faults disk.old) (D.faults disk.new) }
    ensures wanted { IsErrOf result Stop.NoMemory → IsTrue (D.wants_memory disk.old) }
    ensures memory { D.wants_memory disk.new ≡ D.wants_memory disk.old }
    ensures later { GoesOn D.image D.faults disk.old disk.new }
{
    disk.write(at, bytes)?;
    disk.sync()
}

// Cuts the disk to a length, and syncs.
pub fn cut_through<D: Disk>(disk: &mut D, len: u64) -> Result<(), Stop>
    ensures written { OnOk result (D.image disk.new ≡ option_map (take len) (D.image disk.old)) }
    ensures durable { OnOk result (NothingPending D.image D.may_leave disk.new) }

    ensures any_moment { (old : List ℕ) → Only old (D.may_leave disk.old) →
        LeavesOnly D.moment D.left_since disk.old disk.new (Cut len old) }

    ensures cause { IsErrOf result Stop.Failed → Rose (D.faults disk.old) (D.faults disk.new) }
    ensures later { GoesOn D.image D.faults disk.old disk.new }
{
    disk.cut(len)?;
    disk.sync()
}
