// A disk, and what a crash may leave on it.
ghost use Rattle.std.specs.Prelude.{◌≡◌, ℕ, Bool, IsTrue, ◌+◌, ◌≤◌, List, length, take, drop, IfOk, OnOk, OnErr, IsErrOf, IfSome, Option, option_map};
ghost use Rattle.arn_base.specs.Faults.{Rose, NeverFalls};
ghost use Rattle.arn_base.specs.Disk.{overwrite, Torn, Cut, Follows, NoMore, NoLess, Only, BothTell, Elapses};

use crate::{Failed, Stop};

/// A file of bytes. Until a sync, a crash may leave any bytes in a range that was written, behind the
/// old end and in a part that was cut off, and any length between the smallest and the greatest.
pub trait Disk {
    /// The bytes that a read gives, where it tells them.
    ghost image: { Self → Option (List ℕ) };

    /// What a crash at this moment may leave.
    ghost may_leave: { Self → List ℕ → Type 0 };

    /// The moment, as a number that never falls.
    ghost moment: { Self → ℕ };

    /// What a crash at some moment from that one on may have left, during a call or between two.
    ghost left_since: { Self → ℕ → List ℕ → Type 0 };

    /// How often it has failed.
    ghost faults: { Self → ℕ };

    /// Whether a call that changes it may want memory of its own.
    ghost wants_memory: { Self → Bool };

    /// The length in bytes.
    fn len(&mut self) -> Result<u64, Failed>
        ensures length { IfOk result (λ len.
            IfSome (image self.old) (λ bytes. len ≡ length bytes)) }

        ensures image { image self.new ≡ image self.old }
        ensures crash { NoMore (may_leave self.old) (may_leave self.new) }
        ensures keeps { NoLess (may_leave self.old) (may_leave self.new) }
        ensures time { Elapses moment left_since may_leave self.old self.new }

        ensures cause { OnErr result (Rose (faults self.old) (faults self.new)) }
        ensures faults { NeverFalls (faults self.old) (faults self.new) }
        ensures memory { wants_memory self.new ≡ wants_memory self.old };

    /// Fills the buffer with the bytes at an offset.
    fn read(&mut self, at: u64, buf: &mut [u8]) -> Result<(), Failed>
        requires { IfSome (image self.old) (λ bytes. at + length buf.old ≤ length bytes) }

        ensures bytes { OnOk result (IfSome (image self.old) (λ bytes.
            buf.new ≡ take (length buf.old) (drop at bytes))) }

        ensures image { image self.new ≡ image self.old }
        ensures crash { NoMore (may_leave self.old) (may_leave self.new) }
        ensures keeps { NoLess (may_leave self.old) (may_leave self.new) }
        ensures time { Elapses moment left_since may_leave self.old self.new }

        ensures cause { OnErr result (Rose (faults self.old) (faults self.new)) }
        ensures faults { NeverFalls (faults self.old) (faults self.new) }
        ensures memory { wants_memory self.new ≡ wants_memory self.old };

    /// Writes bytes at an offset, over what is there and past the end. After a write that failed, a
    /// read may give any bytes there.
    fn write(&mut self, at: u64, bytes: &[u8]) -> Result<(), Stop>
        requires { IfSome (image self.old) (λ old. at ≤ length old) }

        ensures written { OnOk result
            (image self.new ≡ option_map (λ old. overwrite old at bytes.now) (image self.old)) }
        ensures err { OnErr result
            (BothTell (Torn at (length bytes.now)) (image self.old) (image self.new)) }
        ensures no_memory { IsErrOf result Stop.NoMemory → image self.new ≡ image self.old }

        ensures crash { Follows (Torn at (length bytes.now)) (may_leave self.old) (may_leave self.new) }
        ensures keeps { NoLess (may_leave self.old) (may_leave self.new) }
        ensures no_memory_crash { IsErrOf result Stop.NoMemory →
            NoMore (may_leave self.old) (may_leave self.new) }
        ensures time { Elapses moment left_since may_leave self.old self.new }

        ensures cause { IsErrOf result Stop.Failed → Rose (faults self.old) (faults self.new) }
        ensures wanted { IsErrOf result Stop.NoMemory → IsTrue (wants_memory self.old) }
        ensures faults { NeverFalls (faults self.old) (faults self.new) }
        ensures memory { wants_memory self.new ≡ wants_memory self.old };

    /// Cuts the file to a length. A file that is shorter already stays as it is.
    fn cut(&mut self, len: u64) -> Result<(), Stop>
        ensures cut { OnOk result (image self.new ≡ option_map (take len) (image self.old)) }
        ensures err { OnErr result (BothTell (Cut len) (image self.old) (image self.new)) }
        ensures no_memory { IsErrOf result Stop.NoMemory → image self.new ≡ image self.old }

        ensures crash { Follows (Cut len) (may_leave self.old) (may_leave self.new) }
        ensures keeps { NoLess (may_leave self.old) (may_leave self.new) }
        ensures no_memory_crash { IsErrOf result Stop.NoMemory →
            NoMore (may_leave self.old) (may_leave self.new) }
        ensures time { Elapses moment left_since may_leave self.old self.new }

        ensures cause { IsErrOf result Stop.Failed → Rose (faults self.old) (faults self.new) }
        ensures wanted { IsErrOf result Stop.NoMemory → IsTrue (wants_memory self.old) }
        ensures faults { NeverFalls (faults self.old) (faults self.new) }
        ensures memory { wants_memory self.new ≡ wants_memory self.old };

    /// After it, a crash leaves what a read gives.
    fn sync(&mut self) -> Result<(), Stop>
        ensures durable { OnOk result
            (IfSome (image self.old) (λ bytes. Only bytes (may_leave self.new))) }

        ensures image { image self.new ≡ image self.old }
        ensures crash { NoMore (may_leave self.old) (may_leave self.new) }
        ensures keeps { OnErr result (NoLess (may_leave self.old) (may_leave self.new)) }
        ensures time { Elapses moment left_since may_leave self.old self.new }

        ensures cause { IsErrOf result Stop.Failed → Rose (faults self.old) (faults self.new) }
        ensures wanted { IsErrOf result Stop.NoMemory → IsTrue (wants_memory self.old) }
        ensures faults { NeverFalls (faults self.old) (faults self.new) }
        ensures memory { wants_memory self.new ≡ wants_memory self.old };

    /// The bytes that it reads are among those that a crash now may leave.
    ghost reads_may_stay: { (disk : Self) → IfSome (image disk) (may_leave disk) };

    /// This moment is one of those since an earlier one.
    ghost counts_now: { (disk : Self) (since : ℕ) (bytes : List ℕ) →
        since ≤ moment disk → may_leave disk bytes → left_since disk since bytes };

    /// Since this moment there is no other.
    ghost only_now: { (disk : Self) (bytes : List ℕ) →
        left_since disk (moment disk) bytes → may_leave disk bytes };
}
