// A source and a sink of bytes.
ghost use Rattle.std.specs.Prelude.{◌≡◌, ℕ, ◌<◌, ◌≤◌, ◌++◌, [], List, length, take, IfOk, OnErr, IsErrOf, IfSome, Option, option_map};
ghost use Rattle.arn_base.specs.Faults.{Rose, NeverFalls};

use crate::{Failed, Stop};

/// Where bytes come from.
pub trait Source {
    /// The bytes that are left, where it tells them.
    ghost left: { Self → Option (List ℕ) };

    /// How often it has failed.
    ghost faults: { Self → ℕ };

    /// Takes bytes into the front of the buffer, and answers how many. It answers 0 for a buffer
    /// that isn't empty only at the end.
    fn take(&mut self, buf: &mut [u8]) -> Result<usize, Failed>
        ensures within { IfOk result (λ count. count ≤ length buf.old) }
        ensures bytes { IfOk result (λ count.
            left self.old ≡ option_map (λ rest. take count buf.new ++ rest) (left self.new)) }
        ensures end { IfOk result (λ count.
            count ≡ 0 → 0 < length buf.old → IfSome (left self.old) (λ bytes. bytes ≡ [])) }
        ensures err { OnErr result (left self.new ≡ left self.old) }

        ensures cause { OnErr result (Rose (faults self.old) (faults self.new)) }
        ensures faults { NeverFalls (faults self.old) (faults self.new) };
}

/// Where bytes go.
pub trait Sink {
    /// The bytes that it holds, where it tells them.
    ghost holds: { Self → Option (List ℕ) };

    /// How often it has failed.
    ghost faults: { Self → ℕ };

    /// Puts bytes from the front of a piece, and answers how many: at least one of a piece that
    /// isn't empty.
    fn put(&mut self, bytes: &[u8]) -> Result<usize, Stop>
        ensures within { IfOk result (λ count. count ≤ length bytes.now) }
        ensures some { IfOk result (λ count. 0 < length bytes.now → 0 < count) }
        ensures bytes { IfOk result (λ count.
            holds self.new ≡ option_map (λ held. held ++ take count bytes.now) (holds self.old)) }
        ensures err { OnErr result (holds self.new ≡ holds self.old) }

        ensures cause { IsErrOf result Stop.Failed → Rose (faults self.old) (faults self.new) }
        ensures faults { NeverFalls (faults self.old) (faults self.new) };
}
