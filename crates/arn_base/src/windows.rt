// A memory that is seen as windows.
ghost use Rattle.std.specs.Prelude.{◌≡◌, ◌<◌, ◌*◌, ◌^◌, ◌↔◌, Bool, List, None, Err, IfOk, OnOk, OnErr, IsSome, IsNone, IsTrue};
ghost use Rattle.std.specs.Result.{result_ok};
ghost use Rattle.arn_base.specs.Window.{Window, bytes_at, with_bytes, number_at, bytes_of, IsAccessLength};

use crate::{BadAddress, StoreError};

/// A memory that is read and written by numbers, little-endian. A window is a range of addresses
/// that is present.
pub trait Memory {
    /// The windows that are present.
    ghost windows: { Self → List Window };

    /// Whether a store may want memory of its own.
    ghost wants_memory: { Self → Bool };

    /// The number that the `len` bytes at an address spell. BadAddress comes exactly where they
    /// don't lie whole in one window.
    fn load(&self, at: u64, len: u8) -> Result<u64, BadAddress>
        requires { IsAccessLength len }
        ensures number { result_ok result ≡ number_at (windows self.now) at len }
        ensures fits { IfOk result (λ number. number < 2 ^ (8 * len)) };

    /// Writes the low `len` bytes of a number at an address.
    fn store(&mut self, at: u64, len: u8, value: u64) -> Result<(), StoreError>
        requires { IsAccessLength len }

        ensures ok { OnOk result
            (windows self.new ≡ with_bytes (windows self.old) at (bytes_of len value)) }
        ensures whole { OnOk result (IsSome (bytes_at (windows self.old) at len)) }

        ensures bad_address { (result ≡ Err StoreError.BadAddress) ↔
            IsNone (bytes_at (windows self.old) at len) }
        ensures no_memory { (result ≡ Err StoreError.NoMemory) → IsTrue (wants_memory self.old) }
        ensures err { OnErr result (windows self.new ≡ windows self.old) };
}
