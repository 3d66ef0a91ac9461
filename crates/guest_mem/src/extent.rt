// Where a window lies, and access to its bytes by addresses.
ghost use Rattle.std.specs.Prelude.{◌≡◌, ◌<◌, ◌≤◌, ◌+◌, ◌^◌, ◌*◌, ◌↔◌, IsOk, IfOk, OnOk, OnErr, IsSome, IsNone, Err, Some, length, option_copied};
ghost use Rattle.std.specs.Result.{result_ok};
ghost use Rattle.arn_base.specs.Window.{IsAccessLength, number_at, bytes_of, bytes_at, with_bytes};
ghost use Rattle.parts_model.specs.Memory.{one_window};

use crate::numbers;
use arn_base::BadAddress;

/// The first address of a window, and how many bytes it has.
#[derive(Clone, Copy)]
pub struct Extent {
    pub from: u64,
    pub len: u64,
}

impl Extent {
    /// The place of an address. The difference wraps: an address before the window gives a place behind its end.
    #[inline(always)]
    pub fn offset(self, at: u64) -> u64
        requires { self.from + self.len < 2 ^ 64 }
        ensures near { result ≤ self.len → at ≡ self.from + result }
        ensures behind { self.from ≤ at → at ≡ self.from + result }
    {
        at.wrapping_sub(self.from)
    }

    /// The place of a range among the window's bytes.
    #[inline(always)]
    pub fn place(self, at: u64, len: u64) -> Result<usize, BadAddress>
        requires { self.from + self.len < 2 ^ 64 }
        ensures whole { IsOk result ↔ ((self.from ≤ at) × (at + len ≤ self.from + self.len)) }
        ensures place { IfOk result (λ place. at ≡ self.from + place) }
    {
        let place = self.offset(at);
        if len > self.len || place > self.len - len {
            return Err(BadAddress);
        }
        Ok(place as usize)
    }

    /// The number at an address.
    #[inline(always)]
    pub fn load(self, bytes: &[u8], at: u64, len: u8) -> Result<u64, BadAddress>
        requires length { IsAccessLength len }
        requires extent { length bytes.now ≡ self.len }
        requires within { self.from + self.len < 2 ^ 64 }
        ensures number { result_ok result ≡ number_at (one_window self.from bytes.now) at len }
        ensures fits { IfOk result (λ number. number < 2 ^ (8 * len)) }
    {
        let place = self.place(at, len as u64)?;
        Ok(numbers::load(bytes, place, len))
    }

    /// Writes a number at an address.
    #[inline(always)]
    pub fn store(self, bytes: &mut [u8], at: u64, len: u8, value: u64) -> Result<(), BadAddress>
        requires length { IsAccessLength len }
        requires extent { length bytes.old ≡ self.len }
        requires within { self.from + self.len < 2 ^ 64 }
        ensures ok { OnOk result (one_window self.from bytes.new ≡
            with_bytes (one_window self.from bytes.old) at (bytes_of len value)) }
        ensures whole { IsOk result ↔ IsSome (bytes_at (one_window self.from bytes.old) at len) }
        ensures err { OnErr result (bytes.new ≡ bytes.old) }
    {
        let place = self.place(at, len as u64)?;
        numbers::store(bytes, place, len, value);
        Ok(())
    }

    /// The bytes of a range.
    pub fn slice(self, bytes: &[u8], at: u64, len: u64) -> Result<&[u8], BadAddress>
        requires extent { length bytes.now ≡ self.len }
        requires within { self.from + self.len < 2 ^ 64 }
        ensures { option_copied (result_ok result) ≡ bytes_at (one_window self.from bytes.now) at len }
    {
        let place = self.place(at, len)?;
        Ok(&bytes[place..place + len as usize])
    }

    /// Writes bytes at an address.
    pub fn write_from(self, bytes: &mut [u8], at: u64, new: &[u8]) -> Result<(), BadAddress>
        requires extent { length bytes.old ≡ self.len }
        requires within { self.from + self.len < 2 ^ 64 }
        ensures ok { OnOk result (one_window self.from bytes.new ≡
            with_bytes (one_window self.from bytes.old) at new.now) }
        ensures whole { IsOk result ↔ IsSome (bytes_at (one_window self.from bytes.old) at (length new.now)) }
        ensures err { OnErr result (bytes.new ≡ bytes.old) }
    {
        let place = self.place(at, new.len() as u64)?;
        bytes[place..place + new.len()].copy_from_slice(new);
        Ok(())
    }
}
