//! The clock of the host, as a device of a guest.
#![tactic(auto)]

ghost use Rattle.std.specs.Prelude.{◌≡◌, Some, false, ℕ, length, min};
ghost use Rattle.arn_base.specs.Device.{Endless};

use arn_base::{Device, Reply, Took};
use std::rt::Clock;
use std::time::{SystemTime, UNIX_EPOCH};

/// Gives the nanoseconds since the start of 1970 by the host's clock, as 8 bytes from the lowest to the
/// highest, or as many of these as fit. It fails where the clock fails, and takes all bytes. What it
/// gives it doesn't tell.
#[derive(Drop)]
pub struct ClockDevice<R: Clock + Drop> {
    host: R,
}

impl<R: Clock + Drop> ClockDevice<R> {
    pub fn new(host: R) -> ClockDevice<R>
        ensures room { ⟦<ClockDevice<R> as Device>⟧.room result ≡ Some Endless }
        ensures put_faults { (k : ℕ) →
            ⟦<ClockDevice<R> as Device>⟧.put_faults result k ≡ Some false }
    {
        ClockDevice { host }
    }
}

impl<R: Clock + Drop> Device for ClockDevice<R> {
    ghost use Rattle.std.specs.Prelude.{None, Some, ◌≡◌, ◌⊎◌, false, length, min};
    ghost use Rattle.arn_base.specs.Device.{Endless, countable};

    ghost replies = { λ _ _. None };

    ghost room = { λ _. Some Endless };

    ghost took = { λ _. None };

    ghost put_faults = { λ _ _. Some false };

    fn ask(&mut self, buf: &mut [u8]) -> Reply
        ensures count { (result ≡ Reply.Fault) ⊎ (result ≡ Reply.Gave (min 8 (length buf.old))) }
    {
        match nanoseconds(&self.host) {
            Some(time) => Reply::Gave(copy_front(&time.to_le_bytes(), buf)),
            None => Reply::Fault,
        }
    }

    fn put(&mut self, bytes: &[u8]) -> Took
        ensures all { result ≡ Took.Count (countable (length bytes.now)) }
    {
        Took::Count(bytes.len().min(u32::MAX as usize) as u32)
    }
}

// The time of a clock, where it tells one from 1970 on that 64 bits hold.
fn nanoseconds<R: Clock>(clock: &R) -> Option<u64> {
    let since = SystemTime::now(clock)
        .ok()?
        .duration_since(UNIX_EPOCH)
        .ok()?;
    u64::try_from(since.as_nanos()).ok()
}

// Copies as many bytes to the front of a buffer as fit.
fn copy_front(time: &[u8; 8], buf: &mut [u8]) -> u32
    ensures { result ≡ min 8 (length buf.old) }
{
    let count = buf.len().min(8);
    buf[..count].copy_from_slice(&time[..count]);
    count as u32
}
