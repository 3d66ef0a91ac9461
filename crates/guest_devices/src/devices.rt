// Devices.
ghost use Rattle.std.specs.Prelude.{◌≡◌, ◌+◌, ◌≤◌, [], ℕ, Some, false, slice_get, IfOk, vec_len, vec_capacity, length};
ghost use Rattle.arn_base.specs.Device.{Endless, Gives, Upto, countable, cut_to, recorded};
ghost use Rattle.guest_devices.specs.Scripts.{told_by};
ghost use Rattle.rand_core.specs.Steps.{fill_via_u32};
ghost use Rattle.rand_pcg.specs.Lcg.{started, increment_of};
ghost use Rattle.rand_pcg.specs.Pcg.{multiplier_64, pcg32};

use crate::copies::copy_front;
use arn_base::{Bytes, Device, NoMemory, Reply, Took};
use rand_core::utils::fill_bytes_via_u32;
use rand_pcg::Lcg64Xsh32;
use std::alloc::Global;
use std::marker::Model;

/// A reply of a script.
#[derive(Drop)]
pub enum ScriptReply {
    Fault,
    Bytes(Bytes),
}

/// Gives the replies of a list, one after another, and then no bytes. Bytes that don't fit are lost.
/// It takes so many bytes, and keeps them.
#[derive(Drop)]
pub struct ScriptDevice {
    replies: Vec<ScriptReply>,
    next: usize,
    taken: Vec<u8>,
    room: u32,
    ghost fits: { vec_len taken + room ≤ vec_capacity taken },
}

impl ScriptDevice {
    pub fn new(
        alloc: Global,
        replies: Vec<ScriptReply>,
        room: u32,
    ) -> Result<ScriptDevice, NoMemory>
        ensures replies { IfOk result (λ device. (k : ℕ) →
            ⟦<ScriptDevice as Device>⟧.replies device k ≡ Some (told_by (slice_get replies.items k))) }
        ensures room { IfOk result (λ device.
            ⟦<ScriptDevice as Device>⟧.room device ≡ Some (Upto room)) }
        ensures took { IfOk result (λ device. ⟦<ScriptDevice as Device>⟧.took device ≡ Some []) }
        ensures put_faults { IfOk result (λ device. (k : ℕ) →
            ⟦<ScriptDevice as Device>⟧.put_faults device k ≡ Some false) }
    {
        let taken = Vec::with_capacity(alloc, room as usize)?;
        Ok(ScriptDevice {
            replies,
            next: 0,
            taken,
            room,
        })
    }
}

impl Device for ScriptDevice {
    ghost use Rattle.std.specs.Prelude.{◌+◌, Some, slice_get, false};
    ghost use Rattle.arn_base.specs.Device.{Upto};
    ghost use Rattle.guest_devices.specs.Scripts.{told_by};

    ghost replies = { λ d k. Some (told_by (slice_get d.replies.items (d.next + k))) };

    ghost room = { λ d. Some (Upto d.room) };

    ghost took = { λ d. Some d.taken.items };

    ghost put_faults = { λ _ _. Some false };

    fn ask(&mut self, buf: &mut [u8]) -> Reply {
        match self.replies.get(self.next) {
            None => Reply::Gave(0),
            Some(reply) => {
                self.next += 1;
                give(reply, buf)
            }
        }
    }

    fn put(&mut self, bytes: &[u8]) -> Took {
        let count = bytes.len().min(self.room as usize);
        self.taken.extend_from_slice(&bytes[..count]).unwrap();
        self.room -= count as u32;
        Took::Count(count as u32)
    }
}

// Gives a reply of a script.
fn give(reply: &ScriptReply, buf: &mut [u8]) -> Reply
    ensures { recorded result buf.new ≡ cut_to (length buf.old) (told_by (Some reply.now)) }
{
    match reply {
        ScriptReply::Fault => Reply::Fault,
        ScriptReply::Bytes(bytes) => Reply::Gave(copy_front(bytes.as_slice(), buf)),
    }
}

/// Gives no bytes, and takes all.
#[derive(Drop)]
pub struct SilentDevice;

impl SilentDevice {
    pub fn new() -> SilentDevice
        ensures replies { (k : ℕ) → ⟦<SilentDevice as Device>⟧.replies result k ≡ Some (Gives []) }
        ensures room { ⟦<SilentDevice as Device>⟧.room result ≡ Some Endless }
        ensures put_faults { (k : ℕ) → ⟦<SilentDevice as Device>⟧.put_faults result k ≡ Some false }
    {
        SilentDevice
    }
}

impl Device for SilentDevice {
    ghost use Rattle.std.specs.Prelude.{[], None, Some, false};
    ghost use Rattle.arn_base.specs.Device.{Endless, Gives};

    ghost replies = { λ _ _. Some (Gives []) };

    ghost room = { λ _. Some Endless };

    ghost took = { λ _. None };

    ghost put_faults = { λ _ _. Some false };

    fn ask(&mut self, _buf: &mut [u8]) -> Reply {
        Reply::Gave(0)
    }

    fn put(&mut self, bytes: &[u8]) -> Took {
        Took::Count(all_of(bytes))
    }
}

/// Fills each buffer whole with words of a seeded generator, little-endian. Each ask begins with a new
/// word, and loses the bytes of its last word that don't fit. It takes all bytes. It doesn't tell its
/// replies, which depend on how long the buffers before were.
#[derive(Drop)]
pub struct EntropyDevice {
    words: Lcg64Xsh32,
}

impl Model for EntropyDevice {
    ghost use Rattle.rand_pcg.specs.Lcg.{Lcg};

    ghost Value = { Lcg };

    ghost view = { λ d. d.words };
}

impl EntropyDevice {
    pub fn new(seed: u64) -> EntropyDevice
        ensures words { result ≡ started 64 multiplier_64 seed (increment_of 64 2) }
        ensures room { ⟦<EntropyDevice as Device>⟧.room result ≡ Some Endless }
        ensures put_faults { (k : ℕ) → ⟦<EntropyDevice as Device>⟧.put_faults result k ≡ Some false }
    {
        EntropyDevice {
            words: Lcg64Xsh32::new(seed, 2),
        }
    }
}

impl Device for EntropyDevice {
    ghost use Rattle.std.specs.Prelude.{None, Some, false};
    ghost use Rattle.arn_base.specs.Device.{Endless};

    ghost replies = { λ _ _. None };

    ghost room = { λ _. Some Endless };

    ghost took = { λ _. None };

    ghost put_faults = { λ _ _. Some false };

    fn ask(&mut self, buf: &mut [u8]) -> Reply
        ensures filled { (buf.new, self.new) ≡ fill_via_u32 pcg32 (length buf.old) self.old }
        ensures gave { result ≡ Reply.Gave (countable (length buf.old)) }
    {
        fill_bytes_via_u32(&mut self.words, buf);
        Reply::Gave(all_of(buf))
    }

    fn put(&mut self, bytes: &[u8]) -> Took
        ensures all { result ≡ Took.Count (countable (length bytes.now)) }
        ensures same { self.new ≡ self.old }
    {
        Took::Count(all_of(bytes))
    }
}

// How many bytes there are, as far as one answer counts.
fn all_of(bytes: &[u8]) -> u32
    ensures { result ≡ countable (length bytes.now) }
{
    bytes.len().min(u32::MAX as usize) as u32
}
