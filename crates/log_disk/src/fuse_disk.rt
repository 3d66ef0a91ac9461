// A disk in memory of which chosen calls fail.
ghost use Rattle.std.specs.Prelude.{◌≡◌, ◌≤◌, ◌+◌, ◌↔◌, length, take, drop, Some, IfOk, OnOk, OnErr, IsErr, IsErrOf};
ghost use Rattle.arn_base.specs.Disk.{Only};
ghost use Rattle.log_disk.specs.Crash.{CrashWith, durable};
ghost use Rattle.log_disk.specs.InMemory.{fused, changed, IsListed, Counts, Makes};
ghost use Rattle.log_disk.specs.Steps.{span, first_half, written_to, cut_to};

use crate::fuse::CallFuse;
use crate::medium::Medium;
use crate::ranges::Range;
use arn_base::{Bytes, Disk, Failed, NoMemory, Numbers, Stop};
use std::alloc::Global;
use std::marker::Model;

/// A disk in memory on which chosen calls fail, by their numbers from 0 on. It tells its bytes, and
/// what a crash at each moment may leave. A length, a read and a sync fail exactly where they are
/// listed, and have done nothing then. A write and a cut that are listed fail or find no memory,
/// and no others fail. A write that fails has written the first half of its bytes, a cut that fails
/// has cut. A listed call is a fault, whether it fails or finds no memory.
#[derive(Drop)]
pub struct FuseDisk {
    medium: Medium,
    fuse: CallFuse,
}

impl Model for FuseDisk {
    ghost use Rattle.log_disk.specs.InMemory.{Fused, state_of};

    ghost Value = { Fused };

    ghost view = { λ disk. record {
      disk = state_of disk.medium;
      fails = disk.fuse.fails;
      calls = disk.fuse.calls;
      faults = disk.fuse.faults;
    } };
}

impl FuseDisk {
    /// A disk that holds these bytes, all of them durable.
    pub fn new(alloc: Global, bytes: Bytes, fails: Numbers) -> FuseDisk
        ensures state { result ≡ fused bytes fails }
        ensures image { ⟦<FuseDisk as Disk>⟧.image result ≡ Some bytes }
        ensures crash { Only bytes (⟦<FuseDisk as Disk>⟧.may_leave result) }
        ensures faults { ⟦<FuseDisk as Disk>⟧.faults result ≡ 0 }
    {
        FuseDisk {
            medium: Medium::new(alloc, bytes),
            fuse: CallFuse::new(fails),
        }
    }

    /// The bytes that a read gives.
    pub fn bytes(&self) -> &[u8]
        ensures image { ⟦<FuseDisk as Disk>⟧.image self.now ≡ Some result.now }
    {
        self.medium.bytes()
    }

    /// What one crash at this moment leaves. It has the smallest length since the last sync that
    /// succeeded if `short`, else the greatest. Where a crash may leave any byte it has the fill
    /// byte, or without one the byte that a read gives, and 0 behind the end.
    pub fn crash_with(
        &self,
        alloc: Global,
        fill: Option<u8>,
        short: bool,
    ) -> Result<Bytes, NoMemory>
        ensures allowed { IfOk result (⟦<FuseDisk as Disk>⟧.may_leave self.now) }
        ensures exactly { IfOk result (CrashWith self.now.disk.held fill short) }
    {
        self.medium.crash_with(alloc, fill, short)
    }
}

impl Disk for FuseDisk {
    ghost use Rattle.std.specs.Prelude.{Some, true};
    ghost use Rattle.log_disk.specs.Crash.{Crash};
    ghost use Rattle.log_disk.specs.InMemory.{LeftSince, moment_of};
    ghost use Rattle.log_disk.specs.Laws.{Crash-image, LeftSince-now, Crash-left};

    ghost image = { λ fuse. Some fuse.disk.held.image };

    ghost may_leave = { λ fuse. Crash fuse.disk.held };

    ghost moment = { λ fuse. moment_of fuse.disk };

    ghost left_since = { λ fuse. LeftSince fuse.disk };

    ghost faults = { λ fuse. fuse.faults };

    ghost wants_memory = { λ _. true };

    ghost reads_may_stay = { λ fuse. Crash-image fuse.disk.held };

    ghost counts_now = { λ fuse since bytes _ leaves. LeftSince-now fuse.disk since bytes leaves };

    ghost only_now = { λ fuse bytes left. Crash-left fuse.disk bytes left };

    fn len(&mut self) -> Result<u64, Failed>
        ensures listed { IsErr result ↔ IsListed self.old }
        ensures length { IfOk result (λ len. len ≡ length self.old.disk.held.image) }
        ensures same { self.new.disk ≡ self.old.disk }
        ensures counted { Counts self.old self.new }
    {
        self.fuse.pass()?;
        Ok(self.medium.bytes().len() as u64)
    }

    fn read(&mut self, at: u64, buf: &mut [u8]) -> Result<(), Failed>
        requires { at + length buf.old ≤ length self.old.disk.held.image }
        ensures listed { IsErr result ↔ IsListed self.old }
        ensures bytes { OnOk result
            (buf.new ≡ take (length buf.old) (drop at self.old.disk.held.image)) }
        ensures unread { OnErr result (buf.new ≡ buf.old) }
        ensures same { self.new.disk ≡ self.old.disk }
        ensures counted { Counts self.old self.new }
    {
        self.fuse.pass()?;
        self.medium.read(at as usize, buf);
        Ok(())
    }

    fn write(&mut self, at: u64, bytes: &[u8]) -> Result<(), Stop>
        requires { at ≤ length self.old.disk.held.image }
        ensures listed { IsListed self.old → IsErr result }
        ensures failed { IsErrOf result Stop.Failed → IsListed self.old }
        ensures makes { Makes result
            (written_to (span at (length bytes.now)) bytes.now self.old.disk.held)
            (written_to (span at (length bytes.now)) (first_half bytes.now) self.old.disk.held)
            self.old.disk self.new.disk }
        ensures counted { Counts self.old self.new }
    {
        let passed = self.fuse.pass();
        let range = Range::with_len(at as usize, bytes.len())?;
        if passed.is_err() {
            self.medium.write(range, &bytes[..bytes.len() / 2])?;
            return Err(Stop::Failed);
        }
        Ok(self.medium.write(range, bytes)?)
    }

    fn cut(&mut self, len: u64) -> Result<(), Stop>
        ensures listed { IsListed self.old → IsErr result }
        ensures failed { IsErrOf result Stop.Failed → IsListed self.old }
        ensures makes { Makes result (cut_to len self.old.disk.held)
            (cut_to len self.old.disk.held) self.old.disk self.new.disk }
        ensures counted { Counts self.old self.new }
    {
        let passed = self.fuse.pass();
        self.medium.cut(len as usize)?;
        Ok(passed?)
    }

    fn sync(&mut self) -> Result<(), Stop>
        ensures listed { IsErrOf result Stop.Failed ↔ IsListed self.old }
        ensures ok { OnOk result
            (self.new.disk ≡ changed (durable self.old.disk.held.image) self.old.disk) }
        ensures err { OnErr result (self.new.disk ≡ self.old.disk) }
        ensures counted { Counts self.old self.new }
    {
        self.fuse.pass()?;
        Ok(self.medium.sync()?)
    }
}
