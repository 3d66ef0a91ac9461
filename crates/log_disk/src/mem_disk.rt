// A disk in memory that never fails.
ghost use Rattle.std.specs.Prelude.{◌≡◌, ◌≢◌, ◌≤◌, ◌+◌, length, take, drop, Some, Ok, Err, IfOk, IsOk, OnOk, OnErr};
ghost use Rattle.arn_base.specs.Disk.{Only};
ghost use Rattle.log_disk.specs.Crash.{CrashWith, durable};
ghost use Rattle.log_disk.specs.InMemory.{fresh, changed};
ghost use Rattle.log_disk.specs.Steps.{span, written_to, cut_to};

use crate::medium::Medium;
use crate::ranges::Range;
use arn_base::{Bytes, Disk, Failed, NoMemory, Stop};
use std::alloc::Global;
use std::marker::Model;

/// A disk in memory. It tells its bytes, and what a crash at each moment may leave. It never fails,
/// but a call that changes it may run out of memory.
#[derive(Drop)]
pub struct MemDisk {
    medium: Medium,
}

impl Model for MemDisk {
    ghost use Rattle.log_disk.specs.InMemory.{InMemory, state_of};

    ghost Value = { InMemory };

    ghost view = { λ disk. state_of disk.medium };
}

impl MemDisk {
    /// A disk that holds these bytes, all of them durable.
    pub fn new(alloc: Global, bytes: Bytes) -> MemDisk
        ensures state { result ≡ fresh bytes }
        ensures image { ⟦<MemDisk as Disk>⟧.image result ≡ Some bytes }
        ensures crash { Only bytes (⟦<MemDisk as Disk>⟧.may_leave result) }
        ensures faults { ⟦<MemDisk as Disk>⟧.faults result ≡ 0 }
    {
        MemDisk {
            medium: Medium::new(alloc, bytes),
        }
    }

    /// The bytes that a read gives.
    pub fn bytes(&self) -> &[u8]
        ensures image { ⟦<MemDisk as Disk>⟧.image self.now ≡ Some result.now }
    {
        self.medium.bytes()
    }

    /// What one crash at this moment leaves. It has the smallest length since the last sync that
    /// succeeded if `short`, else the greatest. Where a crash may leave any byte it has the fill
    /// byte, or without one the byte that a read gives, and 0 behind the end.
    pub fn crash_with(
        &self,
        alloc: Global,
        fill: Option<u8>,
        short: bool,
    ) -> Result<Bytes, NoMemory>
        ensures allowed { IfOk result (⟦<MemDisk as Disk>⟧.may_leave self.now) }
        ensures exactly { IfOk result (CrashWith self.now.held fill short) }
    {
        self.medium.crash_with(alloc, fill, short)
    }
}

impl Disk for MemDisk {
    ghost use Rattle.std.specs.Prelude.{Some, true};
    ghost use Rattle.log_disk.specs.Crash.{Crash};
    ghost use Rattle.log_disk.specs.InMemory.{LeftSince, moment_of};
    ghost use Rattle.log_disk.specs.Laws.{Crash-image, LeftSince-now, Crash-left};

    ghost image = { λ disk. Some disk.held.image };

    ghost may_leave = { λ disk. Crash disk.held };

    ghost moment = { moment_of };

    ghost left_since = { LeftSince };

    ghost faults = { λ _. 0 };

    ghost wants_memory = { λ _. true };

    ghost reads_may_stay = { λ disk. Crash-image disk.held };

    ghost counts_now = { λ disk since bytes _ leaves. LeftSince-now disk since bytes leaves };

    ghost only_now = { λ disk bytes left. Crash-left disk bytes left };

    fn len(&mut self) -> Result<u64, Failed>
        ensures length { result ≡ Ok (length self.old.held.image) }
        ensures same { self.new ≡ self.old }
    {
        Ok(self.medium.bytes().len() as u64)
    }

    fn read(&mut self, at: u64, buf: &mut [u8]) -> Result<(), Failed>
        requires { at + length buf.old ≤ length self.old.held.image }
        ensures never_fails { IsOk result }
        ensures bytes { buf.new ≡ take (length buf.old) (drop at self.old.held.image) }
        ensures same { self.new ≡ self.old }
    {
        self.medium.read(at as usize, buf);
        Ok(())
    }

    fn write(&mut self, at: u64, bytes: &[u8]) -> Result<(), Stop>
        requires { at ≤ length self.old.held.image }
        ensures never_fails { result ≢ Err Stop.Failed }
        ensures ok { OnOk result (self.new
            ≡ changed (written_to (span at (length bytes.now)) bytes.now self.old.held) self.old) }
        ensures err { OnErr result (self.new ≡ self.old) }
    {
        let range = Range::with_len(at as usize, bytes.len())?;
        Ok(self.medium.write(range, bytes)?)
    }

    fn cut(&mut self, len: u64) -> Result<(), Stop>
        ensures never_fails { result ≢ Err Stop.Failed }
        ensures ok { OnOk result (self.new ≡ changed (cut_to len self.old.held) self.old) }
        ensures err { OnErr result (self.new ≡ self.old) }
    {
        Ok(self.medium.cut(len as usize)?)
    }

    fn sync(&mut self) -> Result<(), Stop>
        ensures never_fails { result ≢ Err Stop.Failed }
        ensures ok { OnOk result (self.new ≡ changed (durable self.old.held.image) self.old) }
        ensures err { OnErr result (self.new ≡ self.old) }
    {
        Ok(self.medium.sync()?)
    }
}
