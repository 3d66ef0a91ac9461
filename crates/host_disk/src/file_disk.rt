// A disk over a file of the host.
ghost use Rattle.std.specs.Prelude.{◌≡◌, ◌<◌, None, Some, Ok, Err, IfOk, IfErr, OnErr, IsSome};
ghost use Rattle.std.specs.IoError.{error_kind};
ghost use Rattle.arn_base.specs.Faults.{Rose, NeverFalls};
ghost use Rattle.host_disk.specs.HostErrors.{stop_of, times};

use crate::failure::Failure;
use crate::host_file::HostFile;
use arn_base::{Disk, Failed, Stop};
use std::fs::File;
use std::io;
use std::rt::Files;

/// A file of the host as a disk. The first call opens it, makes it where it isn't there, and locks
/// it. It tells nothing of its bytes and nothing of what a crash may leave.
#[derive(Drop)]
pub struct FileDisk<R: Files<File = File> + Clone + Drop> {
    host: HostFile<R>,
    failures: Option<Failures>,
}

/// How often the host has failed, and how it did last.
#[derive(Clone, Copy)]
pub struct Failures {
    pub count: u64,
    pub last: Failure,
}

impl<R: Files<File = File> + Clone + Drop> FileDisk<R> {
    pub fn new(rt: R, path: String) -> FileDisk<R>
        ensures image { ⟦<FileDisk<R> as Disk>⟧.image result ≡ None }
        ensures faults { ⟦<FileDisk<R> as Disk>⟧.faults result ≡ 0 }
    {
        FileDisk {
            host: HostFile {
                rt,
                path,
                open: None,
            },
            failures: None,
        }
    }

    /// What failed last, if anything has.
    pub fn failure(&self) -> Option<Failure>
        ensures known { 0 < ⟦<FileDisk<R> as Disk>⟧.faults self.now → IsSome result }
    {
        match self.failures {
            Some(failures) => Some(failures.last),
            None => None,
        }
    }
}

/// Want of memory, or else a failure.
fn stop(error: &io::Error) -> Stop
    ensures { result ≡ stop_of (error_kind error.now) }
{
    match error.kind() {
        io::ErrorKind::OutOfMemory => Stop::NoMemory,
        _ => Stop::Failed,
    }
}

/// One failure more, of which this is the last.
fn one_more(failures: Option<Failures>, last: Failure) -> Failures
    ensures last { result.last ≡ last }
    ensures cause { Rose (times failures) result.count }
    ensures faults { NeverFalls (times failures) result.count }
{
    let before = match failures {
        Some(failures) => failures.count,
        None => 0,
    };
    let count = before.saturating_add(1);
    Failures { count, last }
}

/// Counts a failure of the host.
fn counted<T>(failures: &mut Option<Failures>, answer: Result<T, Failure>) -> Result<T, Stop>
    ensures ok { IfOk answer (λ value. result ≡ Ok value) }
    ensures err { IfErr answer (λ failure. result ≡ Err (stop_of (error_kind failure.error))) }
    ensures cause { OnErr result (Rose (times failures.old) (times failures.new)) }
    ensures faults { NeverFalls (times failures.old) (times failures.new) }
{
    match answer {
        Ok(value) => Ok(value),
        Err(failure) => {
            *failures = Some(one_more(*failures, failure));
            Err(stop(&failure.error))
        }
    }
}

impl<R: Files<File = File> + Clone + Drop> Disk for FileDisk<R> {
    ghost use Rattle.std.specs.Prelude.{None, true};
    ghost use Rattle.host_disk.specs.HostErrors.{times};

    ghost image = { λ _. None };

    ghost may_leave = { λ _ _. Unit {0} };

    ghost moment = { λ _. 0 };

    ghost left_since = { λ _ _ _. Unit {0} };

    ghost faults = { λ disk. times disk.failures };

    ghost wants_memory = { λ _. true };

    ghost reads_may_stay = { λ _. tt };

    ghost counts_now = { λ _ _ _ _ _. tt };

    ghost only_now = { λ _ _ _. tt };

    fn len(&mut self) -> Result<u64, Failed> {
        counted(&mut self.failures, self.host.len()).map_err(|_| Failed)
    }

    fn read(&mut self, at: u64, buf: &mut [u8]) -> Result<(), Failed> {
        counted(&mut self.failures, self.host.read(at, buf)).map_err(|_| Failed)
    }

    fn write(&mut self, at: u64, bytes: &[u8]) -> Result<(), Stop> {
        counted(&mut self.failures, self.host.write(at, bytes))
    }

    fn cut(&mut self, len: u64) -> Result<(), Stop> {
        counted(&mut self.failures, self.host.cut(len))
    }

    fn sync(&mut self) -> Result<(), Stop> {
        counted(&mut self.failures, self.host.sync())
    }
}
