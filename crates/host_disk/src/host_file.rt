// A file of the host, opened and locked at its first use.
use crate::failure::{Attempt, Failure, tried};
use std::fs::{File, OpenOptions, TryLockError};
use std::io::{self, ErrorKind};
use std::os::fd::AsRawFd;
use std::os::unix::fs::FileExt;
use std::rt::Files;

/// A file of the host at a path. The first call opens it, makes it where it isn't there, and locks
/// it until it is dropped.
#[derive(Drop)]
pub struct HostFile<R: Files<File = File> + Clone + Drop> {
    pub rt: R,
    pub path: String,
    pub open: Option<OpenLog>,
}

/// A file that is open. Where it may only be read, it has the error that says so.
#[derive(Drop)]
pub struct OpenLog {
    file: File,
    refusal: Option<io::Error>,
}

fn open_to_write<R: Files<File = File>>(files: &R, path: &str) -> io::Result<File> {
    OpenOptions::new()
        .read(true)
        .write(true)
        .create(true)
        .open(files, path)
}

/// Whether an error says that a file may not be written.
fn is_refusal(error: &io::Error) -> bool {
    matches!(
        error.kind(),
        ErrorKind::PermissionDenied | ErrorKind::ReadOnlyFilesystem
    )
}

/// A file whose number is above those of the standard streams. The number of a stream that is closed
/// goes to the next file, and what is written to the stream would go there too.
fn above_streams(file: File) -> io::Result<File> {
    if file.as_raw_fd() <= 2 {
        file.try_clone()
    } else {
        Ok(file)
    }
}

/// Opens a file to read and to write it, or to read it where it may not be written.
fn open_log<R: Files<File = File>>(files: &R, path: &str) -> io::Result<OpenLog> {
    let (file, refusal) = match open_to_write(files, path) {
        Ok(file) => (file, None),
        Err(error) if is_refusal(&error) => match File::open(files, path) {
            Ok(file) => (file, Some(error)),
            Err(_) => return Err(error),
        },
        Err(error) => return Err(error),
    };
    let file = above_streams(file)?;
    Ok(OpenLog { file, refusal })
}

/// Locks a file against all others, or against those that write it where it may only be read.
fn lock(log: &OpenLog) -> io::Result<()> {
    let answer = match log.refusal {
        None => log.file.try_lock(),
        Some(_) => log.file.try_lock_shared(),
    };
    match answer {
        Ok(()) => Ok(()),
        Err(TryLockError::Error(error)) => Err(error),
        Err(TryLockError::WouldBlock) => {
            let words = "another program uses it";
            Err(io::Error::new(ErrorKind::WouldBlock, words))
        }
    }
}

fn open_locked<R: Files<File = File>>(files: &R, path: &str) -> Result<OpenLog, Failure> {
    let log = tried(Attempt::Open, open_log(files, path))?;
    tried(Attempt::Lock, lock(&log))?;
    Ok(log)
}

impl OpenLog {
    /// The file, to be changed.
    fn to_write(&self) -> io::Result<&File> {
        match self.refusal {
            None => Ok(&self.file),
            Some(error) => Err(error),
        }
    }

    fn write(&self, at: u64, bytes: &[u8]) -> io::Result<()> {
        self.to_write()?.write_all_at(bytes, at)
    }

    /// Cuts a file that is longer.
    fn cut(&self, len: u64) -> io::Result<()> {
        if len < self.file.metadata()?.len() {
            self.to_write()?.set_len(len)?;
        }
        Ok(())
    }
}

impl<R: Files<File = File> + Clone + Drop> HostFile<R> {
    /// The open file, which is taken out for one call.
    fn opened(&mut self) -> Result<OpenLog, Failure> {
        match self.open.take() {
            Some(log) => Ok(log),
            None => open_locked(&self.rt, self.path.as_str()),
        }
    }

    pub fn len(&mut self) -> Result<u64, Failure> {
        let log = self.opened()?;
        let answer = log.file.metadata();
        self.open = Some(log);
        Ok(tried(Attempt::Measure, answer)?.len())
    }

    pub fn read(&mut self, at: u64, buf: &mut [u8]) -> Result<(), Failure> {
        let log = self.opened()?;
        let answer = log.file.read_exact_at(buf, at);
        self.open = Some(log);
        tried(Attempt::Read, answer)
    }

    pub fn write(&mut self, at: u64, bytes: &[u8]) -> Result<(), Failure> {
        let log = self.opened()?;
        let answer = log.write(at, bytes);
        self.open = Some(log);
        tried(Attempt::Write, answer)
    }

    pub fn cut(&mut self, len: u64) -> Result<(), Failure> {
        let log = self.opened()?;
        let answer = log.cut(len);
        self.open = Some(log);
        tried(Attempt::Cut, answer)
    }

    pub fn sync(&mut self) -> Result<(), Failure> {
        let log = self.opened()?;
        let answer = log.file.sync_all();
        self.open = Some(log);
        tried(Attempt::Sync, answer)
    }
}
