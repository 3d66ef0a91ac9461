// The boot of process 1.
ghost use Rattle.std.specs.Prelude.{◌≡◌, ◌+◌, ◌<◌, ◌≤◌, ◌^◌, ◌↔◌, length, [], Ok, Some, IfOk, IsErrOf, IsNone, IsTrue, OnErr, OnOk};
ghost use Rattle.parts_model.specs.declared.limits.TheConstants.{MOST_FILE_BYTES};
ghost use Rattle.parts_model.specs.Files.{find_file};
ghost use Rattle.parts_model.specs.Image.{is_image};
ghost use Rattle.guest_calls.specs.Starts.{Begins, BootedFrom, HasNoImage, first_processes};

use crate::kernel::Kernel;
use crate::outcomes::BootError;
use arn_base::{Give, NoMemory};
use guest_bodies::others_stay_unheld;
use guest_procs::{ProcError, Procs};
use guest_requests::is_image;
use guest_resources::Descriptions;
use std::alloc::Global;

// The table of process 1, whose descriptors stand for description 0.
fn first_processes(alloc: Global) -> Result<Procs, ProcError>
    ensures { IfOk result (λ procs. procs ≡ first_processes) }
{
    let mut procs = Procs::new(alloc);
    procs.boot()?;
    procs.place(1, 0)?;
    procs.place(1, 0)?;
    procs.place(1, 0)?;
    Ok(procs)
}

impl Kernel {
    // Process 1 begins with an image.
    fn begin(&mut self, image: &[u8]) -> Result<(), NoMemory>
        requires no_process { self.old.kernel.processes ≡ [] }
        requires room { self.old.events + 1 < 2 ^ 64 }
        requires image { IsTrue (is_image image.now) }
        ensures begun { OnOk result (Begins image.now self.old self.new) }
        ensures err { OnErr result (self.new ≡ self.old) }
    {
        let descriptions = Descriptions::first(self.alloc)?;
        let procs = match first_processes(self.alloc) {
            Ok(procs) => procs,
            Err(_) => return Err(NoMemory),
        };
        others_stay_unheld();
        self.bodies.boots(self.events, image)?;
        self.procs = procs;
        self.resources.begin(descriptions);
        self.booted = true;
        self.events += 1;
        Ok(())
    }

    /// Boots process 1 from the image in a file, and answers the file's bytes. It is the next event.
    pub fn boot(&mut self, name: &[u8]) -> Result<Give, BootError>
        requires no_process { self.old.kernel.processes ≡ [] }
        requires room { self.old.events + 1 < 2 ^ 64 }

        ensures booted { IfOk result (λ give. BootedFrom name.now give self.old self.new) }
        ensures few_bytes { IfOk result (λ give. length give.bytes ≤ MOST_FILE_BYTES) }
        ensures few_origins { IfOk result (λ give. length give.origins ≤ MOST_FILE_BYTES) }

        ensures no_name { IsErrOf result BootError.NoName ↔
            IsNone (find_file self.old.kernel.files name.now) }
        ensures not_image { IsErrOf result BootError.NotImage → HasNoImage name.now self.old }
        ensures err { OnErr result (self.new ≡ self.old) }
    {
        let file = match self.resources.find_file(name) {
            Some(file) => file,
            None => return Err(BootError::NoName),
        };
        let give = match self.resources.read_all(file) {
            Ok(give) => give,
            Err(NoMemory) => return Err(BootError::NoMemory),
        };
        if !is_image(give.bytes.as_slice()) {
            return Err(BootError::NotImage);
        }
        match self.begin(give.bytes.as_slice()) {
            Ok(()) => Ok(give),
            Err(NoMemory) => Err(BootError::NoMemory),
        }
    }
}
