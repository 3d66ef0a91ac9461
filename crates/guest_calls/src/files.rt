// The calls on names and on places in files: open, unlink and seek.
ghost use Rattle.std.specs.Prelude.{◌≡◌, ℕ, ◌+◌, ◌<◌, ◌^◌, false, IfOk, IfSome, IsSome, IsTrue, None, OnErr, Some};
ghost use Rattle.parts_model.specs.Files.{find_file, is_name};
ghost use Rattle.parts_model.specs.Numbered.{nth};
ghost use Rattle.parts_model.specs.declared.open.Description.TheVariants.{File};
ghost use Rattle.acts_model.specs.Acts.{Returns};
ghost use Rattle.arn_model.specs.FileCalls.{has_no_room, open_found, open_new, open_row, seek_in, seek_row, seek_what, unlink_found, unlink_row};
ghost use Rattle.arn_model.specs.Kernel.{next_descriptor, placed, what_is};
ghost use Rattle.guest_bodies.specs.Shown.{IsLive};
ghost use Rattle.guest_resources.specs.Resources.{is_of};
ghost use Rattle.guest_calls.specs.Acted.{Acted, Carried};
ghost use Rattle.guest_calls.specs.Fits.{IsShort};
ghost use Rattle.guest_calls.specs.State.{OfProcess};

use crate::kernel::Kernel;
use crate::outcomes::Done;
use arn_base::{Bytes, Extra, NoMemory};
use guest_files::FileError;
use guest_requests::{error, path, path_refusal};
use guest_resources::OpenFile;
use parts_model::Description;
use parts_model::refusals::{
    BAD_ARGUMENT, BAD_DESCRIPTOR, NAME_TAKEN, NO_DESCRIPTOR_ROOM, NO_FILE, NO_ROOM,
};

impl Kernel {
    /// The call `open(path, length, mode)`.
    pub(crate) fn open(&mut self, pid: u32) -> Result<Done, NoMemory>
        requires live { IsLive self.old.guests pid }
        requires room { self.old.events + 1 < 2 ^ 64 }
        ensures carried { IfOk result (λ done. OfProcess self.old pid (λ m v.
            Carried (open_row m pid v) done m pid v self.new)) }
        ensures short { IfOk result (λ done. IsShort done.extra) }
        ensures err { OnErr result (self.new ≡ self.old) }
    {
        let at = self.argument(pid, 0);
        let len = self.argument(pid, 1);
        let mode = self.argument(pid, 2);
        if let Some(answer) = path_refusal(&self.bodies, pid, at, len, mode > 1) {
            return Ok(self.answers(pid, answer));
        }
        let path = path(&self.bodies, pid, at, len)?;
        if mode == 0 {
            self.open_found(pid, path)
        } else {
            self.open_new(pid, path)
        }
    }

    // Opens the file of a name.
    fn open_found(&mut self, pid: u32, path: Bytes) -> Result<Done, NoMemory>
        requires live { IsLive self.old.guests pid }
        requires room { self.old.events + 1 < 2 ^ 64 }
        requires name { IsTrue (is_name path) }
        ensures carried { IfOk result (λ done. OfProcess self.old pid (λ m v.
            Carried (open_found m pid path (find_file m.kernel.files path)) done m pid v self.new)) }
        ensures short { IfOk result (λ done. IsShort done.extra) }
        ensures err { OnErr result (self.new ≡ self.old) }
    {
        let file = match self.resources.find_file(path.as_slice()) {
            Some(file) => file,
            None => return Ok(self.answers(pid, error(NO_FILE))),
        };
        if self.has_no_room(pid) {
            return Ok(self.answers(pid, error(NO_DESCRIPTOR_ROOM)));
        }
        let opened = self.resources.open_file(file)?;
        Ok(self.opened_as(pid, path, opened))
    }

    // Makes a file and opens it.
    fn open_new(&mut self, pid: u32, path: Bytes) -> Result<Done, NoMemory>
        requires live { IsLive self.old.guests pid }
        requires room { self.old.events + 1 < 2 ^ 64 }
        requires name { IsTrue (is_name path) }
        ensures carried { IfOk result (λ done. OfProcess self.old pid (λ m v.
            Carried (open_new m pid path) done m pid v self.new)) }
        ensures short { IfOk result (λ done. IsShort done.extra) }
        ensures err { OnErr result (self.new ≡ self.old) }
    {
        if self.resources.find_file(path.as_slice()).is_some() {
            return Ok(self.answers(pid, error(NAME_TAKEN)));
        }
        if self.has_no_room(pid) {
            return Ok(self.answers(pid, error(NO_DESCRIPTOR_ROOM)));
        }
        match self.resources.make_file(path.as_slice()) {
            Ok(opened) => Ok(self.opened_as(pid, path, opened)),
            Err(FileError::TooMany) => Ok(self.answers(pid, error(NO_ROOM))),
            Err(_) => Err(NoMemory),
        }
    }

    // A descriptor of a process stands for a file that was opened.
    fn opened_as(&mut self, pid: u32, path: Bytes, opened: OpenFile) -> Done
        requires live { IsLive self.old.guests pid }
        requires room { self.old.events + 1 < 2 ^ 64 }
        requires free { has_no_room self.old.kernel pid ≡ false }
        ensures acted { Acted pid (Returns result.result)
            (placed pid opened.description self.old.kernel) self.old self.new }
        ensures result { result.result ≡ next_descriptor self.old.kernel pid }
        ensures extra { result.extra ≡ Extra.Name opened.file path }
    {
        let descriptor = self.place(pid, opened.description);
        self.returns(pid, descriptor);
        Done {
            result: descriptor,
            extra: Extra::Name {
                file: opened.file,
                path,
            },
        }
    }

    /// The call `unlink(path, length)`.
    pub(crate) fn unlink(&mut self, pid: u32) -> Result<Done, NoMemory>
        requires live { IsLive self.old.guests pid }
        requires room { self.old.events + 1 < 2 ^ 64 }
        ensures carried { IfOk result (λ done. OfProcess self.old pid (λ m v.
            Carried (unlink_row m pid v) done m pid v self.new)) }
        ensures short { IfOk result (λ done. IsShort done.extra) }
        ensures err { OnErr result (self.new ≡ self.old) }
    {
        let at = self.argument(pid, 0);
        let len = self.argument(pid, 1);
        if let Some(answer) = path_refusal(&self.bodies, pid, at, len, false) {
            return Ok(self.answers(pid, answer));
        }
        let path = path(&self.bodies, pid, at, len)?;
        Ok(self.unlink_path(pid, path))
    }

    // Takes a name away.
    fn unlink_path(&mut self, pid: u32, path: Bytes) -> Done
        requires live { IsLive self.old.guests pid }
        requires room { self.old.events + 1 < 2 ^ 64 }
        requires name { IsTrue (is_name path) }
        ensures carried { OfProcess self.old pid (λ m v.
            Carried (unlink_found m path (find_file m.kernel.files path)) result m pid v self.new) }
        ensures short { IsShort result.extra }
    {
        match self.resources.unlink(path.as_slice()) {
            None => self.answers(pid, error(NO_FILE)),
            Some(file) => {
                self.returns(pid, 0);
                Done {
                    result: 0,
                    extra: Extra::Name { file, path },
                }
            }
        }
    }

    /// The call `seek(descriptor, position)`.
    pub(crate) fn seek(&mut self, pid: u32) -> Done
        requires live { IsLive self.old.guests pid }
        requires room { self.old.events + 1 < 2 ^ 64 }
        ensures carried { OfProcess self.old pid (λ m v.
            Carried (seek_row m pid v) result m pid v self.new) }
        ensures nothing { result.extra ≡ Extra.Nothing }
    {
        let position = self.argument(pid, 1);
        match self.description_of(pid, self.argument(pid, 0)) {
            None => self.answers(pid, error(BAD_DESCRIPTOR)),
            Some(number) => self.seek_description(pid, number, position),
        }
    }

    // Moves the place of a description.
    fn seek_description(&mut self, pid: u32, number: u32, position: u64) -> Done
        requires live { IsLive self.old.guests pid }
        requires room { self.old.events + 1 < 2 ^ 64 }
        ensures carried { OfProcess self.old pid (λ m v.
            Carried (seek_what m number position (what_is m.kernel number)) result m pid v self.new) }
        ensures nothing { result.extra ≡ Extra.Nothing }
    {
        match self.tables().what_is(number) {
            None => self.answers(pid, error(BAD_DESCRIPTOR)),
            Some(Description::File { file, position: _ }) => {
                self.seek_file(pid, number, file, position)
            }
            Some(_) => self.answers(pid, error(BAD_ARGUMENT)),
        }
    }

    // Moves the place of a description in its file.
    fn seek_file(&mut self, pid: u32, number: u32, file: u32, position: u64) -> Done
        requires live { IsLive self.old.guests pid }
        requires room { self.old.events + 1 < 2 ^ 64 }
        requires there { IsSome (nth self.old.kernel.files.all file) }
        requires is { IfSome (nth self.old.kernel.descriptions number) (λ o.
            IsTrue (is_of file o.what)) }
        ensures carried { (old : ℕ) → OfProcess self.old pid (λ m v.
            Carried (seek_in m number position (File file old)) result m pid v self.new) }
        ensures nothing { result.extra ≡ Extra.Nothing }
    {
        if position > self.resources.file_length(file) as u64 {
            return self.answers(pid, error(BAD_ARGUMENT));
        }
        self.resources.move_to(number, file, position as u32);
        self.returns(pid, position);
        Done {
            result: position,
            extra: Extra::Nothing,
        }
    }
}
