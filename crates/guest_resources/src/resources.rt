// Descriptions and files together.
ghost use Rattle.std.specs.Prelude.{◌≡◌, ◌≢◌, ◌+◌, ◌-◌, ◌≤◌, ◌<◌, ◌^◌, ◌↔◌, ◌∷◌, [], false, length, Err, IfErr, IfOk, IfSome, IsNone, IsOk, IsSome, IsTrue, None, OnErr, OnOk, Some, option_map, take, unwrap_or};
ghost use Rattle.std.specs.List.{list_all};
ghost use Rattle.parts_model.specs.declared.limits.TheConstants.{MOST_FILE_BYTES};
ghost use Rattle.parts_model.specs.declared.open.Description.TheVariants.{File};
ghost use Rattle.parts_model.specs.Files.{file_bytes, find_file, held, is_full, made, next_file, read_from, unnamed, written};
ghost use Rattle.parts_model.specs.Numbered.{nth};
ghost use Rattle.parts_model.specs.Tagged.{given, held_bytes};
ghost use Rattle.arn_model.specs.Kernel.{Kernel, all_also_held, also_held, closed, dropped, with_description, with_new};
ghost use Rattle.guest_files.specs.Table.{IsThere};
ghost use Rattle.guest_resources.specs.Opened.{first_descriptions};
ghost use Rattle.guest_resources.specs.Rooms.{fits, has_room, have_room};
ghost use Rattle.guest_resources.specs.Resources.{Changes, EndsWithChannel, HoldsFile, IsChannel, IsIn, IsKnown, IsNoFile, is_of, no_resources, settled_files, with_resources};

use crate::descriptions::Descriptions;
use arn_base::{Give, NoMemory};
use guest_files::{FileError, Files};
use parts_model::Description;
use parts_model::limits::MOST_FILE_BYTES;
use std::alloc::Global;
use std::marker::Model;

/// How many files are made at most, those that are gone among them.
const MOST_MADE: usize = 0x8000_0000;

/// A file that was opened, and the number of the description.
#[derive(Clone, Copy)]
pub struct OpenFile {
    pub file: u32,
    pub description: u32,
}

/// What descriptors of processes stand for: descriptions, and files, which have names too.
#[derive(Drop)]
pub struct Resources {
    files: Files,
    descriptions: Descriptions,
}

impl Model for Resources {
    ghost use Rattle.guest_resources.specs.Resources.{Resources as ResourcesModel, IsSound};

    ghost Value = { ResourcesModel };

    ghost view = { λ r. record { files = r.files; descriptions = r.descriptions } };

    ghost invariant = { λ r. IsSound (record { files = r.files; descriptions = r.descriptions }) };
}

// What ends with the last descriptor of a description: a file has one holder fewer.
fn close(files: &mut Files, what: &Description)
    requires { HoldsFile files.old what.now }
    ensures { files.new ≡ settled_files (Some what.now) files.old }
{
    match what {
        Description::File { file, position: _ } => files.release(*file),
        _ => {}
    }
}

// Whether so many descriptors more can stand for what one does that may be open.
fn has_room(all: &Descriptions, found: Option<u32>, count: usize) -> bool
    ensures { result ≡ has_room count all.now found }
{
    match found {
        Some(number) => all.has_room(number, count),
        None => true,
    }
}

// Whether so many more can stand for what each of these does.
fn have_room(all: &Descriptions, descriptors: &[Option<u32>], count: usize) -> bool
    ensures { result ≡ list_all (has_room count all.now) descriptors.now }
{
    descriptors.iter().all(|found| has_room(all, *found, count))
}

impl Resources {
    pub fn new(alloc: Global) -> Resources
        ensures { result ≡ no_resources }
    {
        Resources {
            files: Files::new(alloc),
            descriptions: Descriptions::new(alloc),
        }
    }

    /// The file of a name.
    pub fn find_file(&self, path: &[u8]) -> Option<u32>
        ensures found { result ≡ find_file self.now.files path.now }
        ensures there { IfSome result (IsThere self.now.files) }
    {
        self.files.find(path)
    }

    // The number of the next file.
    fn next_number(&self) -> Result<u32, NoMemory>
        ensures number { IfOk result (λ file. file ≡ next_file self.now.files) }
        ensures few { OnOk result (length self.now.files.all < 2 ^ 31) }
    {
        let made = self.files.count_made();
        if made >= MOST_MADE {
            return Err(NoMemory);
        }
        Ok(made as u32)
    }

    /// Makes a file of the bytes of an event under a free name.
    pub fn add_file(&mut self, path: &[u8], bytes: &[u8], event: u64) -> Result<(), FileError>
        requires few { length self.old.files.all < 2 ^ 31 }
        ensures made { OnOk result (self.new ≡ record self.old {
          files = made self.old.files path.now (held_bytes event bytes.now);
        }) }
        ensures exists { (result ≡ Err FileError.Exists) ↔
            IsSome (find_file self.old.files path.now) }
        ensures too_many { (result ≡ Err FileError.TooMany) ↔
            (IsNone (find_file self.old.files path.now) × IsTrue (is_full self.old.files)) }
        ensures too_long { (result ≡ Err FileError.TooLong) ↔
            (IsNone (find_file self.old.files path.now) × (is_full self.old.files ≡ false) ×
            (MOST_FILE_BYTES < length bytes.now)) }
        ensures answers { IfErr result (λ error. error ≢ FileError.NoFile) }
        ensures err { OnErr result (self.new ≡ self.old) }
    {
        self.files.create_with(path, bytes, event)?;
        Ok(())
    }

    /// Makes an empty file under a free name and opens it, for one descriptor.
    pub fn make_file(&mut self, path: &[u8]) -> Result<OpenFile, FileError>
        ensures opened { OnOk result (Changes self.old (λ k.
            with_new (File (next_file k.files) 0) (record k {
              files = held (made k.files path.now []) (next_file k.files);
            })) self.new) }
        ensures file { IfOk result (λ made. made.file ≡ next_file self.old.files) }
        ensures number { IfOk result (λ made.
            made.description ≡ length self.old.descriptions) }
        ensures room { OnOk result (is_full self.old.files ≡ false) }
        ensures too_many { result ≡ Err FileError.TooMany → IsTrue (is_full self.old.files) }
        ensures err { OnErr result (self.new ≡ self.old) }
    {
        let file = self.next_number()?;
        let first = Description::File { file, position: 0 };
        let description = self.descriptions.add(first, 1)?;
        match self.files.create(path) {
            Ok(file) => {
                self.files.hold(file);
                Ok(OpenFile { file, description })
            }
            Err(error) => {
                self.descriptions.remove_last();
                Err(error)
            }
        }
    }

    /// What a description is, if it is there.
    pub fn what_is(&self, number: u32) -> Option<Description>
        ensures what { result ≡ option_map (λ o. o.what) (nth self.now.descriptions number) }
        ensures known { IfSome result (IsKnown self.now.files) }
    {
        self.descriptions.find(number)
    }

    /// Has these open, where nothing was: the console, as process 1 has it.
    pub fn begin(&mut self, first: Descriptions)
        requires none { self.old.descriptions ≡ [] }
        requires first { first ≡ first_descriptions }
        ensures { self.new ≡ record self.old { descriptions = first_descriptions } }
    {
        self.descriptions = first;
    }

    /// Opens a file at its beginning, for one descriptor.
    pub fn open_file(&mut self, file: u32) -> Result<OpenFile, NoMemory>
        requires { IsThere self.old.files file }
        ensures opened { OnOk result (Changes self.old
            (λ k. with_new (File file 0) (record k { files = held k.files file })) self.new) }
        ensures file { IfOk result (λ open_file. open_file.file ≡ file) }
        ensures number { IfOk result (λ open_file.
            open_file.description ≡ length self.old.descriptions) }
        ensures err { OnErr result (self.new ≡ self.old) }
    {
        let description = self
            .descriptions
            .add(Description::File { file, position: 0 }, 1)?;
        self.files.hold(file);
        Ok(OpenFile { file, description })
    }

    /// Takes a name away, and answers the number of its file.
    pub fn unlink(&mut self, path: &[u8]) -> Option<u32>
        ensures found { result ≡ find_file self.old.files path.now }
        ensures unnamed { IfSome result (λ file. self.new ≡ record self.old {
          files = unnamed self.old.files path.now file;
        }) }
        ensures none { IsNone result → self.new ≡ self.old }
    {
        match self.files.unlink(path) {
            Ok(file) => Some(file),
            Err(_) => None,
        }
    }

    /// One descriptor more stands for a description. NoMemory says that there are too many.
    pub fn hold_one(&mut self, number: u32) -> Result<(), NoMemory>
        ensures held { OnOk result (Changes self.old (also_held number) self.new) }
        ensures enough { IsTrue (fits 1 (nth self.old.descriptions number)) → IsOk result }
        ensures err { OnErr result (self.new ≡ self.old) }
    {
        self.descriptions.hold_one(number)
    }

    /// Whether for each of these descriptors one more can stand for what it does.
    pub fn has_room(&self, descriptors: &[Option<u32>]) -> bool
        ensures { result ≡ have_room descriptors.now self.now.descriptions }
    {
        have_room(&self.descriptions, descriptors, descriptors.len())
    }

    // One descriptor more stands for what one does that may be open.
    fn hold_open(&mut self, found: Option<u32>)
        requires { IsTrue (has_room 1 self.old.descriptions found) }
        ensures { Changes self.old (all_also_held (found ∷ [])) self.new }
    {
        if let Some(number) = found {
            match self.hold_one(number) {
                Ok(()) => {}
                Err(NoMemory) => unreachable!(),
            }
        }
    }

    /// For each of these descriptors one more stands for what it does.
    pub fn hold_all(&mut self, descriptors: &[Option<u32>])
        requires { IsTrue (have_room descriptors.now self.old.descriptions) }
        ensures { Changes self.old (all_also_held descriptors.now) self.new }
    {
        for found in descriptors {
            self.hold_open(*found);
        }
    }

    /// One descriptor fewer stands for a description. Without any it is gone, and so may its file be.
    /// Where it is gone and was no file, this answers what it was, for the caller to close.
    pub fn drop_one(&mut self, number: u32) -> Option<Description>
        ensures none { IsNone result → Changes self.old (dropped number) self.new }
        ensures some { IfSome result (λ what. (k : Kernel) →
            dropped number (with_resources self.old k) ≡ closed what (with_resources self.new k)) }
        ensures no_file { IfSome result IsNoFile }
    {
        let what = self.descriptions.drop_one(number)?;
        close(&mut self.files, &what);
        if let Description::File { .. } = what {
            return None;
        }
        Some(what)
    }

    /// Opens a channel or a device for one descriptor, and answers its number.
    pub fn open_channel(&mut self, what: Description) -> Result<u32, NoMemory>
        requires { IsChannel what }
        ensures opened { OnOk result (Changes self.old (with_new what) self.new) }
        ensures number { IfOk result (λ number. number ≡ length self.old.descriptions) }
        ensures few { IfOk result (λ number. number + 1 < 2 ^ 32) }
        ensures last { OnOk result (EndsWithChannel self.new.descriptions) }
        ensures err { OnErr result (self.new ≡ self.old) }
    {
        self.descriptions.add(what, 1)
    }

    /// Opens two channels for one descriptor each, and answers the number of the first. The second
    /// has the next one.
    pub fn open_two(&mut self, first: Description, second: Description) -> Result<u32, NoMemory>
        requires first { IsChannel first }
        requires second { IsChannel second }
        ensures opened { OnOk result
            (Changes self.old (λ k. with_new second (with_new first k)) self.new) }
        ensures number { IfOk result (λ number. number ≡ length self.old.descriptions) }
        ensures few { IfOk result (λ number. number + 1 < 2 ^ 32) }
        ensures err { OnErr result (self.new ≡ self.old) }
    {
        let number = self.open_channel(first)?;
        match self.open_channel(second) {
            Ok(_) => Ok(number),
            Err(NoMemory) => {
                self.remove_last();
                Err(NoMemory)
            }
        }
    }

    /// Takes the channel or the device that was opened last back, as if it weren't opened.
    pub fn remove_last(&mut self)
        requires { EndsWithChannel self.old.descriptions }
        ensures { self.new ≡ record self.old {
          descriptions = take (length self.old.descriptions - 1) self.old.descriptions;
        } }
    {
        self.descriptions.remove_last();
    }

    /// How many bytes a file has.
    pub fn file_length(&self, file: u32) -> u32
        requires { IsThere self.now.files file }
        ensures length { Some result ≡ option_map length (file_bytes self.now.files file) }
        ensures end { IsIn (nth self.now.files.all file) result }
        ensures most { result ≤ MOST_FILE_BYTES }
    {
        self.files.length(file)
    }

    /// The bytes of a file from a place on, at most `max`, with their origins as the longest runs.
    pub fn read(&self, file: u32, at: u32, max: u32) -> Result<Give, NoMemory>
        requires { IsIn (nth self.now.files.all file) at }
        ensures given { IfOk result (λ give. give ≡
            given (read_from (unwrap_or (file_bytes self.now.files file) []) at max)) }
        ensures within { IfOk result (λ give.
            IsIn (nth self.now.files.all file) (at + length give.bytes)) }
        ensures end { IfOk result (λ give. at + length give.bytes ≤ MOST_FILE_BYTES) }
        ensures few_bytes { IfOk result (λ give. length give.bytes ≤ max) }
        ensures few_origins { IfOk result (λ give. length give.origins ≤ max) }
    {
        let _length = self.files.length(file);
        self.files.read_at(file, at, max)
    }

    /// How many bytes a file takes behind a place in it.
    pub fn room(&self, file: u32, at: u32) -> u32
        requires { IsIn (nth self.now.files.all file) at }
        ensures { result + at ≡ MOST_FILE_BYTES }
    {
        let length = self.files.length(file);
        MOST_FILE_BYTES as u32 - length + (length - at)
    }

    /// All bytes of a file.
    pub fn read_all(&self, file: u32) -> Result<Give, NoMemory>
        requires { IsThere self.now.files file }
        ensures given { IfOk result (λ give.
            Some give ≡ option_map given (file_bytes self.now.files file)) }
        ensures few_bytes { IfOk result (λ give. length give.bytes ≤ MOST_FILE_BYTES) }
        ensures few_origins { IfOk result (λ give. length give.origins ≤ MOST_FILE_BYTES) }
    {
        self.files.read_at(file, 0, self.files.length(file))
    }

    /// The place of a description in its file moves.
    pub fn move_to(&mut self, number: u32, file: u32, position: u32)
        requires within { IsIn (nth self.old.files.all file) position }
        requires is { IfSome (nth self.old.descriptions number) (λ o. IsTrue (is_of file o.what)) }
        ensures { Changes self.old (with_description number (File file position)) self.new }
    {
        self.descriptions
            .change(number, Description::File { file, position });
    }

    /// Writes bytes of an event to a file behind the place of a description, which moves on.
    pub fn write(
        &mut self,
        number: u32,
        file: u32,
        at: u32,
        bytes: &[u8],
        event: u64,
    ) -> Result<(), NoMemory>
        requires within { IsIn (nth self.old.files.all file) at }
        requires is { IfSome (nth self.old.descriptions number) (λ o. IsTrue (is_of file o.what)) }
        requires fits { at + length bytes.now ≤ MOST_FILE_BYTES }
        ensures written { OnOk result (Changes self.old (λ k.
            with_description number (File file (at + length bytes.now)) (record k {
              files = written k.files file at bytes.now event;
            })) self.new) }
        ensures err { OnErr result (self.new ≡ self.old) }
    {
        match self.files.write_at(file, at, bytes, event) {
            Ok(count) => {
                let position = at + count;
                self.descriptions
                    .change(number, Description::File { file, position });
                Ok(())
            }
            Err(_) => Err(NoMemory),
        }
    }
}
