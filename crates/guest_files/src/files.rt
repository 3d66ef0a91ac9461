// Files by number, and their names.
ghost use Rattle.std.specs.Prelude.{◌≡◌, ◌≢◌, nat_lt, false, None, [], ◌↔◌, ◌≤◌, ◌<◌, ◌^◌, length, option_map, Some, Err, IfOk, IfErr, IfSome, OnOk, OnErr, IsSome, IsNone, IsTrue};
ghost use Rattle.parts_model.specs.declared.limits.TheConstants.{MOST_FILE_BYTES};
ghost use Rattle.parts_model.specs.Files.{file_bytes, find_file, fitting, held, is_full, made, next_file, no_files, reached_again, read_from, released, unnamed, written};
ghost use Rattle.parts_model.specs.Numbered.{nth};
ghost use Rattle.parts_model.specs.Tagged.{given, held_bytes};
ghost use Rattle.guest_files.specs.Errors.{IsCreateError, IsRefusal, IsWriteError};
ghost use Rattle.guest_files.specs.Table.{IsHeld, IsPlace, IsThere};

use crate::FileError;
use crate::content::Content;
use crate::names::Names;
use arn_base::{Give, NoMemory};
use parts_model::limits::MOST_FILES;
use std::alloc::Global;
use std::marker::Model;

/// Files, numbered from 0 in the order of their making. A number is never given again. A file that
/// has neither a name nor a holder is gone.
#[derive(Drop)]
pub struct Files {
    all: Vec<Option<Content>>,
    names: Names,
    present: u64,
}

impl Model for Files {
    ghost use Rattle.parts_model.specs.Files.{Files as FilesModel};
    ghost use Rattle.guest_files.specs.Table.{IsSound};

    ghost Value = { FilesModel };

    ghost view = { λ files. record { all = files.all.items; names = files.names } };

    ghost invariant = { λ files. IsSound (record { all = files.all.items; names = files.names }) files.present };
}

impl Files {
    pub fn new(alloc: Global) -> Files
        ensures { result ≡ no_files }
    {
        Files {
            all: Vec::new(alloc),
            names: Names::new(alloc),
            present: 0,
        }
    }

    fn is_full(&self) -> bool
        ensures { result ≡ is_full self.now }
    {
        self.present >= MOST_FILES
    }

    /// How many files were made, those that are gone among them.
    pub fn count_made(&self) -> usize
        ensures { result ≡ length self.now.all }
    {
        self.all.len()
    }

    /// The number of the file with this name.
    pub fn find(&self, path: &[u8]) -> Option<u32>
        ensures found { result ≡ find_file self.now path.now }
        ensures there { IfSome result (IsThere self.now) }
    {
        self.names.find(path)
    }

    // Whether there may be a file of this name, and there is none yet.
    fn check_free(&self, path: &[u8]) -> Result<(), FileError>
        ensures free { OnOk result (find_file self.now path.now ≡ None) }
        ensures room { OnOk result (is_full self.now ≡ false) }

        ensures exists { (result ≡ Err FileError.Exists) ↔ IsSome (find_file self.now path.now) }
        ensures too_many { (result ≡ Err FileError.TooMany) ↔
            (IsNone (find_file self.now path.now) × IsTrue (is_full self.now)) }
        ensures answers { IfErr result IsRefusal }
    {
        if self.find(path).is_some() {
            return Err(FileError::Exists);
        }
        if self.is_full() {
            return Err(FileError::TooMany);
        }
        Ok(())
    }

    // Puts a new file under a free name, and answers its number.
    fn insert(&mut self, path: &[u8], content: Content) -> Result<u32, NoMemory>
        requires free { find_file self.old path.now ≡ None }
        requires few { length self.old.all < 2 ^ 31 }
        requires not_held { content.holders ≡ 0 }
        ensures made { OnOk result (self.new ≡ made self.old path.now content.bytes) }
        ensures number { IfOk result (λ file. file ≡ next_file self.old) }
        ensures err { OnErr result (self.new ≡ self.old) }
    {
        let number = self.all.len() as u32;
        self.all.reserve(1)?;
        self.names.add(path, number)?;
        self.all.push_reserved(Some(content));
        self.present += 1;
        Ok(number)
    }

    /// Makes an empty file under a free name, and answers its number.
    pub fn create(&mut self, path: &[u8]) -> Result<u32, FileError>
        requires few { length self.old.all < 2 ^ 31 }

        ensures made { OnOk result (self.new ≡ made self.old path.now []) }
        ensures number { IfOk result (λ file. file ≡ next_file self.old) }

        ensures exists { (result ≡ Err FileError.Exists) ↔ IsSome (find_file self.old path.now) }
        ensures too_many { (result ≡ Err FileError.TooMany) ↔
            (IsNone (find_file self.old path.now) × IsTrue (is_full self.old)) }
        ensures answers { IfErr result IsCreateError }
        ensures err { OnErr result (self.new ≡ self.old) }
    {
        self.check_free(path)?;
        let content = Content::new(*self.all.allocator());
        Ok(self.insert(path, content)?)
    }

    /// Makes a file of the bytes of an event under a free name, and answers its number.
    pub fn create_with(&mut self, path: &[u8], bytes: &[u8], event: u64) -> Result<u32, FileError>
        requires few { length self.old.all < 2 ^ 31 }

        ensures made { OnOk result
            (self.new ≡ made self.old path.now (held_bytes event bytes.now)) }
        ensures number { IfOk result (λ file. file ≡ next_file self.old) }

        ensures exists { (result ≡ Err FileError.Exists) ↔ IsSome (find_file self.old path.now) }
        ensures too_many { (result ≡ Err FileError.TooMany) ↔
            (IsNone (find_file self.old path.now) × IsTrue (is_full self.old)) }
        ensures too_long { (result ≡ Err FileError.TooLong) ↔
            (IsNone (find_file self.old path.now) × (is_full self.old ≡ false) ×
            (MOST_FILE_BYTES < length bytes.now)) }
        ensures answers { IfErr result (λ error. error ≢ FileError.NoFile) }
        ensures err { OnErr result (self.new ≡ self.old) }
    {
        self.check_free(path)?;
        let content = Content::with_bytes(*self.all.allocator(), bytes, event)?;
        Ok(self.insert(path, content)?)
    }

    /// Takes a name away, and answers the number of its file. The file stays while something holds it.
    pub fn unlink(&mut self, path: &[u8]) -> Result<u32, FileError>
        ensures unnamed { IfOk result (λ file. self.new ≡ unnamed self.old path.now file) }
        ensures number { IfOk result (λ file. find_file self.old path.now ≡ Some file) }
        ensures no_file { (result ≡ Err FileError.NoFile) ↔ IsNone (find_file self.old path.now) }
        ensures answers { IfErr result (λ error. error ≡ FileError.NoFile) }
        ensures err { OnErr result (self.new ≡ self.old) }
    {
        match self.names.remove(path) {
            Some(file) => {
                self.drop_unreached(file);
                Ok(file)
            }
            None => Err(FileError::NoFile),
        }
    }

    // Drops a file that has neither a name nor a holder.
    fn drop_unreached(&mut self, file: u32)
        requires { IsThere self.old file }
        ensures { self.new ≡ reached_again self.old file (nth self.old.all file) }
    {
        if self.names.has_file(file) || self.is_held(file) {
            return;
        }
        self.all[file as usize] = None;
        self.present -= 1;
    }

    // Whether something holds the file.
    fn is_held(&self, file: u32) -> bool
        requires { IsThere self.now file }
        ensures { IfSome (nth self.now.all file) (λ f. result ≡ nat_lt 0 f.holders) }
    {
        match &self.all[file as usize] {
            Some(content) => content.is_held(),
            None => unreachable!(),
        }
    }

    /// Counts one more description that stands for the file.
    pub fn hold(&mut self, file: u32)
        requires there { IsThere self.old file }
        requires few { IfSome (nth self.old.all file) (λ f. f.holders < 2 ^ 31) }
        ensures { self.new ≡ held self.old file }
    {
        if let Some(content) = &mut self.all[file as usize] {
            content.hold();
        }
    }

    /// Counts one fewer. A file that has neither a name nor a holder is gone.
    pub fn release(&mut self, file: u32)
        requires there { IsThere self.old file }
        requires held { IsHeld self.old file }
        ensures { self.new ≡ released self.old file }
    {
        if let Some(content) = &mut self.all[file as usize] {
            content.release();
        }
        self.drop_unreached(file);
    }

    /// How many bytes the file has.
    pub fn length(&self, file: u32) -> u32
        requires { IsThere self.now file }
        ensures length { Some result ≡ option_map length (file_bytes self.now file) }
        ensures end { IsPlace self.now file result }
        ensures most { result ≤ MOST_FILE_BYTES }
    {
        match &self.all[file as usize] {
            Some(content) => content.len(),
            None => unreachable!(),
        }
    }

    /// The bytes from a place on, at most `max`, with their origins as the longest runs.
    pub fn read_at(&self, file: u32, at: u32, max: u32) -> Result<Give, NoMemory>
        requires there { IsThere self.now file }
        requires within { IsPlace self.now file at }
        ensures given { IfOk result (λ give.
            Some give ≡ option_map (λ bytes. given (read_from bytes at max)) (file_bytes self.now file)) }
        ensures few_bytes { IfOk result (λ give. length give.bytes ≤ max) }
        ensures few_origins { IfOk result (λ give. length give.origins ≤ max) }
    {
        match &self.all[file as usize] {
            Some(content) => content.read(at as usize, max as usize),
            None => unreachable!(),
        }
    }

    /// Writes bytes of an event at a place, as many as fit, and answers how many.
    pub fn write_at(
        &mut self,
        file: u32,
        at: u32,
        bytes: &[u8],
        event: u64,
    ) -> Result<u32, FileError>
        requires there { IsThere self.old file }
        requires within { IsPlace self.old file at }

        ensures written { OnOk result (self.new ≡ written self.old file at bytes.now event) }
        ensures count { IfOk result (λ count. count ≡ fitting at (length bytes.now)) }

        ensures too_long { (result ≡ Err FileError.TooLong) ↔
            ((at ≡ MOST_FILE_BYTES) × (0 < length bytes.now)) }
        ensures answers { IfErr result IsWriteError }
        ensures err { OnErr result (self.new ≡ self.old) }
    {
        match &mut self.all[file as usize] {
            Some(content) => content.write(at as usize, bytes, event),
            None => unreachable!(),
        }
    }
}
