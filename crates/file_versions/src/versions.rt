// The versions of files.
ghost use Rattle.std.specs.Prelude.{◌≡◌, ◌<◌, ◌≤◌, ◌^◌, ◌↔◌, ◌++◌, ℕ, [], List, None, Some, Err, map, option_map, option_to_list, IfOk, OnOk};
ghost use Rattle.acts_model.specs.Records.{event_len};
ghost use Rattle.arn_base.specs.declared.records.Record.{Record};
ghost use Rattle.history_index.specs.Indexes.{AreCountable, Indexes};
ghost use Rattle.history_model.specs.Moments.{total};
ghost use Rattle.parts_model.specs.Tagged.{origins_of, values};
ghost use Rattle.file_versions.specs.Versions.{bytes_after, file_at, version_at};
ghost use Rattle.file_versions.specs.Tables.{file_until, name_in, named_until, write_in, writes_until, TellsFiles};

use crate::names::Names;
use crate::told::Before;
use crate::writes::{self, Writing};
use crate::{VersionError, give};
use arn_base::{Bytes, NoMemory, Origins, Record};
use history_index::Index;
use parts_model::TaggedByte;
use std::alloc::Global;
use std::marker::Model;

/// What the records of a history tell of files.
#[derive(Drop)]
pub struct Versions<'a> {
    total: u64,
    names: Names<'a>,
    writes: Vec<Writing<'a>>,
}

impl<'a> Model for Versions<'a> {
    ghost use Rattle.file_versions.specs.Tables.{Tables};

    ghost Value = { Tables };

    ghost view = { λ s. record { total = s.total; names = s.names; writes = s.writes.items } };
}

impl<'a> Versions<'a> {
    /// Of no records, of a history of so many instructions.
    fn empty(alloc: Global, total: u64) -> Versions<'a>
        ensures { result ≡ record { total = total; names = []; writes = [] } }
    {
        Versions {
            total,
            names: Names::new(alloc),
            writes: Vec::new(alloc),
        }
    }

    /// Adds what a record tells of files.
    fn add(&mut self, before: Before, entry: &'a Record) -> Result<(), NoMemory>
        requires short { event_len entry.now < 2 ^ 32 }
        ensures total { OnOk result (self.new.total ≡ self.old.total) }
        ensures names { (moment : ℕ) (name : List ℕ) → OnOk result
            (file_until moment name self.new.names
            ≡ named_until moment name (option_to_list (name_in before entry.now))
            (file_until moment name self.old.names)) }
        ensures writes { OnOk result (self.new.writes ≡
            self.old.writes ++ option_to_list (write_in before entry.now)) }
    {
        if let Some(naming) = before.naming(entry) {
            self.names.add(&naming)?;
        }
        if let Some(writing) = before.writing(entry) {
            self.writes.push(writing)?;
        }
        Ok(())
    }

    /// The bytes of the file that has this name at a moment, with their origins.
    fn held(&self, path: &[u8], moment: u64) -> Result<Vec<TaggedByte>, VersionError>
        ensures ok { IfOk result (λ held. option_map
            (λ file. bytes_after (writes_until moment file self.now.writes))
            (file_until moment path.now self.now.names) ≡ Some held.items) }
        ensures no_moment { (result ≡ Err VersionError.NoMoment) ↔ (self.now.total < moment) }
        ensures no_file { (result ≡ Err VersionError.NoFile) ↔
            ((moment ≤ self.now.total) × (file_until moment path.now self.now.names ≡ None)) }
    {
        if moment > self.total {
            return Err(VersionError::NoMoment);
        }
        match self.names.find(moment, path) {
            Some(file) => {
                let alloc = *self.writes.allocator();
                Ok(writes::bytes(alloc, self.writes.as_slice(), moment, file)?)
            }
            None => Err(VersionError::NoFile),
        }
    }

    /// The versions of files that records tell, of which this is the index.
    pub fn build(
        alloc: Global,
        entries: &'a [Record],
        index: &Index,
    ) -> Result<Versions<'a>, NoMemory>
        requires countable { AreCountable entries.now }
        requires indexed { Indexes index.now entries.now }
        ensures ok { IfOk result (λ made. TellsFiles made entries.now) }
    {
        let mut versions = Versions::empty(alloc, index.total());
        let mut before = Before::NOTHING;
        for entry in entries {
            versions.add(before, entry)?;
            before = before.with(entry);
        }
        Ok(versions)
    }

    /// The bytes of the file that has this name at a moment, each with the event byte that last wrote it.
    pub fn tagged(&self, path: &[u8], moment: u64) -> Result<Vec<TaggedByte>, VersionError>
        ensures ok { (entries : List Record) → TellsFiles self.now entries
            → IfOk result (λ held. version_at entries moment path.now ≡ Some held.items) }
        ensures no_moment { (entries : List Record) → TellsFiles self.now entries
            → (result ≡ Err VersionError.NoMoment) ↔ (total entries < moment) }
        ensures no_file { (entries : List Record) → TellsFiles self.now entries
            → (result ≡ Err VersionError.NoFile) ↔
            ((moment ≤ total entries) × (file_at entries moment path.now ≡ None)) }
    {
        self.held(path, moment)
    }

    /// The bytes of the file that has this name at a moment.
    pub fn content(&self, path: &[u8], moment: u64) -> Result<Bytes, VersionError>
        ensures ok { (entries : List Record) → TellsFiles self.now entries
            → IfOk result (λ bytes. option_map values (version_at entries moment path.now) ≡ Some bytes) }
        ensures no_moment { (entries : List Record) → TellsFiles self.now entries
            → (result ≡ Err VersionError.NoMoment) ↔ (total entries < moment) }
        ensures no_file { (entries : List Record) → TellsFiles self.now entries
            → (result ≡ Err VersionError.NoFile) ↔
            ((moment ≤ total entries) × (file_at entries moment path.now ≡ None)) }
    {
        let held = self.held(path, moment)?;
        Ok(give::content(*held.allocator(), held.as_slice())?)
    }

    /// Which event byte last wrote each byte of the file that has this name at a moment, as the longest runs.
    pub fn origins(&self, path: &[u8], moment: u64) -> Result<Origins, VersionError>
        ensures ok { (entries : List Record) → TellsFiles self.now entries
            → IfOk result (λ origins. option_map (λ held. origins_of (map (λ b. b.origin) held)) (version_at entries moment path.now) ≡ Some origins) }
        ensures no_moment { (entries : List Record) → TellsFiles self.now entries
            → (result ≡ Err VersionError.NoMoment) ↔ (total entries < moment) }
        ensures no_file { (entries : List Record) → TellsFiles self.now entries
            → (result ≡ Err VersionError.NoFile) ↔
            ((moment ≤ total entries) × (file_at entries moment path.now ≡ None)) }
    {
        let held = self.held(path, moment)?;
        Ok(give::origins(*held.allocator(), held.as_slice())?)
    }
}
