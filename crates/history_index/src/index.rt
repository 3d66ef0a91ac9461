// The index.
ghost use Rattle.std.specs.Prelude.{◌≡◌, ℕ, ◌+◌, ◌<◌, ◌≤◌, ◌^◌, false, List, length, take, slice_get, option_and_then, OnOk, OnErr, IfOk, IfErr};
ghost use Rattle.arn_base.specs.declared.records.Record.{Record};
ghost use Rattle.acts_model.specs.Records.{event_len};
ghost use Rattle.history_model.specs.Events.{how_many, len_of};
ghost use Rattle.history_model.specs.Groups as groups;
ghost use Rattle.history_model.specs.Moments as moments;
ghost use Rattle.history_index.specs.After as after;
ghost use Rattle.history_index.specs.Check.{refuses};
ghost use Rattle.history_index.specs.Errors.{Leaves, Refuses, TellsBroken};
ghost use Rattle.history_index.specs.Families.{run_in};
ghost use Rattle.history_index.specs.Indexes.{AreCountable, Indexes};
ghost use Rattle.history_index.specs.Lookups as lookups;
ghost use Rattle.history_index.specs.Tables.{no_tables};

use crate::at_hand::AtHand;
use crate::events::{self, EventAt};
use crate::families::Families;
use crate::{IndexError, SliceAt, check, told};
use acts_model::give_of;
use arn_base::{NoMemory, Record};
use std::alloc::Global;
use std::marker::Model;

/// Tables of a history.
#[derive(Drop)]
pub struct Index {
    records: u64,
    total: u64,
    begins: u64,
    is_booted: bool,
    at_hand: AtHand,
    families: Families,
    events: Vec<EventAt>,
}

impl Model for Index {
    ghost use Rattle.history_index.specs.Tables.{Tables};

    ghost Value = { Tables };

    ghost use Rattle.history_index.specs.AtHand.{behind_of};
    ghost use Rattle.std.specs.Prelude.{length};
    ghost use Rattle.history_index.specs.Bounds.{AreBounded};

    ghost view = { λ s. record {
      records = s.records;
      total = s.total;
      begins = s.begins;
      is_booted = s.is_booted;
      at_hand = behind_of s.at_hand;
      families = s.families;
      events = s.events.items;
    } };

    ghost invariant = { λ s. AreBounded s.records s.total s.families.lives (length s.events.items) };
}

impl Index {
    /// Of no records, with room for so many events.
    fn with_room(alloc: Global, events: usize) -> Result<Index, NoMemory>
        ensures { IfOk result (λ made. made ≡ no_tables) }
    {
        Ok(Index {
            records: 0,
            total: 0,
            begins: 0,
            is_booted: false,
            at_hand: AtHand::Nothing,
            families: Families::new(alloc)?,
            events: Vec::with_capacity(alloc, events)?,
        })
    }

    /// Whether a record can't come next.
    fn refuses(&self, entry: &Record) -> bool
        ensures { result ≡ refuses self.now entry.now }
    {
        check::comes_wrong(self.is_booted, entry)
            || check::lacks_process(&self.families, entry)
            || check::lacks_slice(self.at_hand, entry)
            || !check::are_origins(self.events.as_slice(), give_of(entry))
            || check::has_blocks_wrong(told::start_in(entry))
            || check::misnumbers(self.families.next() as u64, told::child_in(entry))
            || check::misplaces_start(entry)
    }

    /// The event that a record tells next.
    fn event_of(&self, entry: &Record) -> EventAt
        requires few { self.now.records < 2 ^ 32 }
        requires short { event_len entry.now < 2 ^ 32 }
        ensures { result ≡ after.event_of self.now entry.now }
    {
        EventAt {
            moment: events::moment_of(self.begins, self.total, entry),
            place: self.records as u32,
            len: acts_model::event_len(entry) as u32,
            pid: acts_model::process_of(entry),
        }
    }

    /// Adds an event behind the others.
    fn add_event(&mut self, entry: &Record) -> Result<(), NoMemory>
        requires few { self.old.records + 1 < 2 ^ 32 }
        requires short { event_len entry.now < 2 ^ 32 }
        ensures ok { OnOk result (self.new ≡ after.with_event self.old entry.now) }
        ensures err { OnErr result (self.new ≡ self.old) }
    {
        let event = self.event_of(entry);
        self.events.reserve(1)?;
        self.families.tell(self.events.len() as u64, entry)?;
        self.events.push(event)?;
        self.is_booted = self.is_booted || told::is_boot(entry);
        self.at_hand = self.at_hand.after(entry);
        self.records += 1;
        Ok(())
    }

    /// The slice that comes next.
    fn slice_next(&self, pid: u32, ran: u32) -> SliceAt
        requires { self.now.records < 2 ^ 32 }
        ensures { result ≡ after.slice_next self.now pid ran }
    {
        SliceAt {
            place: self.records as u32,
            event: self.events.len() as u32,
            moment: self.total,
            pid,
            ran,
        }
    }

    /// Adds a slice behind the others.
    fn add_slice(&mut self, pid: u32, ran: u32) -> Result<(), NoMemory>
        requires few { self.old.records + 1 < 2 ^ 32 }
        requires counts { (group : ℕ) → (run_in self.old.families.runs group).count ≤ self.old.total }
        ensures ok { OnOk result (self.new ≡ after.with_next self.old pid ran) }
        ensures err { OnErr result (self.new ≡ self.old) }
    {
        let slice = self.slice_next(pid, ran);
        self.families.add_slice(slice)?;
        self.at_hand = AtHand::Slice(pid);
        self.begins = self.total;
        self.total += u64::from(ran);
        self.records += 1;
        Ok(())
    }

    /// Adds a record behind the others.
    fn take(&mut self, entry: &Record) -> Result<(), NoMemory>
        requires few { self.old.records + 1 < 2 ^ 32 }
        requires counts { (group : ℕ) → (run_in self.old.families.runs group).count ≤ self.old.total }
        requires short { event_len entry.now < 2 ^ 32 }
        ensures ok { OnOk result (self.new ≡ after.after self.old entry.now) }
        ensures err { OnErr result (self.new ≡ self.old) }
    {
        match entry {
            Record::Slice { pid, ran } => self.add_slice(*pid, *ran),
            _ => self.add_event(entry),
        }
    }

    /// Adds a record behind the others, if it can stand there.
    fn add(&mut self, entry: &Record) -> Result<(), IndexError>
        requires few { self.old.records + 1 < 2 ^ 32 }
        requires counts { (group : ℕ) → (run_in self.old.families.runs group).count ≤ self.old.total }
        requires short { event_len entry.now < 2 ^ 32 }
        ensures stands { OnOk result (refuses self.old entry.now ≡ false) }
        ensures ok { OnOk result (self.new ≡ after.after self.old entry.now) }
        ensures err { OnErr result (self.new ≡ self.old) }
        ensures refused { IfErr result (Refuses self.old entry.now) }
    {
        if self.refuses(entry) {
            return Err(IndexError::Broken {
                place: self.records_before(),
            });
        }
        Ok(self.take(entry)?)
    }

    fn records_before(&self) -> u64
        ensures { result ≡ self.now.records }
    {
        self.records
    }
}

impl Index {
    fn families(&self) -> &Families
        ensures { result.now ≡ self.now.families }
    {
        &self.families
    }

    fn event_at(&self, event: u64) -> Option<EventAt>
        ensures { result ≡ slice_get self.now.events event }
    {
        self.events.get(event as usize).copied()
    }

    fn pid_at(&self, event: u64) -> Option<u32>
        ensures { result ≡ option_and_then (λ told. told.pid) (slice_get self.now.events event) }
    {
        self.event_at(event)?.pid
    }

    fn event_count(&self) -> usize
        ensures { result ≡ length self.now.events }
    {
        self.events.len()
    }

    fn ran(&self) -> u64
        ensures { result ≡ self.now.total }
    {
        self.total
    }

    /// The index of records.
    pub fn build(alloc: Global, entries: &[Record]) -> Result<Index, IndexError>
        requires countable { AreCountable entries.now }
        ensures ok { IfOk result (λ made. Indexes made entries.now) }
        ensures broken { IfErr result (TellsBroken entries.now) }
    {
        let mut index = Index::with_room(alloc, events::count(entries))?;
        index.extend(entries, 0)?;
        Ok(index)
    }

    /// Takes the records from one on, where the index is that of those before it.
    pub fn extend(&mut self, entries: &[Record], from: usize) -> Result<(), IndexError>
        requires countable { AreCountable entries.now }
        requires inside { from ≤ length entries.now }
        requires indexed { Indexes self.old (take from entries.now) }
        ensures ok { OnOk result (Indexes self.new entries.now) }
        ensures broken { IfErr result (TellsBroken entries.now) }
        ensures left { IfErr result (Leaves entries.now self.new) }
    {
        for place in from..entries.len() {
            self.add(&entries[place])?;
        }
        Ok(())
    }

    /// The group of a process.
    pub fn group_of(&self, pid: u32) -> Option<u32>
        ensures { (entries : List Record) → Indexes self.now entries → result ≡ groups.group_of entries pid }
    {
        self.families().group_of(pid)
    }

    /// The groups, in order of number.
    pub fn groups(&self) -> &[u32]
        ensures { (entries : List Record) → Indexes self.now entries → result.now ≡ lookups.groups_in entries }
    {
        self.families().founders()
    }

    /// The event by which a group begins: the boot, or the fork of its first process.
    pub fn founding_event(&self, group: u32) -> Option<u64>
        ensures { (entries : List Record) → Indexes self.now entries
            → result ≡ lookups.founding_event entries group }
    {
        self.families().founding(group)
    }

    /// The processes of a group, in order of number.
    pub fn members(&self, group: u32) -> &[u32]
        ensures { (entries : List Record) → Indexes self.now entries
            → result.now ≡ lookups.members_of entries group }
    {
        self.families().members(group)
    }

    /// How many instructions a group has run.
    pub fn count(&self, group: u32) -> u64
        ensures { (entries : List Record) → Indexes self.now entries → result ≡ groups.count_of entries group }
    {
        self.families().count(group)
    }

    /// The slices of a group, in order.
    pub fn slices(&self, group: u32) -> &[SliceAt]
        ensures { (entries : List Record) → Indexes self.now entries
            → result.now ≡ lookups.slices_of entries group }
    {
        self.families().slices(group)
    }

    /// The number of an event's record.
    pub fn event_place(&self, event: u64) -> Option<u64>
        ensures { (entries : List Record) → Indexes self.now entries
            → result ≡ lookups.event_place entries event }
    {
        self.event_at(event).map(|told| u64::from(told.place))
    }

    /// The moment of an event: of a delivery, that at which its slice begins; of every other event, that behind the
    /// instructions before it.
    pub fn event_moment(&self, event: u64) -> Option<u64>
        ensures { (entries : List Record) → Indexes self.now entries
            → result ≡ lookups.event_moment entries event }
    {
        self.event_at(event).map(|told| told.moment)
    }

    /// The group of an event's process, if it has one.
    pub fn event_group(&self, event: u64) -> Option<u32>
        ensures { (entries : List Record) → Indexes self.now entries
            → result ≡ groups.event_group entries event }
    {
        match self.pid_at(event) {
            Some(pid) => self.families().group_of(pid),
            None => None,
        }
    }

    /// How many bytes an event has.
    pub fn event_len(&self, event: u64) -> Option<u32>
        ensures { (entries : List Record) → Indexes self.now entries → result ≡ len_of entries event }
    {
        self.event_at(event).map(|told| told.len)
    }

    /// How many events there are.
    pub fn events(&self) -> u64
        ensures { (entries : List Record) → Indexes self.now entries → result ≡ how_many entries }
    {
        self.event_count() as u64
    }

    /// How many instructions have run.
    pub fn total(&self) -> u64
        ensures { (entries : List Record) → Indexes self.now entries → result ≡ moments.total entries }
    {
        self.ran()
    }
}
