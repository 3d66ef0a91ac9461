// What one record tells of files.
ghost use Rattle.std.specs.Prelude.{◌≡◌, ◌+◌, ◌<◌, ◌^◌};
ghost use Rattle.acts_model.specs.Records.{event_len};
ghost use Rattle.history_index.specs.Lookups.{events_in};
ghost use Rattle.history_model.specs.Moments.{ran_in};
ghost use Rattle.file_versions.specs.Versions.{brought_by};
ghost use Rattle.file_versions.specs.Tables.{name_in, nothing_before, with_record, write_in};

use crate::names::Naming;
use crate::writes::Writing;
use acts_model::is_event;
use arn_base::{Extra, Record};
use parts_model::calls::{OPEN, UNLINK, WRITE};

/// What comes before a record: instructions, events and files that were brought.
#[derive(Clone, Copy)]
pub struct Before {
    pub ran: u64,
    pub events: u64,
    pub files: u32,
}

fn ran_in(entry: &Record) -> u32
    ensures { result ≡ ran_in entry.now }
{
    match entry {
        Record::Slice { ran, .. } => *ran,
        _ => 0,
    }
}

fn events_in(entry: &Record) -> u64
    ensures { result ≡ events_in entry.now }
{
    is_event(entry).into()
}

fn brought_by(entry: &Record) -> u32
    ensures { result ≡ brought_by entry.now }
{
    match entry {
        Record::File { .. } => 1,
        _ => 0,
    }
}

impl Before {
    pub const NOTHING: Before = Before {
        ran: 0,
        events: 0,
        files: 0,
    };

    /// What comes before the next record.
    pub fn with(self, entry: &Record) -> Before
        requires ran { self.ran + ran_in entry.now < 2 ^ 64 }
        requires events { self.events + 1 < 2 ^ 64 }
        requires files { self.files + 1 < 2 ^ 32 }
        ensures { result ≡ with_record self entry.now }
    {
        Before {
            ran: self.ran + u64::from(ran_in(entry)),
            events: self.events + events_in(entry),
            files: self.files + brought_by(entry),
        }
    }

    /// The name that a record changes.
    pub fn naming<'a>(self, entry: &'a Record) -> Option<Naming<'a>>
        ensures { result ≡ name_in self entry.now }
    {
        match entry {
            Record::File { name, .. } => Some(Naming::new(
                self.ran,
                name.as_slice(),
                Some(self.files),
            )),
            Record::Call {
                number,
                extra: Extra::Name { file, path },
                ..
            } => {
                if *number == OPEN {
                    Some(Naming::new(self.ran, path.as_slice(), Some(*file)))
                } else if *number == UNLINK {
                    Some(Naming::new(self.ran, path.as_slice(), None))
                } else {
                    None
                }
            }
            _ => None,
        }
    }

    /// What a record writes to a file.
    pub fn writing<'a>(self, entry: &'a Record) -> Option<Writing<'a>>
        requires { event_len entry.now < 2 ^ 32 }
        ensures { result ≡ write_in self entry.now }
    {
        match entry {
            Record::File { bytes, .. } => Some(Writing::new(
                self.ran,
                self.events,
                self.files,
                0,
                bytes.as_slice(),
            )),
            Record::Call {
                number,
                extra: Extra::Put { file, at, bytes },
                ..
            } if *number == WRITE => Some(Writing::new(
                self.ran,
                self.events,
                *file,
                *at,
                bytes.as_slice(),
            )),
            _ => None,
        }
    }
}
