// Which file a name stands for, from a moment on.
ghost use Rattle.std.specs.Prelude.{◌≡◌, ℕ, [], List, None, OnOk};
ghost use Rattle.file_versions.specs.Tables.{changed_after, file_after, file_until, name_after};

use arn_base::NoMemory;
use indexmap::IndexMap;
use std::alloc::Global;
use std::marker::Model;

/// A name stands for a file, or for none.
#[derive(Drop)]
pub struct Naming<'a> {
    moment: u64,
    path: &'a [u8],
    file: Option<u32>,
}

impl<'a> Model for Naming<'a> {
    ghost use Rattle.file_versions.specs.Tables.{NameAt};

    ghost Value = { NameAt };

    ghost view = { λ s. record { moment = s.moment; path = s.path.now; file = s.file } };
}

impl<'a> Naming<'a> {
    pub fn new(moment: u64, path: &'a [u8], file: Option<u32>) -> Naming<'a>
        ensures { result ≡ record { moment = moment; path = path.now; file = file } }
    {
        Naming { moment, path, file }
    }
}

/// The file that a name stands for from a moment on, if it stands for one.
#[derive(Clone, Copy)]
pub struct Change {
    pub moment: u64,
    pub file: Option<u32>,
}

impl Change {
    /// The file after the change, if it was done by a moment.
    fn after(self, moment: u64, before: Option<u32>) -> Option<u32>
        ensures { result ≡ changed_after moment self before }
    {
        if self.moment <= moment {
            self.file
        } else {
            before
        }
    }
}

/// The file after changes that were done by a moment.
fn last_file(changes: &[Change], moment: u64) -> Option<u32>
    ensures { result ≡ file_after moment changes.now None }
{
    let mut file = None;
    for change in changes {
        file = change.after(moment, file);
    }
    file
}

/// Names, each with its changes in their order.
#[derive(Drop)]
pub struct Names<'a> {
    changes: IndexMap<&'a [u8], Vec<Change>>,
}

impl<'a> Model for Names<'a> {
    ghost use Rattle.std.specs.Prelude.{List};
    ghost use Rattle.file_versions.specs.Tables.{NameChanges};
    ghost use Rattle.file_versions.specs.Kept.{names_of};

    ghost Value = { List NameChanges };

    ghost view = { λ names. names_of names.changes.entries };
}

impl<'a> Names<'a> {
    pub fn new(alloc: Global) -> Names<'a>
        ensures { result ≡ [] }
    {
        Names {
            changes: IndexMap::new(alloc),
        }
    }

    /// Adds a change of a name behind those that it has.
    pub fn add(&mut self, naming: &Naming<'a>) -> Result<(), NoMemory>
        ensures { (moment : ℕ) (name : List ℕ) → OnOk result (file_until moment name self.new
            ≡ name_after moment name naming.now (file_until moment name self.old)) }
    {
        let Naming { moment, path, file } = *naming;
        let change = Change { moment, file };
        match self.changes.get_mut(path) {
            Some(changes) => changes.push(change)?,
            None => {
                let changes = vec![in *self.changes.allocator(); change]?;
                self.changes.insert(path, changes)?;
            }
        }
        Ok(())
    }

    /// The file that a name stands for at a moment.
    pub fn find(&self, moment: u64, name: &[u8]) -> Option<u32>
        ensures { result ≡ file_until moment name.now self.now }
    {
        let changes = self.changes.get(name)?;
        last_file(changes.as_slice(), moment)
    }
}
