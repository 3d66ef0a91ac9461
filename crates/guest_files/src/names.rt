// Names, each with the number of its file.
ghost use Rattle.std.specs.Prelude.{◌≡◌, ◌==◌, [], ◌∷◌, ◌++◌, None, OnOk, OnErr};
ghost use Rattle.std.specs.List.{list_any};
ghost use Rattle.indexmap.specs.IndexMap.{values};
ghost use Rattle.parts_model.specs.Files.{file_among, has_name, without_name};

use arn_base::NoMemory;
use indexmap::IndexMap;
use std::alloc::Global;
use std::marker::Model;

/// Names in the order of their making, each with the number of its file.
#[derive(Drop)]
pub struct Names {
    entries: IndexMap<Vec<u8>, u32>,
}

impl Model for Names {
    ghost use Rattle.std.specs.Prelude.{List};
    ghost use Rattle.parts_model.specs.Files.{Name};
    ghost use Rattle.guest_files.specs.Table.{names_of};

    ghost Value = { List Name };

    ghost view = { λ names. names_of names.entries.entries };
}

// Whether some entry has this number.
fn is_among(entries: &IndexMap<Vec<u8>, u32>, file: u32) -> bool
    ensures { result ≡ list_any (λ number. number == file) (values entries.now) }
{
    entries.values().any(|number| *number == file)
}

impl Names {
    pub fn new(alloc: Global) -> Names
        ensures { result ≡ [] }
    {
        Names {
            entries: IndexMap::new(alloc),
        }
    }

    pub fn find(&self, path: &[u8]) -> Option<u32>
        ensures { result ≡ file_among self.now path.now }
    {
        self.entries.get(path).copied()
    }

    /// Whether some name stands for the file.
    pub fn has_file(&self, file: u32) -> bool
        ensures { result ≡ has_name self.now file }
    {
        is_among(&self.entries, file)
    }

    pub fn add(&mut self, path: &[u8], file: u32) -> Result<(), NoMemory>
        requires { file_among self.old path.now ≡ None }
        ensures ok { OnOk result
            (self.new ≡ self.old ++ record { path = path.now; file = file } ∷ []) }
        ensures err { OnErr result (self.new ≡ self.old) }
    {
        let path = Vec::from_slice(*self.entries.allocator(), path)?;
        self.entries.insert(path, file)?;
        Ok(())
    }

    pub fn remove(&mut self, path: &[u8]) -> Option<u32>
        ensures found { result ≡ file_among self.old path.now }
        ensures rest { self.new ≡ without_name self.old path.now }
    {
        self.entries.shift_remove(path)
    }
}
