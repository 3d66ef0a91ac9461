// What a group has run.
ghost use Rattle.std.specs.Prelude.{◌≡◌, ◌+◌, ◌<◌, ◌^◌, OnOk, OnErr};
ghost use Rattle.history_index.specs.Runs.{no_run, with_slice};

use crate::SliceAt;
use arn_base::NoMemory;
use std::alloc::Global;
use std::marker::Model;

/// The slices of a group, and how many instructions they count.
#[derive(Drop)]
pub struct Run {
    count: u64,
    slices: Vec<SliceAt>,
}

impl Model for Run {
    ghost use Rattle.history_index.specs.Runs.{Run};

    ghost Value = { Run };

    ghost view = { λ s. record { count = s.count; slices = s.slices.items } };
}

impl Run {
    pub fn new(alloc: Global) -> Run
        ensures { result ≡ no_run }
    {
        Run {
            count: 0,
            slices: Vec::new(alloc),
        }
    }

    pub fn count(&self) -> u64
        ensures { result ≡ self.now.count }
    {
        self.count
    }

    pub fn slices(&self) -> &[SliceAt]
        ensures { result.now ≡ self.now.slices }
    {
        self.slices.as_slice()
    }

    /// Adds a slice behind the others.
    pub fn add(&mut self, slice: SliceAt) -> Result<(), NoMemory>
        requires { self.old.count + slice.ran < 2 ^ 64 }
        ensures ok { OnOk result (self.new ≡ with_slice self.old slice) }
        ensures err { OnErr result (self.new ≡ self.old) }
    {
        self.slices.push(slice)?;
        self.count += u64::from(slice.ran);
        Ok(())
    }
}
