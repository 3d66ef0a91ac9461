// What one record tells by itself.
ghost use Rattle.std.specs.Prelude.{◌≡◌, option_map};
ghost use Rattle.acts_model.specs.Records as records;
ghost use Rattle.history_model.specs.Broken as broken;
ghost use Rattle.history_model.specs.Names as names;
ghost use Rattle.history_index.specs.After.{ended_by};

use acts_model::{LifeTold, child_told, life_told, start_held};
use arn_base::{Record, Start};

pub fn is_boot(entry: &Record) -> bool
    ensures { result ≡ names.is_boot entry.now }
{
    matches!(entry, Record::Boot { .. })
}

/// How a child begins that starts a group.
pub fn start_in(entry: &Record) -> Option<&Start>
    ensures { option_map (λ start. start.now) result ≡ broken.start_in entry.now }
{
    match entry {
        Record::Call { extra, .. } => start_held(extra),
        _ => None,
    }
}

/// The number of the child that a record tells of.
pub fn child_in(entry: &Record) -> Option<u64>
    ensures { result ≡ broken.child_in entry.now }
{
    match child_told(entry) {
        Some(child) => Some(child.number),
        None => None,
    }
}

/// The process that ends.
pub fn ended(entry: &Record) -> Option<u32>
    ensures { result ≡ ended_by (records.life_told entry.now) }
{
    match life_told(entry) {
        LifeTold::Ends(pid) => Some(pid),
        LifeTold::Begins(_) | LifeTold::NoLife => None,
    }
}
