// Whether 32 bits count records, and the bytes of each.
ghost use Rattle.std.specs.Prelude.{◌<◌, ◌^◌, ◌↔◌, All, IsTrue};
ghost use Rattle.acts_model.specs.Records.{event_len};
ghost use Rattle.history_index.specs.Indexes.{AreCountable};

use arn_base::Record;

fn are_short(entries: &[Record]) -> bool
    ensures { IsTrue result ↔ All (λ entry. event_len entry < 2 ^ 32) entries.now }
{
    entries
        .iter()
        .all(|entry| acts_model::event_len(entry) < 1 << 32)
}

/// Whether 32 bits count the records, and the bytes of each.
pub fn are_countable(entries: &[Record]) -> bool
    ensures { IsTrue result ↔ AreCountable entries.now }
{
    entries.len() < 1 << 32 && are_short(entries)
}
