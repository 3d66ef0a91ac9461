// Whether a process lives.
ghost use Rattle.std.specs.Prelude.{◌≡◌};
ghost use Rattle.acts_model.specs.Records.{life_told};
ghost use Rattle.history_index.specs.Indexes.{Indexes};
ghost use Rattle.history_model.specs.Moments.{lives_at};
ghost use Rattle.past_lives.specs.Happened as told;

use crate::events::happened;
use acts_model::{LifeTold, life_told};
use arn_base::Record;
use history_index::Index;

/// A process that begins or ends, and whether it lives from then on.
#[derive(Clone, Copy)]
pub struct Life {
    pub pid: u64,
    pub lives: bool,
}

/// Which process begins or ends at an event, if one does.
pub fn told_by(entry: &Record) -> Option<Life>
    ensures { result ≡ told.change_in (life_told entry.now) }
{
    match life_told(entry) {
        LifeTold::Begins(pid) => Some(Life { pid, lives: true }),
        LifeTold::Ends(pid) => Some(Life {
            pid: u64::from(pid),
            lives: false,
        }),
        LifeTold::NoLife => None,
    }
}

// Whether a process lives after an event, if that is its begin or its end.
fn life_after(entry: &Record, pid: u32) -> Option<bool>
    ensures { result ≡ told.life_after (life_told entry.now) pid }
{
    match told_by(entry) {
        Some(life) if life.pid == u64::from(pid) => Some(life.lives),
        _ => None,
    }
}

/// Whether a process lives at a moment: as the last of its begins and ends tells.
pub fn lives(entries: &[Record], index: &Index, moment: u64, pid: u32) -> bool
    requires indexed { Indexes index.now entries.now }
    ensures { result ≡ lives_at entries.now moment pid }
{
    let events = index.events();
    for back in 0..events {
        if let Some(entry) = happened(entries, index, moment, events - 1 - back) {
            if let Some(lives) = life_after(entry, pid) {
                return lives;
            }
        }
    }
    false
}
