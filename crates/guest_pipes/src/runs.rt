// Which events bytes are of, in runs.
ghost use Rattle.std.specs.Prelude.{◌≡◌, ◌≤◌, IfOk, drop, length, take};
ghost use Rattle.parts_model.specs.Tagged.{origins_of};
ghost use Rattle.guest_pipes.specs.Runs.{AreRuns, places_of};

use arn_base::{NoMemory, Origin, Origins};
use std::collections::VecDeque;

/// The first bytes of an event, so many.
#[derive(Clone, Copy)]
pub struct Run {
    pub event: u64,
    pub len: u32,
}

/// The places of the first bytes as the longest runs, where so many bytes of the first run are gone.
pub fn first_origins(runs: &VecDeque<Run>, gone: u32, count: u32) -> Result<Origins, NoMemory>
    requires { AreRuns gone runs.now.items }
    ensures origins { IfOk result (λ origins. origins ≡
        origins_of (take count (drop gone (places_of runs.now.items)))) }
    ensures few { IfOk result (λ origins. length origins ≤ count) }
{
    let mut origins = Origins::new(*runs.allocator());
    let mut at = gone;
    let mut left = count;
    for place in 0..runs.len() {
        if left == 0 {
            break;
        }
        let run = runs[place];
        let len = left.min(run.len - at);
        origins.push(Origin {
            event: run.event,
            at,
            len,
        })?;
        at = 0;
        left -= len;
    }
    Ok(origins)
}

/// Drops the runs of which all bytes are gone, and answers how many are gone of the first that is left.
pub fn drop_gone(runs: &mut VecDeque<Run>, gone: u32) -> u32
    requires runs { AreRuns 0 runs.old.items }
    requires within { gone ≤ length (places_of runs.old.items) }
    ensures places { drop result (places_of runs.new.items) ≡ drop gone (places_of runs.old.items) }
    ensures runs { AreRuns result runs.new.items }
{
    let mut gone = gone;
    while !runs.is_empty() && runs[0].len <= gone {
        gone -= runs[0].len;
        let _ = runs.pop_front();
    }
    gone
}
