// Which records can't stand next.
ghost use Rattle.std.specs.Prelude.{◌≡◌, ◌==◌, ◌+◌, ◌*◌, ◌&&◌, nat_le, Some, option_map};
ghost use Rattle.std.specs.List.{list_all};
ghost use Rattle.history_model.specs.Broken as broken;
ghost use Rattle.history_index.specs.AtHand.{behind_of};
ghost use Rattle.history_index.specs.Check as check;

use crate::at_hand::AtHand;
use crate::events::EventAt;
use crate::families::Families;
use crate::told;
use arn_base::{Block, Give, Origin, Record, Start};
use parts_model::limits::{BLOCK_LEN, WINDOW_LEN};

/// Whether it comes on the wrong side of the boot.
pub fn comes_wrong(is_booted: bool, entry: &Record) -> bool
    ensures { result ≡ check.comes_wrong_by is_booted entry.now }
{
    match entry {
        Record::File { .. } | Record::Boot { .. } => is_booted,
        Record::Typed { .. } | Record::Unplug { .. } | Record::Slice { .. } => !is_booted,
        Record::Signal { .. } | Record::Call { .. } | Record::End { .. } => false,
    }
}

/// Whether it is a slice of a process that doesn't live.
pub fn lacks_process(families: &Families, entry: &Record) -> bool
    ensures { result ≡ check.lacks_process_by families.now.lives entry.now }
{
    match entry {
        Record::Slice { pid, .. } => !families.is_live(*pid),
        _ => false,
    }
}

/// Whether it is an event of a process that isn't behind a slice of its own.
pub fn lacks_slice(at_hand: AtHand, entry: &Record) -> bool
    ensures { result ≡ check.lacks_slice_by (behind_of at_hand) entry.now }
{
    match entry {
        Record::Signal { pid, .. } | Record::Call { pid, .. } | Record::End { pid, .. } => {
            !at_hand.is_of(*pid)
        }
        _ => false,
    }
}

fn is_origin(events: &[EventAt], origin: &Origin) -> bool
    ensures { result ≡ check.is_origin_by events.now origin.now }
{
    events
        .get(origin.event as usize)
        .is_some_and(|event| lies_within(origin, event.len))
}

fn lies_within(origin: &Origin, len: u32) -> bool
    ensures { result ≡ broken.lies_in_event origin.now (Some len) }
{
    origin.len > 0 && u64::from(origin.at) + u64::from(origin.len) <= u64::from(len)
}

/// Whether origins name so many bytes.
#[tactic(auto, using(std::proofs::lemmas::Bool::Decides::nat_tests))]
fn have_len(origins: &[Origin], len: u64) -> bool
    ensures { result ≡ (broken.origins_len origins.now == len) }
{
    let mut left = len;
    for origin in origins {
        match left.checked_sub(u64::from(origin.len)) {
            Some(rest) => left = rest,
            None => return false,
        }
    }
    left == 0
}

/// Whether bytes have origins that name earlier ones, one for each.
pub fn are_origins(events: &[EventAt], give: Option<&Give>) -> bool
    ensures { result ≡ check.are_origins_by events.now (option_map (λ give. give.now) give.entry) }
{
    match give {
        None => true,
        Some(give) => are_origins_of(events, give),
    }
}

fn all_lie(events: &[EventAt], origins: &[Origin]) -> bool
    ensures { result ≡ list_all (check.is_origin_by events.now) origins.now }
{
    origins.iter().all(|origin| is_origin(events, origin))
}

fn are_origins_of(events: &[EventAt], give: &Give) -> bool
    ensures { result ≡ check.are_origins_by events.now (Some give.now) }
{
    let origins = give.origins.as_slice();
    all_lie(events, origins) && have_len(origins, give.bytes.len() as u64)
}

/// Whether a block may come where the numbers go on from the least, and lies in the window.
fn may_come(least: u64, block: &Block) -> bool
    ensures { result ≡ (nat_le least block.now.number && nat_le (BLOCK_LEN * (block.now.number + 1)) WINDOW_LEN) }
{
    least <= u64::from(block.number)
        && BLOCK_LEN as u64 * (u64::from(block.number) + 1) <= WINDOW_LEN
}

/// Whether blocks rise and lie in the window.
fn rise(blocks: &[Block]) -> bool
    ensures { result ≡ broken.rise_from 0 blocks.now }
{
    let mut least = 0;
    for block in blocks {
        if !may_come(least, block) {
            return false;
        }
        least = u64::from(block.number) + 1;
    }
    true
}

pub fn has_blocks_wrong(start: Option<&Start>) -> bool
    ensures { result ≡ broken.has_blocks_wrong (option_map (λ start. start.now) start.entry) }
{
    match start {
        None => false,
        Some(start) => !rise(start.blocks.as_slice()),
    }
}

/// Whether a child's number isn't the next.
pub fn misnumbers(next: u64, child: Option<u64>) -> bool
    ensures { result ≡ check.misnumbers_by next child }
{
    child.is_some_and(|child| child != next)
}

/// Whether it tells how a child begins and made none.
pub fn misplaces_start(entry: &Record) -> bool
    ensures { result ≡ broken.misplaces_start entry.now }
{
    told::start_in(entry).is_some() && told::child_in(entry).is_none()
}
