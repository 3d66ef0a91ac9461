// What ends a leg: a run of slices.
ghost use Rattle.std.specs.Prelude.{◌≡◌};
ghost use Rattle.guest_legs.specs.Legs.{leg_end as leg_end_of};

use arn_model::RunState;

/// A leg ends behind the slice with which its records' spellings have reached so many bytes.
pub const MOST_LEG: u64 = 262_144;

/// What ended a leg.
#[derive(Clone, Copy, Debug, PartialEq, Eq)]
pub enum LegEnd {
    /// Its records are spelled by as many bytes as a leg may have. The machine can go on.
    More,
    /// As many instructions ran as it may run. The machine can go on.
    Budget,
    /// No process is live.
    Done,
    /// No live process can go on.
    Stalled,
}

/// What a leg did: how many instructions ran, and what ended it.
#[derive(Clone, Copy, Debug, PartialEq, Eq)]
pub struct Leg {
    pub ran: u64,
    pub end: LegEnd,
}

/// A process, and for at most how many instructions it goes on.
#[derive(Clone, Copy)]
pub struct Pick {
    pub pid: u32,
    pub count: u32,
}

/// What ends a leg before the next slice, where so much of the budget is left and its records are
/// spelled by so many bytes.
pub fn leg_end(state: RunState, left: u64, spelled: u64) -> Option<LegEnd>
    ensures { result ≡ leg_end_of state left spelled }
{
    match state {
        RunState::Done => Some(LegEnd::Done),
        RunState::Stalled => Some(LegEnd::Stalled),
        RunState::CanGoOn if left == 0 => Some(LegEnd::Budget),
        RunState::CanGoOn if spelled >= MOST_LEG => Some(LegEnd::More),
        RunState::CanGoOn => None,
    }
}
