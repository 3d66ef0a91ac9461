// Which processes can go on, and which of them does.
ghost use Rattle.std.specs.Prelude.{◌≡◌, ℕ, ◌+◌, ◌<◌, ◌≤◌, ◌++◌, ◌∷◌, [], IfSome, IsTrue, length, slice_get};
ghost use Rattle.arn_model.specs.Turn.{is_possible, is_runnable, run_state as run_state_of, runnable};
ghost use Rattle.guest_legs.specs.Legs.{brought, ask};
ghost use Rattle.guest_machine.specs.Able.{AreAble, first_of};
ghost use Rattle.guest_machine.specs.Recorded.{IsReal, OfEach};

use arn_base::Chooser;
use arn_model::RunState;
use arrayvec::ArrayVec;
use guest_calls::Kernel;
use guest_legs::Pick;
use parts_model::limits::{MOST_PROCESSES, MOST_SLICE};

/// Of how many processes that can go on the numbers are kept: of all, since no more may live at once.
pub const MOST_KEPT: usize = MOST_PROCESSES as usize;

/// The processes that can go on: how many there are, and the numbers of the first of them, in order.
#[derive(Drop)]
pub struct Able {
    pub count: usize,
    pub first: ArrayVec<u32, MOST_KEPT>,
}

/// Whether a process can go on. One that doesn't live can't.
pub fn can_go_on(kernel: &Kernel, pid: u32) -> bool
    ensures { OfEach kernel.now (λ m. result ≡ is_runnable m pid) }
{
    kernel.is_live(pid) && kernel.runnable(pid)
}

// Puts the number of one more process behind those that are kept, where there is room.
fn keep(first: &mut ArrayVec<u32, MOST_KEPT>, pid: u32)
    ensures { first.new.items ≡ first_of (first.old.items ++ pid ∷ []) }
{
    if first.len() < MOST_KEPT {
        first.push(pid);
    }
}

/// The processes that can go on. Each that lives is asked once.
pub fn scan(kernel: &Kernel) -> Able
    ensures { OfEach kernel.now (λ m. AreAble m result) }
{
    let pids = kernel.live();
    let mut count = 0;
    let mut first = ArrayVec::new();
    for pid in pids {
        if can_go_on(kernel, *pid) {
            keep(&mut first, *pid);
            count += 1;
        }
    }
    Able { count, first }
}

// The process at a place among those that can go on, in order of number, where none are kept.
fn able_at(kernel: &Kernel, place: usize) -> Option<u32>
    ensures { OfEach kernel.now (λ m. result ≡ slice_get (runnable m) place) }
{
    let pids = kernel.live();
    let mut before = 0;
    for pid in pids {
        if can_go_on(kernel, *pid) {
            if before == place {
                return Some(*pid);
            }
            before += 1;
        }
    }
    None
}

// The number at a place, if there is one.
fn number_at(pids: &[u32], place: usize) -> Option<u32>
    ensures { result ≡ slice_get pids.now place }
{
    pids.get(place).copied()
}

// The process at a place among those that can go on, in order of number. None is asked again that is kept.
fn process_at(kernel: &Kernel, able: &Able, place: usize) -> Option<u32>
    requires able { OfEach kernel.now (λ m. AreAble m able.now) }
    ensures { OfEach kernel.now (λ m. result ≡ slice_get (runnable m) place) }
{
    if place < MOST_KEPT {
        number_at(able.first.as_slice(), place)
    } else {
        able_at(kernel, place)
    }
}

/// How a machine stands before a slice, where these processes can go on.
pub fn run_state(kernel: &Kernel, able: &Able) -> RunState
    requires able { OfEach kernel.now (λ m. AreAble m able.now) }
    ensures { OfEach kernel.now (λ m. result ≡ run_state_of m) }
{
    if kernel.live().is_empty() {
        RunState::Done
    } else if able.count == 0 {
        RunState::Stalled
    } else {
        RunState::CanGoOn
    }
}

/// The slice that a chooser picks, where these processes can go on and so many instructions are left.
pub fn pick_slice<C: Chooser>(kernel: &Kernel, able: &Able, left: u64, chooser: &mut C) -> Pick
    requires real { IsReal kernel.now }
    requires able { OfEach kernel.now (λ m. AreAble m able.now) }
    requires can { OfEach kernel.now (λ m. RunState.CanGoOn ≡ run_state_of m) }
    requires left { 0 < left }
    ensures picked { OfEach kernel.now (λ m. IfSome (C.choices chooser.old 0) (λ choice.
        result ≡ brought (ask m left) choice)) }
    ensures later { (k : ℕ) → C.choices chooser.new k ≡ C.choices chooser.old (k + 1) }
    ensures possible { OfEach kernel.now (λ m. IsTrue (is_possible m result.pid result.count)) }
    ensures some { 0 < result.count }
    ensures within { result.count ≤ left }
{
    let choice = chooser.choose(u32::try_from(able.count).unwrap_or(u32::MAX));
    let count = u64::from(choice.count.max(1)).min(MOST_SLICE).min(left) as u32;
    match process_at(kernel, able, choice.index as usize % able.count) {
        Some(pid) => Pick { pid, count },
        None => unreachable!(),
    }
}
