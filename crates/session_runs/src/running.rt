// The line that runs the machine.
ghost use Rattle.std.specs.Prelude.{◌≡◌, ◌-◌, ◌<◌, ◌≤◌, ℕ, Some, length, IfOk, IfErr, OnOk};
ghost use Rattle.arn_lines.specs.declared.line.TheConstants.{MOST_RUN};
ghost use Rattle.session_effects.specs.Outside.{GoesOnOutside, IsCauseOutside};
ghost use Rattle.session_effects.specs.Standing.{IsOpen};
ghost use Rattle.session_runs.specs.Ready.{IsReady, machine_of};
ghost use Rattle.session_runs.specs.Runs.{begun, ends, end_told, run as run_of, run_from};
ghost use Rattle.session_runs.specs.Standing.{HaltsBehind, Proceeds, standing};
ghost use Rattle.session_runs.specs.Touches.{answering};
ghost use Rattle.session_runs.specs.Turns.{finished};

use crate::law::points_follow;
use crate::outputs::push_outputs;
use crate::printing::print_ran;
use crate::ready::{count_records, history_laws};
use crate::runs::MachineRuns;
use arn_base::{Chooser, Disk, Sink};
use arn_lines::RunEnd;
use guest_devices::Plugs;
use guest_machine::{Leg, LegEnd, Machine};
use log_store::Store;
use session_effects::{
    Halt, Outside, causes_follow, commit, effects_follow, goings_follow, halts_follow, put_all,
};
use std::alloc::Global;
use std::sync::ledger::Ledger;

/// Runs up to so many instructions in slices that a chooser picks, leg by leg: each leg is committed
/// before what it wrote is printed.
pub fn run<C: Chooser, A: Plugs, D: Disk, K: Sink, L: Ledger>(
    alloc: Global,
    store: &mut Store,
    machine: &mut Machine,
    count: u64,
    outside: &mut Outside<C, A, D, K, L>,
) -> Result<(), Halt>
    requires open { IsOpen D.Disk store.old outside.old.disk.now }
    requires ready { IsReady machine.old store.old.entries }
    requires few { count ≤ MOST_RUN }
    ensures ready { OnOk result (IsReady machine.new store.new.entries) }
    ensures advances { OnOk result (
        Proceeds D.Disk (answering A.answers A.unplugs A.filled)
        (run_of (machine_of store.old.entries) count) finished 0
        (standing C.choices K.holds store.old outside.old)
        (standing C.choices K.holds store.new outside.new)) }
    ensures stops { IfErr result (λ halt.
        HaltsBehind D.Disk (answering A.answers A.unplugs A.filled) halt
        (run_of (machine_of store.old.entries) count) 0
        (standing C.choices K.holds store.old outside.old)
        (standing C.choices K.holds store.new outside.new)) }
    ensures cause { IfErr result (λ halt.
        IsCauseOutside D.Disk K.faults halt outside.old outside.new) }
    ensures goes_on { GoesOnOutside D.Disk K.faults outside.old outside.new }
{
    points_follow::<MachineRuns, D, A>();
    effects_follow::<MachineRuns, D>();
    halts_follow::<MachineRuns, D>();
    causes_follow::<D>();
    goings_follow::<C, A, D, K, L>();
    let mut left = count;
    let mut end = None;
    while end.is_none() {
        count_records(store);
        let leg = run_leg(alloc, store, machine, left, outside)?;
        left -= leg.ran;
        end = run_end(leg.end);
    }
    match end {
        Some(end) => print_ran(outside.text, count - left, end, outside.sink),
        None => unreachable!(),
    }
}

// Runs a leg, commits its records, and then prints what it wrote.
fn run_leg<C: Chooser, A: Plugs, D: Disk, K: Sink, L: Ledger>(
    alloc: Global,
    store: &mut Store,
    machine: &mut Machine,
    left: u64,
    outside: &mut Outside<C, A, D, K, L>,
) -> Result<Leg, Halt>
    requires open { IsOpen D.Disk store.old outside.old.disk.now }
    requires ready { IsReady machine.old store.old.entries }
    requires few { left ≤ MOST_RUN }
    ensures ready { OnOk result (IsReady machine.new store.new.entries) }
    ensures advances { IfOk result (λ leg. (budget : ℕ) →
        Proceeds D.Disk (answering A.answers A.unplugs A.filled)
        (run_from budget (begun (machine_of store.old.entries) left))
        (run_from budget (begun (machine_of store.new.entries) (left - leg.ran))) 0
        (standing C.choices K.holds store.old outside.old)
        (standing C.choices K.holds store.new outside.new)) }
    ensures end { IfOk result (λ leg.
        ends (begun (machine_of store.new.entries) (left - leg.ran)) ≡ end_told leg.end) }
    ensures within { IfOk result (λ leg. leg.ran ≤ left) }
    ensures more { IfOk result (λ leg. leg.end ≡ LegEnd.More →
        length store.old.entries < length store.new.entries) }
    ensures stops { IfErr result (λ halt. (budget : ℕ) →
        HaltsBehind D.Disk (answering A.answers A.unplugs A.filled) halt
        (run_from budget (begun (machine_of store.old.entries) left)) 0
        (standing C.choices K.holds store.old outside.old)
        (standing C.choices K.holds store.new outside.new)) }
    ensures cause { IfErr result (λ halt.
        IsCauseOutside D.Disk K.faults halt outside.old outside.new) }
    ensures goes_on { GoesOnOutside D.Disk K.faults outside.old outside.new }
{
    effects_follow::<MachineRuns, D>();
    halts_follow::<MachineRuns, D>();
    count_records(store);
    history_laws();
    let event = machine.events();
    let mut entries = Vec::new(alloc);
    let leg = machine.run_leg_from(
        left,
        outside.chooser,
        outside.answers,
        &mut entries,
        outside.steps,
    )?;
    if entries.is_empty() {
        return Ok(leg);
    }
    outside.text.clear();
    push_outputs(outside.text, event, entries.as_slice())?;
    commit::<MachineRuns, D>(store, outside.disk, entries)?;
    put_all(outside.sink, outside.text.as_bytes())?;
    Ok(leg)
}

// How a run ends with a leg, if it does.
fn run_end(end: LegEnd) -> Option<RunEnd>
    ensures { result ≡ end_told end }
{
    match end {
        LegEnd::More => None,
        LegEnd::Done => Some(RunEnd::Done),
        LegEnd::Stalled => Some(RunEnd::Stalled),
        LegEnd::Budget => Some(RunEnd::Budget),
    }
}
