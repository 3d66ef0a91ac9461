// What commands do.
ghost use Rattle.std.specs.Prelude.{◌≡◌, ◌||◌, ◌+◌, ◌≤◌, ◌++◌, ℕ, Bool, List, [], All, None, OnOk, IfErr, false, is_some, option_map, string_bytes, true};
ghost use Rattle.arn_base.specs.Faults.{NeverFalls};
ghost use Rattle.arn_base.specs.declared.records.Record.{Record};
ghost use Rattle.arn_commands.specs.Sizes.{Fits, LineFits};
ghost use Rattle.arn_commands.specs.declared.command.Command.TheVariants.{Says};
ghost use Rattle.arn_lines.specs.declared.line.Line.TheVariants.{Asks, Run, Unplug};
ghost use Rattle.arn_lines.specs.declared.line.Question.{Question};
ghost use Rattle.log_model.specs.Records.{IsRun};
ghost use Rattle.result_log.specs.Spelling.{HasSpelling};
ghost use Rattle.session_effects.specs.Outside.{GoesOnOutside, IsCauseOutside};
ghost use Rattle.session_effects.specs.Printing.{StopsPut};
ghost use Rattle.session_effects.specs.Standing.{IsCause, IsOpen};
ghost use Rattle.session_commands.specs.Answering.{BlamesRightly, IsAnswered, IsHalted, IsLineCause};
ghost use Rattle.session_commands.specs.Cost.{machine_cost};
ghost use Rattle.session_commands.specs.Events.{IncomingFits, incoming_refusal, input_of};
ghost use Rattle.session_commands.specs.Given.{Given, given};
ghost use Rattle.session_commands.specs.Kept.{IsSound, IsThere};
ghost use Rattle.session_commands.specs.Lines.{needs_machine};
ghost use Rattle.session_commands.specs.Rows.{LineTells, becomes, row_of};
ghost use Rattle.session_model.specs.Questions.{Told};
ghost use Rattle.session_runs.specs.Ready.{IsReady};
ghost use Rattle.session_runs.specs.Standing.{HaltsBehind, Proceeds, standing};
ghost use Rattle.session_runs.specs.Touches.{answering};
ghost use Rattle.session_runs.specs.Turns.{finished};

use crate::events::{Incoming, add_event};
use crate::generating::answer_generator;
use crate::kept::Kept;
use crate::printing::print_refusal;
use crate::ready::{make_machine, tell_questions};
use crate::rows::{command_refusal, needs_machine};
use crate::unplugging::unplug_device;
use arn_base::{Chooser, Disk, NoMemory, Sink, Steps};
use arn_commands::Command;
use arn_lines::Line;
use guest_devices::Plugs;
use guest_machine::Machine;
use log_store::{Store, store_is_short};
use session_effects::{Halt, Outside, effects_follow, halts_follow, put_all};
use session_model::Questions;
use session_runs::{MachineRuns, points_follow, run};
use std::alloc::Global;
use std::sync::ledger::Ledger;

/// Does what a command asks for: commits what it adds to the history, and prints its answer.
pub fn answer<Q: Questions, C: Chooser, A: Plugs, D: Disk, K: Sink, L: Ledger>(
    kept: &mut Kept<Q>,
    command: Command,
    outside: &mut Outside<C, A, D, K, L>,
) -> Result<(), Halt>
    requires open { IsOpen D.Disk kept.old.store outside.old.disk.now }
    requires sound { IsSound Q.knows kept.old.machine kept.old.questions kept.old.store.entries }
    requires fits { Fits command }

    ensures sound { OnOk result
        (IsSound Q.knows kept.new.machine kept.new.questions kept.new.store.entries) }
    ensures there { OnOk result (is_some kept.new.machine ≡
        is_some kept.old.machine || needs_machine
        (given Q.told (A.filled outside.old.answers.now)) kept.old.store.entries command) }
    ensures answered { OnOk result
        (IsAnswered D.Disk (answering A.answers A.unplugs A.filled)
        (given Q.told (A.filled outside.old.answers.now)) (is_some kept.old.machine) command
        (standing C.choices K.holds kept.old.store outside.old)
        (standing C.choices K.holds kept.new.store outside.new)) }

    ensures halted { IfErr result (λ halt.
        IsHalted D.Disk (answering A.answers A.unplugs A.filled)
        (given Q.told (A.filled outside.old.answers.now)) (is_some kept.old.machine) halt command
        (standing C.choices K.holds kept.old.store outside.old)
        (standing C.choices K.holds kept.new.store outside.new)) }
    ensures blames { IfErr result (λ halt.
        BlamesRightly (given Q.told (A.filled outside.old.answers.now))
        (is_some kept.old.machine) halt command
        (standing C.choices K.holds kept.old.store outside.old)
        (standing C.choices K.holds kept.new.store outside.new)) }
    ensures cause { IfErr result (λ halt. IsLineCause halt
        (D.faults outside.old.disk.now) (D.faults outside.new.disk.now)
        (K.faults outside.old.sink.now) (K.faults outside.new.sink.now)) }

    ensures goes_on { GoesOnOutside D.Disk K.faults outside.old outside.new }
{
    effects_follow::<MachineRuns, D>();
    halts_follow::<MachineRuns, D>();
    if let Some(why) = command_refusal(kept.store.entries(), &command, &*outside.answers) {
        drop(command);
        return print_refusal(outside.text, why, outside.sink);
    }
    match &command {
        Command::PassedOver => {
            drop(command);
            Ok(())
        }
        Command::Says { line } => {
            let answered = answer_line(kept, line, outside);
            drop(command);
            answered
        }
        Command::Generates {
            image,
            typed,
            processes,
        } => {
            let (image, typed) = (image.as_slice(), typed.as_slice());
            let answered = answer_generator(kept, image, typed, *processes, outside);
            drop(command);
            answered
        }
        _ => unreachable!(),
    }
}

// Does what a line of the grammar says that isn't refused.
fn answer_line<Q: Questions, C: Chooser, A: Plugs, D: Disk, K: Sink, L: Ledger>(
    kept: &mut Kept<Q>,
    line: &Line,
    outside: &mut Outside<C, A, D, K, L>,
) -> Result<(), Halt>
    requires open { IsOpen D.Disk kept.old.store outside.old.disk.now }
    requires sound { IsSound Q.knows kept.old.machine kept.old.questions kept.old.store.entries }
    requires fits { LineFits line.now }
    requires accepted { (row_of (given Q.told (A.filled outside.old.answers.now))
        kept.old.store.entries line.now).refusal ≡ None }

    ensures sound { OnOk result
        (IsSound Q.knows kept.new.machine kept.new.questions kept.new.store.entries) }
    ensures there { OnOk result (is_some kept.new.machine ≡
        is_some kept.old.machine || needs_machine
        (given Q.told (A.filled outside.old.answers.now)) kept.old.store.entries (Says line.now)) }
    ensures answered { OnOk result
        (IsAnswered D.Disk (answering A.answers A.unplugs A.filled)
        (given Q.told (A.filled outside.old.answers.now)) (is_some kept.old.machine) (Says line.now)
        (standing C.choices K.holds kept.old.store outside.old)
        (standing C.choices K.holds kept.new.store outside.new)) }

    ensures halted { IfErr result (λ halt.
        IsHalted D.Disk (answering A.answers A.unplugs A.filled)
        (given Q.told (A.filled outside.old.answers.now))
        (is_some kept.old.machine) halt (Says line.now)
        (standing C.choices K.holds kept.old.store outside.old)
        (standing C.choices K.holds kept.new.store outside.new)) }
    ensures blames { IfErr result (λ halt.
        BlamesRightly (given Q.told (A.filled outside.old.answers.now))
        (is_some kept.old.machine) halt (Says line.now)
        (standing C.choices K.holds kept.old.store outside.old)
        (standing C.choices K.holds kept.new.store outside.new)) }
    ensures cause { IfErr result (λ halt. IsLineCause halt
        (D.faults outside.old.disk.now) (D.faults outside.new.disk.now)
        (K.faults outside.old.sink.now) (K.faults outside.new.sink.now)) }

    ensures goes_on { GoesOnOutside D.Disk K.faults outside.old outside.new }
{
    effects_follow::<MachineRuns, D>();
    halts_follow::<MachineRuns, D>();
    if needs_machine(line) {
        return change(kept, line, outside);
    }
    tell(kept, line, outside.text, outside.sink, outside.steps)
}

// Prints what a line tells that needs no machine.
fn tell<Q: Questions, K: Sink, L: Ledger>(
    kept: &mut Kept<Q>,
    line: &Line,
    text: &mut String,
    sink: &mut K,
    steps: &mut Steps<L>,
) -> Result<(), Halt>
    requires known { Q.knows kept.old.questions kept.old.store.entries }
    requires spelled { All HasSpelling kept.old.store.entries }
    requires needless { (g : Given) →
        (row_of g kept.old.store.entries line.now).needs_machine ≡ false }
    ensures known { OnOk result (Q.knows kept.new.questions kept.old.store.entries) }
    ensures store { kept.new.store ≡ kept.old.store }
    ensures machine { kept.new.machine ≡ kept.old.machine }
    ensures ok { OnOk result ((filled : ℕ → Bool) (text : List ℕ) →
        LineTells (given Q.told filled) kept.old.store.entries line.now text →
        K.holds sink.new ≡ option_map (λ held. held ++ text) (K.holds sink.old)) }
    ensures stops { IfErr result (λ halt. (filled : ℕ → Bool) (text : List ℕ) →
        LineTells (given Q.told filled) kept.old.store.entries line.now text →
        StopsPut halt text (K.holds sink.old) (K.holds sink.new)) }
    ensures cause { IfErr result (λ halt. (faults : ℕ) →
        IsCause halt faults faults (K.faults sink.old) (K.faults sink.new)) }
    ensures faults { NeverFalls (K.faults sink.old) (K.faults sink.new) }
    ensures steps { (filled : ℕ → Bool) → steps.new ≤ steps.old +
        (row_of (given Q.told filled) kept.old.store.entries line.now).cost }
{
    text.clear();
    push_told(kept, line, text, steps)?;
    put_all(sink, text.as_bytes())
}

// Puts behind a text what a line tells that needs no machine.
fn push_told<Q: Questions, L: Ledger>(
    kept: &mut Kept<Q>,
    line: &Line,
    text: &mut String,
    steps: &mut Steps<L>,
) -> Result<(), NoMemory>
    requires known { Q.knows kept.old.questions kept.old.store.entries }
    requires spelled { All HasSpelling kept.old.store.entries }
    requires needless { (g : Given) →
        (row_of g kept.old.store.entries line.now).needs_machine ≡ false }
    requires empty { string_bytes text.old ≡ [] }
    ensures known { OnOk result (Q.knows kept.new.questions kept.old.store.entries) }
    ensures store { kept.new.store ≡ kept.old.store }
    ensures machine { kept.new.machine ≡ kept.old.machine }
    ensures told { OnOk result ((filled : ℕ → Bool) →
        LineTells (given Q.told filled) kept.old.store.entries line.now (string_bytes text.new)) }
    ensures steps { (filled : ℕ → Bool) → steps.new ≤ steps.old +
        (row_of (given Q.told filled) kept.old.store.entries line.now).cost }
{
    match line {
        Line::Asks { question } => {
            store_is_short(&kept.store);
            kept.questions
                .answer(kept.store.entries(), question, text, steps)
        }
        Line::File { .. }
        | Line::Boot { .. }
        | Line::Type { .. }
        | Line::Run { .. }
        | Line::Unplug { .. } => unreachable!(),
    }
}

// Does what a line says that isn't refused and goes on with the machine.
fn change<Q: Questions, C: Chooser, A: Plugs, D: Disk, K: Sink, L: Ledger>(
    kept: &mut Kept<Q>,
    line: &Line,
    outside: &mut Outside<C, A, D, K, L>,
) -> Result<(), Halt>
    requires open { IsOpen D.Disk kept.old.store outside.old.disk.now }
    requires sound { IsSound Q.knows kept.old.machine kept.old.questions kept.old.store.entries }
    requires fits { LineFits line.now }
    requires needs { (g : Given) →
        (row_of g kept.old.store.entries line.now).needs_machine ≡ true }
    requires accepted { (row_of (given Q.told (A.filled outside.old.answers.now))
        kept.old.store.entries line.now).refusal ≡ None }

    ensures sound { OnOk result
        (IsSound Q.knows kept.new.machine kept.new.questions kept.new.store.entries) }
    ensures there { OnOk result (is_some kept.new.machine ≡ true) }
    ensures on_run { OnOk result (IsRun kept.old.store.entries) }
    ensures advances { OnOk result (
        Proceeds D.Disk (answering A.answers A.unplugs A.filled)
        (row_of (given Q.told (A.filled outside.old.answers.now))
        kept.old.store.entries line.now).turn finished
        (machine_cost (is_some kept.old.machine) kept.old.store.entries)
        (standing C.choices K.holds kept.old.store outside.old)
        (standing C.choices K.holds kept.new.store outside.new)) }

    ensures halted { IfErr result (λ halt.
        IsHalted D.Disk (answering A.answers A.unplugs A.filled)
        (given Q.told (A.filled outside.old.answers.now))
        (is_some kept.old.machine) halt (Says line.now)
        (standing C.choices K.holds kept.old.store outside.old)
        (standing C.choices K.holds kept.new.store outside.new)) }
    ensures blames { IfErr result (λ halt.
        BlamesRightly (given Q.told (A.filled outside.old.answers.now))
        (is_some kept.old.machine) halt (Says line.now)
        (standing C.choices K.holds kept.old.store outside.old)
        (standing C.choices K.holds kept.new.store outside.new)) }
    ensures cause { IfErr result (λ halt. IsLineCause halt
        (D.faults outside.old.disk.now) (D.faults outside.new.disk.now)
        (K.faults outside.old.sink.now) (K.faults outside.new.sink.now)) }

    ensures goes_on { GoesOnOutside D.Disk K.faults outside.old outside.new }
{
    effects_follow::<MachineRuns, D>();
    halts_follow::<MachineRuns, D>();
    points_follow::<MachineRuns, D, A>();
    make_machine(kept, outside.steps)?;
    let known = kept.store.entries().len();
    carry_out(kept, line, outside)?;
    tell_questions(kept, known)?;
    Ok(())
}

// Lends the machine to a line.
fn carry_out<Q: Questions, C: Chooser, A: Plugs, D: Disk, K: Sink, L: Ledger>(
    kept: &mut Kept<Q>,
    line: &Line,
    outside: &mut Outside<C, A, D, K, L>,
) -> Result<(), Halt>
    requires open { IsOpen D.Disk kept.old.store outside.old.disk.now }
    requires there { IsThere kept.old.machine kept.old.store.entries }
    requires fits { LineFits line.now }
    requires needs { (g : Given) →
        (row_of g kept.old.store.entries line.now).needs_machine ≡ true }
    requires accepted { (told : Told) × ((row_of (given told (A.filled outside.old.answers.now))
        kept.old.store.entries line.now).refusal ≡ None) }
    ensures there { OnOk result (IsThere kept.new.machine kept.new.store.entries) }
    ensures questions { kept.new.questions ≡ kept.old.questions }
    ensures advances { (told : Told) → OnOk result (
        Proceeds D.Disk (answering A.answers A.unplugs A.filled)
        (row_of (given told (A.filled outside.old.answers.now))
        kept.old.store.entries line.now).turn finished 0
        (standing C.choices K.holds kept.old.store outside.old)
        (standing C.choices K.holds kept.new.store outside.new)) }
    ensures stops { (told : Told) → IfErr result (λ halt.
        HaltsBehind D.Disk (answering A.answers A.unplugs A.filled) halt
        (row_of (given told (A.filled outside.old.answers.now))
        kept.old.store.entries line.now).turn 0
        (standing C.choices K.holds kept.old.store outside.old)
        (standing C.choices K.holds kept.new.store outside.new)) }
    ensures cause { IfErr result (λ halt.
        IsCauseOutside D.Disk K.faults halt outside.old outside.new) }
    ensures goes_on { GoesOnOutside D.Disk K.faults outside.old outside.new }
{
    match &mut kept.machine {
        Some(machine) => go_on(kept.alloc, &mut kept.store, machine, line, outside),
        None => unreachable!(),
    }
}

// Goes on with the machine as a line says.
fn go_on<C: Chooser, A: Plugs, D: Disk, K: Sink, L: Ledger>(
    alloc: Global,
    store: &mut Store,
    machine: &mut Machine,
    line: &Line,
    outside: &mut Outside<C, A, D, K, L>,
) -> Result<(), Halt>
    requires open { IsOpen D.Disk store.old outside.old.disk.now }
    requires ready { IsReady machine.old store.old.entries }
    requires fits { LineFits line.now }
    requires needs { (g : Given) → (row_of g store.old.entries line.now).needs_machine ≡ true }
    requires accepted { (told : Told) × ((row_of (given told (A.filled outside.old.answers.now))
        store.old.entries line.now).refusal ≡ None) }
    ensures ready { OnOk result (IsReady machine.new store.new.entries) }
    ensures advances { (told : Told) → OnOk result (
        Proceeds D.Disk (answering A.answers A.unplugs A.filled)
        (row_of (given told (A.filled outside.old.answers.now))
        store.old.entries line.now).turn finished 0
        (standing C.choices K.holds store.old outside.old)
        (standing C.choices K.holds store.new outside.new)) }
    ensures stops { (told : Told) → IfErr result (λ halt.
        HaltsBehind D.Disk (answering A.answers A.unplugs A.filled) halt
        (row_of (given told (A.filled outside.old.answers.now))
        store.old.entries line.now).turn 0
        (standing C.choices K.holds store.old outside.old)
        (standing C.choices K.holds store.new outside.new)) }
    ensures cause { IfErr result (λ halt.
        IsCauseOutside D.Disk K.faults halt outside.old outside.new) }
    ensures goes_on { GoesOnOutside D.Disk K.faults outside.old outside.new }
{
    match line {
        Line::Run { count } => run(alloc, store, machine, *count, outside),
        Line::Unplug { device } => unplug_device(alloc, store, machine, *device, outside),
        _ => add_event(alloc, store, machine, &incoming_of(line), outside),
    }
}

// What a line gives to the machine that becomes an event.
fn incoming_of(line: &Line) -> Incoming<'_>
    requires asks_not { (question : Question) → line.now ≡ Asks question → ⊥ }
    requires runs_not { (count : ℕ) → line.now ≡ Run count → ⊥ }
    requires unplugs_not { (device : ℕ) → line.now ≡ Unplug device → ⊥ }
    ensures fits { LineFits line.now → IncomingFits result }
    ensures row { (g : Given) (history : List Record) → row_of g history line.now ≡
        becomes history (incoming_refusal history result) (input_of result) }
{
    match line {
        Line::File { name, bytes } => {
            let (name, bytes) = (name.as_slice(), bytes.as_slice());
            Incoming::File { name, bytes }
        }
        Line::Boot { name } => Incoming::Boot {
            name: name.as_slice(),
        },
        Line::Type { bytes } => Incoming::Typed {
            bytes: bytes.as_slice(),
        },
        _ => unreachable!(),
    }
}
