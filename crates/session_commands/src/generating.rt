// The generator: its program is brought as a file, booted and run on bytes that are typed.
ghost use Rattle.std.specs.Prelude.{◌≡◌, ◌||◌, ◌+◌, ◌<◌, ◌≤◌, ◌^◌, ◌++◌, [], ◌∷◌, ℕ, List, Option, All, None, OnOk, IfErr, is_some, length, option_map};
ghost use Rattle.arn_base.specs.Faults.{NeverFalls};
ghost use Rattle.arn_commands.specs.Sizes.{IsBootable};
ghost use Rattle.arn_commands.specs.declared.command.Command.TheVariants.{Generates};
ghost use Rattle.arn_model.specs.Run.{machine_from};
ghost use Rattle.log_model.specs.Records.{IsRun};
ghost use Rattle.log_store.specs.Stops.{GoesOn};
ghost use Rattle.result_log.specs.Spelling.{HasSpelling};
ghost use Rattle.session_effects.specs.Carrying.{StopsBetween};
ghost use Rattle.session_effects.specs.Outside.{GoesOnOutside};
ghost use Rattle.session_effects.specs.Printing.{StopsPut};
ghost use Rattle.session_effects.specs.Standing.{Carries, IsCause, IsOpen};
ghost use Rattle.session_commands.specs.Answering.{BlamesRightly, HaltsIn, IsAnswered, IsHalted, IsLineCause};
ghost use Rattle.session_commands.specs.Events.{IncomingFits, incoming_refusal, input_of};
ghost use Rattle.session_commands.specs.Generator.{event_commits, gen_inputs, gen_run, generator_turn};
ghost use Rattle.session_commands.specs.Given.{given};
ghost use Rattle.session_commands.specs.Kept.{IsSound, IsThere};
ghost use Rattle.session_commands.specs.Lines.{needs_machine};
ghost use Rattle.session_commands.specs.Refusals.{generator_refusal};
ghost use Rattle.session_model.specs.Questions.{Told};
ghost use Rattle.session_runs.specs.Ready.{IsReady, machine_of};
ghost use Rattle.session_runs.specs.Standing.{HaltsBehind, Proceeds, standing};
ghost use Rattle.session_runs.specs.Touches.{answering};
ghost use Rattle.session_runs.specs.Turns.{prints};

use crate::events::{Incoming, make_event};
use crate::kept::Kept;
use crate::ready::{make_machine, tell_questions};
use arn_base::{Chooser, Disk, Sink, Steps, Stop};
use arn_lines::MOST_RUN;
use arn_model::runs_sound;
use guest_devices::Plugs;
use guest_machine::Machine;
use log_model::{named_append, named_runs_again, records_append};
use log_store::{Store, store_is_short};
use replay_laws::records_tell_runs;
use session_effects::{
    Halt, Outside, causes_follow, commit, effects_follow, halts_follow, put_all,
};
use session_model::Questions;
use session_runs::{
    MachineRuns, count_records, history_laws, points_follow, quiet_points_follow, run,
};
use std::alloc::Global;
use std::sync::ledger::Ledger;

// Drops what it is given, and tells nothing of it.
#[derive(Drop)]
struct Silence;

impl Sink for Silence {
    ghost holds = { λ _. None };

    ghost faults = { λ _. 0 };

    fn put(&mut self, bytes: &[u8]) -> Result<usize, Stop> {
        Ok(bytes.len())
    }
}

/// Does what the generator's line asks for, which isn't refused.
pub fn answer_generator<Q: Questions, C: Chooser, A: Plugs, D: Disk, K: Sink, L: Ledger>(
    kept: &mut Kept<Q>,
    image: &[u8],
    typed: &[u8],
    processes: u64,
    outside: &mut Outside<C, A, D, K, L>,
) -> Result<(), Halt>
    requires open { IsOpen D.Disk kept.old.store outside.old.disk.now }
    requires sound { IsSound Q.knows kept.old.machine kept.old.questions kept.old.store.entries }
    requires image { IsBootable image.now }
    requires typed { length typed.now < 2 ^ 32 }
    requires accepted { generator_refusal kept.old.store.entries ≡ None }

    ensures sound { OnOk result
        (IsSound Q.knows kept.new.machine kept.new.questions kept.new.store.entries) }
    ensures there { OnOk result (is_some kept.new.machine ≡
        is_some kept.old.machine || needs_machine
        (given Q.told (A.filled outside.old.answers.now)) kept.old.store.entries
        (Generates image.now typed.now processes)) }
    ensures answered { OnOk result
        (IsAnswered D.Disk (answering A.answers A.unplugs A.filled)
        (given Q.told (A.filled outside.old.answers.now))
        (is_some kept.old.machine) (Generates image.now typed.now processes)
        (standing C.choices K.holds kept.old.store outside.old)
        (standing C.choices K.holds kept.new.store outside.new)) }

    ensures halted { IfErr result (λ halt.
        IsHalted D.Disk (answering A.answers A.unplugs A.filled)
        (given Q.told (A.filled outside.old.answers.now))
        (is_some kept.old.machine) halt (Generates image.now typed.now processes)
        (standing C.choices K.holds kept.old.store outside.old)
        (standing C.choices K.holds kept.new.store outside.new)) }
    ensures blames { IfErr result (λ halt.
        BlamesRightly (given Q.told (A.filled outside.old.answers.now))
        (is_some kept.old.machine) halt (Generates image.now typed.now processes)
        (standing C.choices K.holds kept.old.store outside.old)
        (standing C.choices K.holds kept.new.store outside.new)) }
    ensures cause { IfErr result (λ halt. IsLineCause halt
        (D.faults outside.old.disk.now) (D.faults outside.new.disk.now)
        (K.faults outside.old.sink.now) (K.faults outside.new.sink.now)) }

    ensures goes_on { GoesOnOutside D.Disk K.faults outside.old outside.new }
{
    effects_follow::<MachineRuns, D>();
    halts_follow::<MachineRuns, D>();
    points_follow::<MachineRuns, D, A>();
    causes_follow::<D>();
    make_machine(kept, outside.steps)?;
    let known = kept.store.entries().len();
    perform(kept, image, typed, outside)?;
    tell_questions(kept, known)?;
    tell(kept, processes, outside.text, outside.sink, outside.steps)
}

// Prints what the generator did.
fn tell<Q: Questions, K: Sink, L: Ledger>(
    kept: &mut Kept<Q>,
    processes: u64,
    text: &mut String,
    sink: &mut K,
    steps: &mut Steps<L>,
) -> Result<(), Halt>
    requires known { Q.knows kept.old.questions kept.old.store.entries }
    requires spelled { All HasSpelling kept.old.store.entries }
    ensures known { OnOk result (Q.knows kept.new.questions kept.old.store.entries) }
    ensures store { kept.new.store ≡ kept.old.store }
    ensures machine { kept.new.machine ≡ kept.old.machine }
    ensures ok { OnOk result (K.holds sink.new ≡ option_map (λ held.
        held ++ (Q.told).generated kept.old.store.entries processes) (K.holds sink.old)) }
    ensures stops { IfErr result (λ halt. StopsPut halt
        ((Q.told).generated kept.old.store.entries processes) (K.holds sink.old) (K.holds sink.new)) }
    ensures cause { IfErr result (λ halt. (faults : ℕ) →
        IsCause halt faults faults (K.faults sink.old) (K.faults sink.new)) }
    ensures faults { NeverFalls (K.faults sink.old) (K.faults sink.new) }
    ensures steps { steps.new ≤ steps.old + (Q.told).generated_cost kept.old.store.entries }
{
    store_is_short(&kept.store);
    text.clear();
    kept.questions
        .generated(kept.store.entries(), processes, text, steps)?;
    put_all(sink, text.as_bytes())
}

// Lends the machine to the generator.
fn perform<Q: Questions, C: Chooser, A: Plugs, D: Disk, K: Sink, L: Ledger>(
    kept: &mut Kept<Q>,
    image: &[u8],
    typed: &[u8],
    outside: &mut Outside<C, A, D, K, L>,
) -> Result<(), Halt>
    requires open { IsOpen D.Disk kept.old.store outside.old.disk.now }
    requires there { IsThere kept.old.machine kept.old.store.entries }
    requires image { IsBootable image.now }
    requires typed { length typed.now < 2 ^ 32 }
    requires accepted { generator_refusal kept.old.store.entries ≡ None }
    ensures there { OnOk result (IsThere kept.new.machine kept.new.store.entries) }
    ensures questions { kept.new.questions ≡ kept.old.questions }
    ensures advances { (told : Told) (processes : ℕ) → OnOk result (
        Proceeds D.Disk (answering A.answers A.unplugs A.filled)
        (generator_turn told kept.old.store.entries image.now typed.now processes)
        (prints (told.generated kept.new.store.entries processes)) 0
        (standing C.choices K.holds kept.old.store outside.old)
        (standing C.choices K.holds kept.new.store outside.new)) }
    ensures stops { (told : Told) (processes : ℕ) → IfErr result (λ halt.
        HaltsBehind D.Disk (answering A.answers A.unplugs A.filled) halt
        (generator_turn told kept.old.store.entries image.now typed.now processes) 0
        (standing C.choices K.holds kept.old.store outside.old)
        (standing C.choices K.holds kept.new.store outside.new)) }
    ensures cause { IfErr result (λ halt. (faults : ℕ) → IsCause halt
        (D.faults outside.old.disk.now) (D.faults outside.new.disk.now) faults faults) }
    ensures goes_on { GoesOnOutside D.Disk K.faults outside.old outside.new }
{
    match &mut kept.machine {
        Some(machine) => { perform_on(kept.alloc, &mut kept.store, machine, image, typed, outside) }
        None => unreachable!(),
    }
}

// Commits the generator's events, and runs it: none of that is printed.
fn perform_on<C: Chooser, A: Plugs, D: Disk, K: Sink, L: Ledger>(
    alloc: Global,
    store: &mut Store,
    machine: &mut Machine,
    image: &[u8],
    typed: &[u8],
    outside: &mut Outside<C, A, D, K, L>,
) -> Result<(), Halt>
    requires open { IsOpen D.Disk store.old outside.old.disk.now }
    requires ready { IsReady machine.old store.old.entries }
    requires image { IsBootable image.now }
    requires typed { length typed.now < 2 ^ 32 }
    requires accepted { generator_refusal store.old.entries ≡ None }
    ensures ready { OnOk result (IsReady machine.new store.new.entries) }
    ensures advances { (told : Told) (processes : ℕ) → OnOk result (
        Proceeds D.Disk (answering A.answers A.unplugs A.filled)
        (generator_turn told store.old.entries image.now typed.now processes)
        (prints (told.generated store.new.entries processes)) 0
        (standing C.choices K.holds store.old outside.old)
        (standing C.choices K.holds store.new outside.new)) }
    ensures stops { (told : Told) (processes : ℕ) → IfErr result (λ halt.
        HaltsBehind D.Disk (answering A.answers A.unplugs A.filled) halt
        (generator_turn told store.old.entries image.now typed.now processes) 0
        (standing C.choices K.holds store.old outside.old)
        (standing C.choices K.holds store.new outside.new)) }
    ensures cause { IfErr result (λ halt. (faults : ℕ) → IsCause halt
        (D.faults outside.old.disk.now) (D.faults outside.new.disk.now) faults faults) }
    ensures goes_on { GoesOnOutside D.Disk K.faults outside.old outside.new }
{
    halts_follow::<MachineRuns, D>();
    points_follow::<MachineRuns, D, A>();
    causes_follow::<D>();
    named_append();
    commit_events(alloc, store, machine, image, typed, outside.disk)?;
    run_quietly(alloc, store, machine, outside)
}

// Brings the program as a file, boots it and types the bytes, each as an event: none of it is printed.
fn commit_events<D: Disk>(
    alloc: Global,
    store: &mut Store,
    machine: &mut Machine,
    image: &[u8],
    typed: &[u8],
    disk: &mut D,
) -> Result<(), Halt>
    requires open { IsOpen D.Disk store.old disk.old }
    requires ready { IsReady machine.old store.old.entries }
    requires image { IsBootable image.now }
    requires typed { length typed.now < 2 ^ 32 }
    requires accepted { generator_refusal store.old.entries ≡ None }
    ensures ready { OnOk result (IsReady machine.new store.new.entries) }
    ensures leads { OnOk result (machine_of store.new.entries ≡
        machine_from (machine_of store.old.entries) (gen_inputs image.now typed.now)) }
    ensures carries { (held : Option (List ℕ)) → OnOk result (
        Carries IsRun D.Disk disk.old disk.new store.old store.new held held
        (event_commits (machine_of store.old.entries) (gen_inputs image.now typed.now))) }
    ensures stops { (held : Option (List ℕ)) → IfErr result (λ halt. HaltsIn
        (StopsBetween IsRun D.Disk disk.old disk.new store.old.entries held held halt)
        (event_commits (machine_of store.old.entries) (gen_inputs image.now typed.now))) }
    ensures cause { IfErr result (λ halt. (faults : ℕ) →
        IsCause halt (D.faults disk.old) (D.faults disk.new) faults faults) }
    ensures later { GoesOn D.image D.faults disk.old disk.new }
{
    effects_follow::<MachineRuns, D>();
    halts_follow::<MachineRuns, D>();
    causes_follow::<D>();
    history_laws();
    records_tell_runs();
    runs_sound();
    records_append();
    named_runs_again();
    count_records(store);
    let program = Incoming::File {
        name: b"gen",
        bytes: image,
    };
    commit_event(alloc, store, machine, &program, disk)?;
    count_records(store);
    commit_event(
        alloc,
        store,
        machine,
        &Incoming::Boot { name: b"gen" },
        disk,
    )?;
    commit_event(
        alloc,
        store,
        machine,
        &Incoming::Typed { bytes: typed },
        disk,
    )
}

// Makes an event of what is given, and commits its records.
fn commit_event<D: Disk>(
    alloc: Global,
    store: &mut Store,
    machine: &mut Machine,
    incoming: &Incoming<'_>,
    disk: &mut D,
) -> Result<(), Halt>
    requires open { IsOpen D.Disk store.old disk.old }
    requires ready { IsReady machine.old store.old.entries }
    requires fits { IncomingFits incoming.now }
    requires accepted { incoming_refusal store.old.entries incoming.now ≡ None }
    ensures ready { OnOk result (IsReady machine.new store.new.entries) }
    ensures carries { (held : Option (List ℕ)) → OnOk result (
        Carries IsRun D.Disk disk.old disk.new store.old store.new held held
        (event_commits (machine_of store.old.entries) (input_of incoming.now ∷ []))) }
    ensures stops { (held : Option (List ℕ)) → IfErr result (λ halt. HaltsIn
        (StopsBetween IsRun D.Disk disk.old disk.new store.old.entries held held halt)
        (event_commits (machine_of store.old.entries) (input_of incoming.now ∷ []))) }
    ensures cause { IfErr result (λ halt. (faults : ℕ) →
        IsCause halt (D.faults disk.old) (D.faults disk.new) faults faults) }
    ensures later { GoesOn D.image D.faults disk.old disk.new }
{
    effects_follow::<MachineRuns, D>();
    halts_follow::<MachineRuns, D>();
    let event = make_event(alloc, store, machine, incoming)?;
    commit::<MachineRuns, D>(store, disk, event.entries)
}

// Runs the generator, which is booted: each leg is committed, and nothing is printed.
fn run_quietly<C: Chooser, A: Plugs, D: Disk, K: Sink, L: Ledger>(
    alloc: Global,
    store: &mut Store,
    machine: &mut Machine,
    outside: &mut Outside<C, A, D, K, L>,
) -> Result<(), Halt>
    requires open { IsOpen D.Disk store.old outside.old.disk.now }
    requires ready { IsReady machine.old store.old.entries }
    ensures ready { OnOk result (IsReady machine.new store.new.entries) }
    ensures advances { (told : Told) (processes : ℕ) → OnOk result (
        Proceeds D.Disk (answering A.answers A.unplugs A.filled)
        (gen_run told store.old.entries (machine_of store.old.entries) processes)
        (prints (told.generated store.new.entries processes)) 0
        (standing C.choices K.holds store.old outside.old)
        (standing C.choices K.holds store.new outside.new)) }
    ensures stops { (told : Told) (processes : ℕ) → IfErr result (λ halt.
        HaltsBehind D.Disk (answering A.answers A.unplugs A.filled) halt
        (gen_run told store.old.entries (machine_of store.old.entries) processes) 0
        (standing C.choices K.holds store.old outside.old)
        (standing C.choices K.holds store.new outside.new)) }
    ensures cause { IfErr result (λ halt. (faults : ℕ) → IsCause halt
        (D.faults outside.old.disk.now) (D.faults outside.new.disk.now) faults faults) }
    ensures goes_on { GoesOnOutside D.Disk K.faults outside.old outside.new }
{
    let mut silence = Silence;
    let mut quiet = Outside {
        chooser: &mut *outside.chooser,
        answers: &mut *outside.answers,
        disk: &mut *outside.disk,
        sink: &mut silence,
        steps: &mut *outside.steps,
        text: &mut *outside.text,
    };
    run_in_silence(alloc, store, machine, &mut quiet)
}

// Runs it with a sink that drops what it is given.
fn run_in_silence<C: Chooser, A: Plugs, D: Disk, L: Ledger>(
    alloc: Global,
    store: &mut Store,
    machine: &mut Machine,
    quiet: &mut Outside<C, A, D, Silence, L>,
) -> Result<(), Halt>
    requires open { IsOpen D.Disk store.old quiet.old.disk.now }
    requires ready { IsReady machine.old store.old.entries }
    ensures ready { OnOk result (IsReady machine.new store.new.entries) }
    ensures advances { (told : Told) (processes : ℕ) (held : Option (List ℕ)) → OnOk result (
        Proceeds D.Disk (answering A.answers A.unplugs A.filled)
        (gen_run told store.old.entries (machine_of store.old.entries) processes)
        (prints (told.generated store.new.entries processes)) 0
        (standing C.choices (λ _. held) store.old quiet.old)
        (standing C.choices (λ _. held) store.new quiet.new)) }
    ensures stops { (told : Told) (processes : ℕ) (held : Option (List ℕ)) →
        IfErr result (λ halt. HaltsBehind D.Disk (answering A.answers A.unplugs A.filled) halt
        (gen_run told store.old.entries (machine_of store.old.entries) processes) 0
        (standing C.choices (λ _. held) store.old quiet.old)
        (standing C.choices (λ _. held) store.new quiet.new)) }
    ensures cause { IfErr result (λ halt. (faults : ℕ) → IsCause halt
        (D.faults quiet.old.disk.now) (D.faults quiet.new.disk.now) faults faults) }
    ensures goes_on { GoesOnOutside D.Disk (λ _. 0) quiet.old quiet.new }
{
    quiet_points_follow::<MachineRuns, D, A>();
    run(alloc, store, machine, MOST_RUN, quiet)
}
