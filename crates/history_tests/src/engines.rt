// An engine over the records of a session: which groups a query replays, how much of them, and which it
// replays again, over the same records and over more of them.
ghost use Rattle.std.specs.Prelude.{◌≡◌, ◌<◌, ◌++◌};
ghost use Rattle.history_index.specs.Indexes.{AreCountable, Indexes};
ghost use Rattle.query_engine.specs.Engines.{HasSeen};

use crate::beside::{BESIDE, BESIDE_PRINTS};
use crate::same::assert_same;
use crate::sessions::recorded;
use acts_model::Observer;
use arn_base::{Cpu, NoMemory, Pair, Record, Steps};
use history_index::{Index, are_countable};
use query_engine::{Answer, Engine, QueryError, Target, seen_stays};
use replayer::{ReplayError, replay};
use rv64_isa::Instr;
use rv64_model::Linkage;
use std::alloc::Global;
use std::marker::Brand;
use std::process::Abort;
use std::sync::ledger::{Blank, Ledger};
use std::test::Fail;

/// What an engine is asked.
#[derive(Clone, Copy)]
enum Question {
    /// Where the three bytes of event 10 came from.
    Back(Linkage),
    /// Where the three bytes of event 2 went, by copies.
    Forth,
}

/// The three bytes that were typed.
const TYPED: &[Pair] = &[
    Pair {
        event: 2,
        at: 0,
        byte: 0,
    },
    Pair {
        event: 2,
        at: 1,
        byte: 1,
    },
    Pair {
        event: 2,
        at: 2,
        byte: 2,
    },
];

/// The three bytes that they became.
const REACHED: &[Pair] = &[
    Pair {
        event: 10,
        at: 0,
        byte: 0,
    },
    Pair {
        event: 10,
        at: 1,
        byte: 1,
    },
    Pair {
        event: 10,
        at: 2,
        byte: 2,
    },
];

/// A question, how many instructions the groups have that it is about, and which of them are replayed.
#[derive(Clone, Copy)]
struct Asked {
    question: Question,
    instructions: u64,
    replayed: &'static [u32],
}

/// What an engine answers.
fn answer<L: Ledger>(
    engine: &mut Engine,
    entries: &[Record],
    index: &Index,
    question: Question,
    steps: &mut Steps<L>,
) -> Result<Answer, QueryError>
    requires countable { AreCountable entries.now }
    requires indexed { Indexes index.now entries.now }
    requires seen { HasSeen entries.now engine.old }
    ensures seen { HasSeen entries.now engine.new }
{
    match question {
        Question::Back(linkage) => {
            let target = Target::Event {
                event: 10,
                from: 0,
                len: 3,
            };
            engine.back(entries, index, linkage, &target, steps)
        }
        Question::Forth => engine.forth(entries, index, Linkage::Copy, 2, 0, 3, steps),
    }
}

/// The pairs that answer.
fn pairs(question: Question) -> &'static [Pair] {
    match question {
        Question::Back(_) => TYPED,
        Question::Forth => REACHED,
    }
}

/// An engine answers, and replays these groups for it.
fn assert_answers<L: Ledger>(
    rt: &impl Abort,
    engine: &mut Engine,
    entries: &[Record],
    index: &Index,
    asked: &Asked,
    steps: &mut Steps<L>,
) -> Result<(), QueryError>
    requires countable { AreCountable entries.now }
    requires indexed { Indexes index.now entries.now }
    requires seen { HasSeen entries.now engine.old }
    ensures seen { HasSeen entries.now engine.new }
{
    let found = answer(engine, entries, index, asked.question, steps)?;
    assert_same(
        rt,
        (
            found.replayed.as_slice(),
            found.instructions,
            found.pairs.as_slice(),
        ),
        (asked.replayed, asked.instructions, pairs(asked.question)),
    );
    Ok(())
}

/// How many groups an engine keeps, and what it is asked, one after the other.
struct Trial {
    keep: u32,
    first: Asked,
    second: Asked,
    third: Asked,
}

/// The bytes that were handed on came through groups 1 and 3, and not through the one that spins.
const NEW: Asked = Asked {
    question: Question::Back(Linkage::Copy),
    instructions: 32,
    replayed: &[1, 3],
};

const BY_DATA: Asked = Asked {
    question: Question::Back(Linkage::Data),
    ..NEW
};

/// Behind `NEW`, forward, the engine replays the group that it hasn't followed, and group 3 to its end. Group 1
/// does nothing behind event 10, so that what followed it up to there serves here too.
const FORTH: Asked = Asked {
    question: Question::Forth,
    instructions: 1_000_000,
    replayed: &[2, 3],
};

/// A group that was followed isn't replayed again, as far as there is room.
const TRIALS: [Trial; 4] = [
    Trial {
        keep: 0,
        first: NEW,
        second: NEW,
        third: BY_DATA,
    },
    Trial {
        keep: 1,
        first: NEW,
        second: Asked {
            replayed: &[1],
            ..NEW
        },
        third: BY_DATA,
    },
    Trial {
        keep: 8,
        first: NEW,
        second: Asked {
            replayed: &[],
            ..NEW
        },
        third: BY_DATA,
    },
    Trial {
        keep: 8,
        first: NEW,
        second: FORTH,
        third: Asked {
            replayed: &[],
            ..FORTH
        },
    },
];

/// An engine answers the three questions of a trial.
fn assert_three<L: Ledger>(
    rt: &impl Abort,
    engine: &mut Engine,
    entries: &[Record],
    index: &Index,
    trial: &Trial,
    steps: &mut Steps<L>,
) -> Result<(), QueryError>
    requires countable { AreCountable entries.now }
    requires indexed { Indexes index.now entries.now }
    requires seen { HasSeen entries.now engine.old }
{
    assert_answers(rt, engine, entries, index, &trial.first, steps)?;
    assert_answers(rt, engine, entries, index, &trial.second, steps)?;
    assert_answers(rt, engine, entries, index, &trial.third, steps)
}

fn assert_kept_counted<L: Ledger>(
    rt: &(impl Abort + AllocGlobal),
    entries: &[Record],
    index: &Index,
    trial: &Trial,
    blank: Blank,
) -> Result<(), QueryError>
    requires countable { AreCountable entries.now }
    requires indexed { Indexes index.now entries.now }
    requires name { blank.name ≡ L.name }
    requires parts { blank.parts ≡ L.parts }
    requires some { 0 < blank.parts }
{
    let mut steps = Steps::<L>::new(blank);
    let mut engine = Engine::new(rt.alloc(), trial.keep)?;
    assert_three(rt, &mut engine, entries, index, trial, &mut steps)
}

/// A new engine answers the questions of a trial.
fn assert_kept(
    rt: &(impl Abort + AllocGlobal),
    entries: &[Record],
    index: &Index,
    trial: &Trial,
) -> Result<(), QueryError>
    requires countable { AreCountable entries.now }
    requires indexed { Indexes index.now entries.now }
{
    assert_kept_counted::<Brand>(rt, entries, index, trial, Blank::new(1))
}

fn assert_trials(rt: &(impl Abort + AllocGlobal), entries: &[Record]) -> Result<(), Fail> {
    assert!(rt; are_countable(entries));
    let index = Index::build(rt.alloc(), entries)?;
    for trial in &TRIALS {
        assert_kept(rt, entries, &index, trial)?;
    }
    assert_counted(rt, entries, &index)
}

#[test]
fn an_engine_replays_what_it_must(rt: HostRuntime) -> Result<(), Fail> {
    let store = recorded(&rt, BESIDE, BESIDE_PRINTS)?;
    assert_trials(&rt, store.entries())
}

/// Which groups are replayed for where the typed bytes went, asked over records, and then over these and
/// more of them.
fn later_counted<L: Ledger>(
    alloc: Global,
    before: &[Record],
    _more: &[Record],
    entries: &[Record],
    blank: Blank,
) -> Result<(Answer, Answer), Fail>
    requires earlier { AreCountable before.now }
    requires countable { AreCountable entries.now }
    requires whole { entries.now ≡ before.now ++ _more.now }
    requires name { blank.name ≡ L.name }
    requires parts { blank.parts ≡ L.parts }
    requires some { 0 < blank.parts }
{
    let earlier = Index::build(alloc, before)?;
    let index = Index::build(alloc, entries)?;
    let mut steps = Steps::<L>::new(blank);
    let mut engine = Engine::new(alloc, 8)?;
    let first = engine.forth(before, &earlier, Linkage::Copy, 2, 0, 3, &mut steps)?;
    seen_stays();
    let again = engine.forth(entries, &index, Linkage::Copy, 2, 0, 3, &mut steps)?;
    Ok((first, again))
}

fn later(
    alloc: Global,
    before: &[Record],
    more: &[Record],
    entries: &[Record],
) -> Result<(Answer, Answer), Fail>
    requires earlier { AreCountable before.now }
    requires countable { AreCountable entries.now }
    requires whole { entries.now ≡ before.now ++ more.now }
{
    later_counted::<Brand>(alloc, before, more, entries, Blank::new(1))
}

/// An engine replays these groups for where the typed bytes went.
fn assert_reached(rt: &impl Abort, answer: &Answer, replayed: &[u32]) {
    assert_same(
        rt,
        (answer.replayed.as_slice(), answer.pairs.as_slice()),
        (replayed, REACHED),
    );
}

/// The last record is a slice of group 2, so no other group is replayed once it has come.
fn assert_more(rt: &(impl Abort + AllocGlobal), entries: &[Record]) -> Result<(), Fail> {
    let (before, more) = entries.split_at(entries.len().saturating_sub(1));
    assert!(rt; are_countable(before));
    assert!(rt; are_countable(entries));
    assert!(rt; matches!(more, [Record::Slice { pid: 2, .. }]));
    let (first, again) = later(rt.alloc(), before, more, entries)?;
    assert_reached(rt, &first, &[1, 2, 3]);
    assert_reached(rt, &again, &[2]);
    Ok(())
}

#[test]
fn an_engine_goes_on_over_more_records(rt: HostRuntime) -> Result<(), Fail> {
    let store = recorded(&rt, BESIDE, BESIDE_PRINTS)?;
    assert_more(&rt, store.entries())
}

/// How many instructions ran: those that an observer is told of, and each call.
#[derive(Clone, Copy, Debug, PartialEq, Eq)]
struct Counter {
    count: u32,
}

impl Observer for Counter {
    ghost use Rattle.std.specs.Prelude.{⊤};

    ghost begins = { λ _ _ _ _ _. ⊤ };

    ghost runs = { λ _ _ _ _ _. ⊤ };

    ghost hears = { λ _ _ _ _ _. ⊤ };

    fn begin(&mut self, _: u32, _: u64, _: Option<u32>) -> Result<(), NoMemory> {
        Ok(())
    }

    fn instruction(&mut self, _: u32, _: &Instr, _: &Cpu) -> Result<(), NoMemory> {
        self.count = self.count.wrapping_add(1);
        Ok(())
    }

    fn happened(&mut self, _: u64, entry: &Record, _: &Cpu) -> Result<(), NoMemory> {
        if let Record::Call { .. } = entry {
            self.count = self.count.wrapping_add(1);
        }
        Ok(())
    }
}

/// How many instructions of a group run up to a moment.
fn ran_counted<L: Ledger>(
    alloc: Global,
    entries: &[Record],
    index: &Index,
    group: u32,
    until: u64,
    blank: Blank,
) -> Result<u32, ReplayError>
    requires countable { AreCountable entries.now }
    requires indexed { Indexes index.now entries.now }
    requires name { blank.name ≡ L.name }
    requires parts { blank.parts ≡ L.parts }
    requires some { 0 < blank.parts }
{
    let mut steps = Steps::<L>::new(blank);
    let mut counter = Counter { count: 0 };
    let _state = replay(
        alloc,
        entries,
        index,
        group,
        until,
        &mut counter,
        &mut steps,
    )?;
    Ok(counter.count)
}

fn instructions_of(
    alloc: Global,
    entries: &[Record],
    index: &Index,
    group: u32,
    until: u64,
) -> Result<u32, ReplayError>
    requires countable { AreCountable entries.now }
    requires indexed { Indexes index.now entries.now }
{
    ran_counted::<Brand>(alloc, entries, index, group, until, Blank::new(1))
}

/// Up to event 10 group 1 runs all of its 20 instructions, and group 3 all but the last three of 12.
fn assert_counted(
    rt: &(impl Abort + AllocGlobal),
    entries: &[Record],
    index: &Index,
) -> Result<(), Fail>
    requires countable { AreCountable entries.now }
    requires indexed { Indexes index.now entries.now }
{
    let until = index.event_moment(10).ok_or("no event")?;
    let first = instructions_of(rt.alloc(), entries, index, 1, until)?;
    let third = instructions_of(rt.alloc(), entries, index, 3, until)?;
    assert_same(rt, (first, third), (20, 9));
    Ok(())
}
