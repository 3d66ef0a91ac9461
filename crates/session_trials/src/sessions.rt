// A session over a text in memory.
ghost use Rattle.std.specs.Prelude.{◌≡◌, ◌<◌, ◌⊎◌, [], List, IfOk, map};
ghost use Rattle.arn_base.specs.declared.records.Record.{Record};
ghost use Rattle.session_effects.specs.Carrying.{HoldsLog};
ghost use Rattle.arn_words.specs.Words.{AreAccepted, AreAcceptedTexts, texts};
ghost use Rattle.guest_devices.specs.Slots.{is_filled};
ghost use Rattle.session_commands.specs.Given.{given};
ghost use Rattle.session_questions.specs.Texts.{told};
ghost use Rattle.session_trials.specs.Sessions.{Prints, no_devices};

use arn_base::{
    Bytes, Choice, Chooser, Device, Disk, NoMemory, Numbers, SliceSource, Steps, VecSink,
};
use arn_session::{Status, arnold};
use guest_devices::{RoundChooser, ScriptChooser};
use log_disk::MemDisk;
use std::alloc::Global;
use std::marker::Brand;
use std::sync::ledger::{Blank, Ledger};

/// How many instructions a process runs at most before the next one gets its turn.
const SLICE: u32 = 100;

/// Who picks which process goes on, and for how long.
#[derive(Clone, Copy, Debug)]
pub enum Schedule {
    /// One after the other, for up to a hundred instructions.
    Round,
    /// By these choices, and from then on the first process for one instruction at a time.
    Script(&'static [Choice]),
}

/// A text, how a source gives it, which calls fail, and the schedule.
#[derive(Clone, Copy, Debug)]
pub struct Script<'a> {
    pub text: &'a [u8],
    /// How many bytes the source gives at once: at least one.
    pub piece: usize,
    /// The numbers of the source's calls that fail, from 0 on.
    pub source_fails: &'a [u32],
    /// The numbers of the sink's calls that fail, from 0 on.
    pub sink_fails: &'a [u32],
    pub schedule: Schedule,
}

impl Script<'_> {
    ghost use Rattle.std.specs.Prelude.{◌≡◌, []};

    /// The text in one piece, where no call fails.
    pub fn of(text: &[u8]) -> Script<'_>
        ensures text { result.text.now ≡ text.now }
        ensures piece { result.piece ≡ usize.MAX }
        ensures source { result.source_fails.now ≡ [] }
        ensures sink { result.sink_fails.now ≡ [] }
    {
        Script {
            text,
            piece: usize::MAX,
            source_fails: &[],
            sink_fails: &[],
            schedule: Schedule::Round,
        }
    }
}

/// How a session ended, what holds what it printed, and which of its slots hold a device then.
#[derive(Drop)]
pub struct Ended {
    pub status: Status,
    pub sink: VecSink,
    pub filled: Vec<bool>,
}

fn numbers(alloc: Global, calls: &[u32]) -> Result<Numbers, NoMemory> {
    let mut numbers = Numbers::new(alloc);
    for call in calls {
        numbers.push(*call)?;
    }
    Ok(numbers)
}

fn owned(alloc: Global, words: &[&str]) -> Result<Vec<String>, NoMemory>
    ensures { IfOk result (λ made. texts made.items ≡ map (λ word. word.now) words.now) }
{
    let mut made = Vec::new(alloc);
    for word in words {
        made.push(String::from_str(alloc, word)?)?;
    }
    Ok(made)
}

// Which slots hold a device.
fn filled_of(alloc: Global, devices: &[Option<Box<dyn Device>>]) -> Result<Vec<bool>, NoMemory> {
    let mut filled = Vec::new(alloc);
    for slot in devices {
        filled.push(slot.is_some())?;
    }
    Ok(filled)
}

fn run_over<D: Disk, L: Ledger>(
    alloc: Global,
    words: &[String],
    script: &Script,
    disk: &mut D,
    mut devices: Vec<Option<Box<dyn Device>>>,
    blank: Blank,
) -> Result<Ended, NoMemory>
    requires name { blank.name ≡ L.name }
    requires parts { blank.parts ≡ L.parts }
    requires some { 0 < blank.parts }

    ensures done { IfOk result (λ ended. ended.status ≡ Status.Done → (history : List Record) →
        HoldsLog D.Disk disk.old history →
        Prints (given told (is_filled devices.items)) history
        script.now.text.now ended.sink.held) }
    ensures usage { IfOk result (λ ended. ended.status ≡ Status.Usage → ¬ AreAccepted words.now) }
    ensures unaccepted { IfOk result (λ ended. ¬ AreAccepted words.now →
        (ended.status ≡ Status.Usage) ⊎ (ended.status ≡ Status.NoMemory)) }
    ensures silent { IfOk result (λ ended. ¬ AreAccepted words.now → ended.sink.held ≡ []) }
{
    let bytes = Bytes::from_slice(alloc, script.text)?;
    let fails = numbers(alloc, script.source_fails)?;
    let mut source = SliceSource::in_pieces(bytes, fails, script.piece);
    let mut sink = VecSink::new(alloc, numbers(alloc, script.sink_fails)?);
    let mut chooser: Box<dyn Chooser> = match script.schedule {
        Schedule::Round => Box::new(alloc, RoundChooser::new(SLICE))?,
        Schedule::Script(choices) => {
            Box::new(alloc, ScriptChooser::new(Vec::from_slice(alloc, choices)?))?
        }
    };
    let status = arnold(
        alloc,
        words,
        &mut source,
        &mut sink,
        disk,
        &mut chooser,
        &mut devices,
        &mut Steps::<L>::new(blank),
    );
    let filled = filled_of(alloc, devices.as_slice())?;
    Ok(Ended {
        status,
        sink,
        filled,
    })
}

/// Runs a session with these words over the log of a disk, with devices in slots.
pub fn run_with<D: Disk>(
    alloc: Global,
    words: &[&str],
    script: &Script,
    disk: &mut D,
    devices: Vec<Option<Box<dyn Device>>>,
) -> Result<Ended, NoMemory>
    ensures done { IfOk result (λ ended. ended.status ≡ Status.Done → (history : List Record) →
        HoldsLog D.Disk disk.old history →
        Prints (given told (is_filled devices.items)) history
        script.now.text.now ended.sink.held) }
    ensures usage { IfOk result (λ ended. ended.status ≡ Status.Usage →
        ¬ AreAcceptedTexts (map (λ word. word.now) words.now)) }
    ensures unaccepted { IfOk result (λ ended.
        ¬ AreAcceptedTexts (map (λ word. word.now) words.now) →
        (ended.status ≡ Status.Usage) ⊎ (ended.status ≡ Status.NoMemory)) }
    ensures silent { IfOk result (λ ended.
        ¬ AreAcceptedTexts (map (λ word. word.now) words.now) → ended.sink.held ≡ []) }
{
    let words = owned(alloc, words)?;
    run_over::<D, Brand>(
        alloc,
        words.as_slice(),
        script,
        disk,
        devices,
        Blank::new(1),
    )
}

/// Runs a session with these words over the log of a disk, without devices.
pub fn run_on<D: Disk>(
    alloc: Global,
    words: &[&str],
    script: &Script,
    disk: &mut D,
) -> Result<Ended, NoMemory>
    ensures done { IfOk result (λ ended. ended.status ≡ Status.Done → (history : List Record) →
        HoldsLog D.Disk disk.old history →
        Prints no_devices history script.now.text.now ended.sink.held) }
    ensures usage { IfOk result (λ ended. ended.status ≡ Status.Usage →
        ¬ AreAcceptedTexts (map (λ word. word.now) words.now)) }
    ensures unaccepted { IfOk result (λ ended.
        ¬ AreAcceptedTexts (map (λ word. word.now) words.now) →
        (ended.status ≡ Status.Usage) ⊎ (ended.status ≡ Status.NoMemory)) }
    ensures silent { IfOk result (λ ended.
        ¬ AreAcceptedTexts (map (λ word. word.now) words.now) → ended.sink.held ≡ []) }
{
    run_with(alloc, words, script, disk, Vec::new(alloc))
}

/// Runs a session with these words over a fresh log.
pub fn run(alloc: Global, words: &[&str], script: &Script) -> Result<Ended, NoMemory>
    ensures done { IfOk result (λ ended. ended.status ≡ Status.Done →
        Prints no_devices [] script.now.text.now ended.sink.held) }
    ensures usage { IfOk result (λ ended. ended.status ≡ Status.Usage →
        ¬ AreAcceptedTexts (map (λ word. word.now) words.now)) }
    ensures unaccepted { IfOk result (λ ended.
        ¬ AreAcceptedTexts (map (λ word. word.now) words.now) →
        (ended.status ≡ Status.Usage) ⊎ (ended.status ≡ Status.NoMemory)) }
    ensures silent { IfOk result (λ ended.
        ¬ AreAcceptedTexts (map (λ word. word.now) words.now) → ended.sink.held ≡ []) }
{
    let mut disk = MemDisk::new(alloc, Bytes::new(alloc));
    run_on(alloc, words, script, &mut disk)
}
