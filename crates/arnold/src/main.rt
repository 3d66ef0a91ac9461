//! Runs a session of a recorded machine: reads lines from standard input, answers each on standard
//! output, and keeps the history in the log that its words name.
#![tactic(auto)]

mod ending;
mod streams;

ghost use Rattle.std.specs.Prelude.{◌≡◌, ◌≢◌, ◌<◌, ◌⊎◌, ◌↔◌};
ghost use Rattle.std.specs.IoError.{error_kind};
ghost use Rattle.arn_words.specs.Words.{AreAccepted};

use arn_base::{Chooser, Device, StdSink, StdSource, Steps};
use arn_session::{Options, Status, WordsError, arnold, read_words};
use arn_words::refusal_text;
use ending::{Cause, Ending};
use guest_devices::{EntropyDevice, RoundChooser, SeededChooser, SilentDevice};
use host_clock::ClockDevice;
use host_disk::FileDisk;
use std::alloc::Global;
use std::env::{self, Env};
use std::fs::File;
use std::io::{self, ErrorKind, Read, Write};
use std::marker::Brand;
use std::process::ExitCode;
use std::rt::Files;
use std::sync::ledger::{Blank, Ledger};
use streams::Streams;

/// The words behind the program's name.
fn words<R: Env + AllocGlobal>(rt: &R) -> io::Result<Vec<String>> {
    let words = env::args(rt)?.skip(1).collect(rt.alloc())?;
    Ok(words)
}

/// How a session ends whose words can't be read: a word that isn't UTF-8 isn't accepted.
fn status_of(error: &io::Error) -> Status
    ensures no_memory { (result ≡ Status.NoMemory) ↔
        (error_kind error.now ≡ ErrorKind.OutOfMemory) }
    ensures usage { (result ≡ Status.Usage) ↔
        (error_kind error.now ≢ ErrorKind.OutOfMemory) }
{
    match error.kind() {
        ErrorKind::OutOfMemory => Status::NoMemory,
        _ => Status::Usage,
    }
}

/// What the disk, the source and the sink say of an end for one of them.
fn ending_of<F: Files<File = File> + Clone + Drop>(
    status: Status,
    disk: &FileDisk<F>,
    source: Option<io::Error>,
    sink: Option<io::Error>,
) -> Ending
    ensures { result.status ≡ status }
{
    let cause = match status {
        Status::Disk => disk.failure().map(Cause::Disk),
        Status::Source => source.map(Cause::Source),
        Status::Sink => sink.map(Cause::Sink),
        _ => None,
    };
    Ending { status, cause }
}

/// A session over a disk, with these streams, this chooser and these devices, and a new counter of
/// steps.
fn session<L: Ledger, H: Files<File = File> + Clone + Drop, R: Read + Drop, W: Write + Drop>(
    words: &[String],
    mut disk: FileDisk<H>,
    mut chooser: Box<dyn Chooser>,
    mut devices: Vec<Option<Box<dyn Device>>>,
    streams: Streams<R, W>,
    blank: Blank,
) -> Ending
    requires name { blank.name ≡ L.name }
    requires parts { blank.parts ≡ L.parts }
    requires some { 0 < blank.parts }

    ensures refused { ¬ AreAccepted words.now →
        (result.status ≡ Status.Usage) ⊎ (result.status ≡ Status.NoMemory) }
    ensures usage { result.status ≡ Status.Usage → ¬ AreAccepted words.now }
{
    let alloc = *devices.allocator();
    let mut source = streams.source;
    let mut sink = streams.sink;
    let status = arnold(
        alloc,
        words,
        &mut StdSource::new(&mut source),
        &mut StdSink::new(&mut sink),
        &mut disk,
        &mut chooser,
        &mut devices,
        &mut Steps::<L>::new(blank),
    );
    ending_of(status, &disk, source.error, sink.error)
}

/// Makes what the words ask for: the chooser, the clock, the entropy device with their seed, and the
/// silent device. Runs the session over the log that they name, and tells how it ended.
fn run(rt: &HostRuntime, words: &io::Result<Vec<String>>) -> Ending {
    let words = match words {
        Ok(words) => words,
        Err(error) => return Ending::from(status_of(error)),
    };
    let options = match read_words(rt.alloc(), words.as_slice()) {
        Ok(options) => options,
        Err(WordsError::Usage) => return Ending::from(Status::Usage),
        Err(WordsError::NoMemory) => return Ending::from(Status::NoMemory),
    };
    let Ok(host) = rt.clone() else {
        return Ending::from(Status::NoMemory);
    };
    let Ok(hand) = rt.clone() else {
        return Ending::from(Status::NoMemory);
    };
    let chooser: Box<dyn Chooser> = if options.random {
        match Box::new(rt.alloc(), SeededChooser::new(options.seed)) {
            Ok(chooser) => chooser,
            Err(_) => return Ending::from(Status::NoMemory),
        }
    } else {
        match Box::new(rt.alloc(), RoundChooser::new(options.round)) {
            Ok(chooser) => chooser,
            Err(_) => return Ending::from(Status::NoMemory),
        }
    };
    let clock: Box<dyn Device> = match Box::new(rt.alloc(), ClockDevice::new(hand)) {
        Ok(device) => device,
        Err(_) => return Ending::from(Status::NoMemory),
    };
    let entropy: Box<dyn Device> = match Box::new(rt.alloc(), EntropyDevice::new(options.seed)) {
        Ok(device) => device,
        Err(_) => return Ending::from(Status::NoMemory),
    };
    let silent: Box<dyn Device> = match Box::new(rt.alloc(), SilentDevice::new()) {
        Ok(device) => device,
        Err(_) => return Ending::from(Status::NoMemory),
    };
    let Ok(devices) = vec![in rt.alloc(); Some(clock), Some(entropy), Some(silent)] else {
        return Ending::from(Status::NoMemory);
    };
    session::<Brand, _, _, _>(
        words.as_slice(),
        FileDisk::new(host, options.log),
        chooser,
        devices,
        Streams::new(rt.stdin(), rt.stdout()),
        Blank::new(1),
    )
}

/// What the words say, where they are accepted.
fn options_of(alloc: Global, words: &io::Result<Vec<String>>) -> Option<Options> {
    match words {
        Ok(words) => read_words(alloc, words.as_slice()).ok(),
        Err(_) => None,
    }
}

/// Prints what is wrong with the words, and which there are.
fn report_words(rt: &HostRuntime, words: &io::Result<Vec<String>>) -> io::Result<()> {
    let words = match words {
        Ok(words) => words,
        Err(error) => return eprintln!(rt; "arnold: can't read the words: {error}"),
    };
    match refusal_text(rt.alloc(), words.as_slice())? {
        Some(text) => eprint!(rt; "arnold: {text}"),
        None => Ok(()),
    }
}

/// Prints how a session ended, behind the path of its log where the words name one.
fn report_ending(
    rt: &HostRuntime,
    words: &io::Result<Vec<String>>,
    ending: &Ending,
) -> io::Result<()> {
    match options_of(rt.alloc(), words) {
        Some(options) => eprintln!(rt; "arnold: {}: {ending}", options.log.as_str()),
        None => eprintln!(rt; "arnold: {ending}"),
    }
}

fn main(rt: HostRuntime) -> ExitCode {
    let words = words(&rt);
    let ending = run(&rt, &words);
    let reported = match ending.status {
        Status::Done => Ok(()),
        Status::Usage => report_words(&rt, &words),
        _ => report_ending(&rt, &words, &ending),
    };
    let _ = reported;
    ExitCode::from(ending.status.code())
}
