// The top call: reads a source to its end, and answers each command of its text to a sink.
ghost use Rattle.std.specs.Prelude.{◌≡◌, ◌≢◌, ◌⊎◌, ◌<◌, ◌≤◌, ◌^◌, [], ℕ, List, length, drop, IfNone, IfSome, None, Some};
ghost use Rattle.arn_base.specs.Faults.{Rose};
ghost use Rattle.arn_base.specs.declared.records.Differs.{Differs};
ghost use Rattle.arn_base.specs.declared.records.Record.{Record};
ghost use Rattle.arn_commands.specs.Parts.{text_parts, whole_parts};
ghost use Rattle.arn_session.specs.Opening.{FailsToOpen, HasBegun, HasOpened, IsOpened, NeverBegan};
ghost use Rattle.arn_session.specs.Status.{NumbersHold, open_status_of};
ghost use Rattle.arn_words.specs.Words.{AreAccepted};
ghost use Rattle.guest_devices.specs.Slots.{is_filled};
ghost use Rattle.history_model.specs.Broken.{first_broken};
ghost use Rattle.history_model.specs.Unplugged.{unplugged_in};
ghost use Rattle.log_model.specs.Records.{IsRun};
ghost use Rattle.log_store.specs.Causes.{IsCauseOf, BlamesBytes};
ghost use Rattle.log_store.specs.Refused.{IsNoLog};
ghost use Rattle.log_store.specs.Stops.{GoesOn, IsOnlyRead, LeavesOnly};
ghost use Rattle.log_store.specs.declared.errors.OpenError.{OpenError};
ghost use Rattle.log_store.specs.declared.size.TheConstants.{MOST_LOG};
ghost use Rattle.session_effects.specs.Carrying.{CarriesOut, HoldsLog, HoldsMore, IsAtRest, IsShut, Keeps, RestsMore};
ghost use Rattle.session_commands.specs.Answering.{IsNoRun};
ghost use Rattle.session_commands.specs.Given.{given};
ghost use Rattle.session_questions.specs.OfRuns.{AnswersAreOfRuns, GeneratedIsOfRuns, RunsAreUndamaged, SinksAreOfRuns, VerifyTellsRuns};
ghost use Rattle.session_questions.specs.Texts.{told};
ghost use Rattle.session_runs.specs.Points.{around};
ghost use Rattle.session_text.specs.Answered.{AnswersParts, AnswersTaken, TookAtMost, TookFewer};
ghost use Rattle.session_text.specs.Begun.{BeginsOn, FindsOn, slots_answer, standing};
ghost use Rattle.session_text.specs.Gone.{WereSpared, WereTouched};

use crate::status::{Damage, Status};
use arn_base::{Chooser, Device, Disk, Sink, Source, Steps};
use arn_words::{WordsError, read_words};
use guest_devices::Slots;
use history_index::IndexError;
use log_store::{Store, logs_read_one_way, store_is_short};
use session_effects::{Halt, Outside, effects_follow, halts_follow, openings_follow};
use session_questions::{Asking, answers_are_of_runs};
use session_runs::MachineRuns;
use session_text::answer_in_slots;
use std::alloc::Global;
use std::sync::ledger::Ledger;

// Why the words aren't accepted, or can't be read, if so.
fn words_error(alloc: Global, words: &[String]) -> Option<WordsError>
    ensures none { IfNone result (AreAccepted words.now) }
    ensures usage { result ≡ Some WordsError.Usage → ¬ AreAccepted words.now }
{
    read_words(alloc, words).err()
}

/// Does all that the program does: opens the log, reads the source command by command, commits what
/// each adds to the history, and answers it to the sink.
///
/// A session takes at most 2^40 bytes of the source.
pub fn arnold<S: Source, K: Sink, D: Disk, L: Ledger>(
    alloc: Global,
    words: &[String],
    source: &mut S,
    sink: &mut K,
    disk: &mut D,
    chooser: &mut Box<dyn Chooser>,
    devices: &mut Vec<Option<Box<dyn Device>>>,
    steps: &mut Steps<L>,
) -> Status
    // The words aren't accepted: nothing is read or written.
    ensures usage { result ≡ Status.Usage → ¬ AreAccepted words.now }
    ensures unaccepted { ¬ AreAccepted words.now →
        (result ≡ Status.Usage) ⊎ (result ≡ Status.NoMemory) }
    ensures unread { ¬ AreAccepted words.now → NeverBegan source.old source.new sink.old sink.new
        chooser.old chooser.new devices.old devices.new steps.old steps.new }
    ensures undisturbed { ¬ AreAccepted words.now → disk.new ≡ disk.old }

    // A told source was read to its end, and every line and block of it was answered.
    ensures read { result ≡ Status.Done →
        IfSome (S.left source.old) (λ text. S.left source.new ≡ Some []) }
    ensures answered { result ≡ Status.Done → (history : List Record) →
        HoldsLog D.Disk disk.old history → IfSome (S.left source.old) (λ text.
        AnswersParts (slots_answer ⟦<Box<dyn Device> as Device>⟧)
        (given told (is_filled devices.old.items)) history (text_parts text)
        (around (⟦<Box<dyn Chooser> as Chooser>⟧.choices chooser.old) devices.old.items steps.old)
        (around (⟦<Box<dyn Chooser> as Chooser>⟧.choices chooser.new) devices.new.items steps.new)
        (CarriesOut IsRun D.Disk disk.old disk.new
        history (K.holds sink.old) (K.holds sink.new))) }
    ensures short { result ≡ Status.Done →
        IfSome (S.left source.old) (λ text. length text < 2 ^ 40) }

    // The source, the sink or the disk failed.
    ensures source { result ≡ Status.Source → Rose (S.faults source.old) (S.faults source.new) }
    ensures sink { result ≡ Status.Sink → Rose (K.faults sink.old) (K.faults sink.new) }
    ensures disk { result ≡ Status.Disk → Rose (D.faults disk.old) (D.faults disk.new) }
    ensures early { result ≡ Status.Source →
        TookFewer (2 ^ 40) (S.left source.old) (S.left source.new) }

    // The sink failed before all that was to be printed had been put.
    ensures cut { result ≡ Status.Sink → (history : List Record) →
        HoldsLog D.Disk disk.old history → IfSome (S.left source.old) (λ text.
        BeginsOn D.Disk (slots_answer ⟦<Box<dyn Device> as Device>⟧)
        (given told (is_filled devices.old.items)) history
        (standing disk.old (K.holds sink.old)
        (around (⟦<Box<dyn Chooser> as Chooser>⟧.choices chooser.old) devices.old.items steps.old))
        (standing disk.new (K.holds sink.new)
        (around (⟦<Box<dyn Chooser> as Chooser>⟧.choices chooser.new) devices.new.items steps.new))
        Halt.Sink text (S.left source.new)) }

    // The disk failed in the opening, or in a commit: what comes before that commit was printed.
    ensures stopped { result ≡ Status.Disk → (history : List Record) →
        HoldsLog D.Disk disk.old history →
        FailsToOpen IsRun D.Disk disk.old disk.new history source.old source.new sink.old sink.new
        chooser.old chooser.new devices.old devices.new steps.old steps.new ⊎
        IfSome (S.left source.old) (λ text.
        BeginsOn D.Disk (slots_answer ⟦<Box<dyn Device> as Device>⟧)
        (given told (is_filled devices.old.items)) history
        (standing disk.old (K.holds sink.old)
        (around (⟦<Box<dyn Chooser> as Chooser>⟧.choices chooser.old) devices.old.items steps.old))
        (standing disk.new (K.holds sink.new)
        (around (⟦<Box<dyn Chooser> as Chooser>⟧.choices chooser.new) devices.new.items steps.new))
        Halt.Disk text (S.left source.new)) }

    // A commit doesn't fit into the log: what comes before it was printed, and no more.
    ensures full { (log payload : ℕ) → result ≡ Status.Full log payload →
        (history : List Record) → HoldsLog D.Disk disk.old history →
        IfSome (S.left source.old) (λ text.
        BeginsOn D.Disk (slots_answer ⟦<Box<dyn Device> as Device>⟧)
        (given told (is_filled devices.old.items)) history
        (standing disk.old (K.holds sink.old)
        (around (⟦<Box<dyn Chooser> as Chooser>⟧.choices chooser.old) devices.old.items steps.old))
        (standing disk.new (K.holds sink.new)
        (around (⟦<Box<dyn Chooser> as Chooser>⟧.choices chooser.new) devices.new.items steps.new))
        (Halt.Full log payload) text (S.left source.new)) }

    // Memory ran out, perhaps in the opening. The first lines and blocks were answered, and the answer
    // to one more may have begun.
    ensures begun { result ≡ Status.NoMemory → (history : List Record) →
        HoldsLog D.Disk disk.old history →
        FailsToOpen IsRun D.Disk disk.old disk.new history source.old source.new sink.old sink.new
        chooser.old chooser.new devices.old devices.new steps.old steps.new ⊎
        IfSome (S.left source.old) (λ text.
        BeginsOn D.Disk (slots_answer ⟦<Box<dyn Device> as Device>⟧)
        (given told (is_filled devices.old.items)) history
        (standing disk.old (K.holds sink.old)
        (around (⟦<Box<dyn Chooser> as Chooser>⟧.choices chooser.old) devices.old.items steps.old))
        (standing disk.new (K.holds sink.new)
        (around (⟦<Box<dyn Chooser> as Chooser>⟧.choices chooser.new) devices.new.items steps.new))
        Halt.NoMemory text (S.left source.new)) }

    // The bytes of the disk are no log, or too long.
    ensures refused { (error : OpenError) → BlamesBytes error →
        result ≡ open_status_of error →
        (IfSome (D.image disk.old) (λ bytes. IsCauseOf bytes error)) ×
        NeverBegan source.old source.new sink.old sink.new
        chooser.old chooser.new devices.old devices.new steps.old steps.new ×
        IsOnlyRead D.image D.may_leave D.moment D.left_since disk.old disk.new }
    ensures untouched { IfSome (D.image disk.old) (λ bytes.
        IsNoLog bytes ⊎ (MOST_LOG < length bytes) →
        NeverBegan source.old source.new sink.old sink.new
        chooser.old chooser.new devices.old devices.new steps.old steps.new ×
        IsOnlyRead D.image D.may_leave D.moment D.left_since disk.old disk.new) }
    ensures opened { IfSome (D.image disk.old) (IsOpened result) }

    // A record of the log can't stand where it does: the source isn't read.
    ensures broken { (place : ℕ) → result ≡ Status.Damaged (Damage.Broken place) →
        (history : List Record) → HoldsLog D.Disk disk.old history →
        first_broken history ≡ Some place }
    ensures stands { HasBegun result → (history : List Record) →
        HoldsLog D.Disk disk.old history → first_broken history ≡ None }
    ensures unbegun { (place : ℕ) → result ≡ Status.Damaged (Damage.Broken place) →
        NeverBegan source.old source.new sink.old sink.new
        chooser.old chooser.new devices.old devices.new steps.old steps.new }
    ensures keeps { (place : ℕ) → result ≡ Status.Damaged (Damage.Broken place) →
        (history : List Record) → IsAtRest D.Disk disk.old history →
        Keeps IsRun D.Disk disk.old disk.new history [] [] }

    // The records of the log aren't those of a run, and a line needed the machine.
    ensures differs { (d : Differs) → result ≡ Status.Damaged (Damage.Differs d) →
        (history : List Record) → HoldsLog D.Disk disk.old history →
        IsNoRun history d × IfSome (S.left source.old) (λ text.
        FindsOn D.Disk (slots_answer ⟦<Box<dyn Device> as Device>⟧)
        (given told (is_filled devices.old.items)) history
        (standing disk.old (K.holds sink.old)
        (around (⟦<Box<dyn Chooser> as Chooser>⟧.choices chooser.old) devices.old.items steps.old))
        (standing disk.new (K.holds sink.new)
        (around (⟦<Box<dyn Chooser> as Chooser>⟧.choices chooser.new) devices.new.items steps.new))
        text (S.left source.new)) }

    // As many bytes were taken as a session takes at most.
    ensures long { result ≡ Status.Long → IfSome (S.left source.old) (λ text.
        (2 ^ 40 ≤ length text) × (S.left source.new ≡ Some (drop (2 ^ 40) text))) }

    // Every line that was taken with its LF was answered, and nothing else: no block whose `end`
    // wasn't taken so.
    ensures taken { (result ≡ Status.Source) ⊎ (result ≡ Status.Long) →
        (history : List Record) → HoldsLog D.Disk disk.old history →
        AnswersTaken (slots_answer ⟦<Box<dyn Device> as Device>⟧)
        (given told (is_filled devices.old.items)) history
        (S.left source.old) (S.left source.new) whole_parts
        (around (⟦<Box<dyn Chooser> as Chooser>⟧.choices chooser.old) devices.old.items steps.old)
        (around (⟦<Box<dyn Chooser> as Chooser>⟧.choices chooser.new) devices.new.items steps.new)
        (CarriesOut IsRun D.Disk disk.old disk.new
        history (K.holds sink.old) (K.holds sink.new)) }

    // However the call ends, nothing came to devices but what slices ask and unpluggings, one after
    // the other; which these were, the clauses above say by the text. A slot is filled exactly where
    // it was and none of them unplugged it.
    ensures slots { WereTouched (slots_answer ⟦<Box<dyn Device> as Device>⟧)
        devices.old.items devices.new.items }

    // What was unplugged in the history or since isn't asked any more.
    ensures gone { (history : List Record) → HoldsLog D.Disk disk.old history →
        WereSpared (slots_answer ⟦<Box<dyn Device> as Device>⟧) (unplugged_in history)
        devices.old.items devices.new.items }

    // However the call ends, a stop at any moment since it began leaves a log of the history and
    // of more records behind it: of a run, if it was one. Which records these are, the clauses
    // above say.
    ensures any_moment { (history : List Record) →
        IsAtRest D.Disk disk.old history →
        LeavesOnly D.moment D.left_since disk.old disk.new (HoldsMore IsRun history) }

    // Unless the disk failed or memory ran out, nothing is pending then, as at the start.
    ensures rests { result ≢ Status.Disk → result ≢ Status.NoMemory → (history : List Record) →
        IsAtRest D.Disk disk.old history →
        RestsMore D.Disk disk.new history }

    // Nor is any byte behind the log's ending gate, which is closed.
    ensures shut { HasOpened result → IsShut D.Disk disk.new }

    ensures at_most { TookAtMost (2 ^ 40) (S.left source.old) (S.left source.new) }

    // The numbers of a status are what they say, also on a disk that tells nothing.
    ensures numbers { NumbersHold result }

    // The disk goes on: it tells its bytes where it did, and its count of faults doesn't fall.
    ensures later { GoesOn D.image D.faults disk.old disk.new }

    // On the records of a run the text for a question is what the tracking of every step of the
    // whole machine relates.
    ensures lineage { AnswersAreOfRuns }
    ensures sinks { SinksAreOfRuns }
    ensures generated { GeneratedIsOfRuns }

    // And nothing disagrees there that a question asks.
    ensures undamaged { RunsAreUndamaged }

    // And that the records are a run's is printed of a run's records, and of no others.
    ensures verify { VerifyTellsRuns }
{
    answers_are_of_runs();
    effects_follow::<MachineRuns, D>();
    halts_follow::<MachineRuns, D>();
    openings_follow::<MachineRuns, D>();
    match words_error(alloc, words) {
        Some(WordsError::Usage) => return Status::Usage,
        Some(WordsError::NoMemory) => return Status::NoMemory,
        None => {}
    }
    logs_read_one_way();
    let store = match Store::open_log(alloc, disk) {
        Ok(store) => store,
        Err(error) => return Status::from(error),
    };
    store_is_short(&store);
    let questions = match Asking::new(alloc, store.entries()) {
        Ok(questions) => questions,
        Err(IndexError::Broken { place }) => return Status::Damaged(Damage::Broken { place }),
        Err(IndexError::NoMemory) => return Status::NoMemory,
    };
    let mut text = String::new(alloc);
    let mut slots = Slots { devices };
    let mut outside = Outside {
        chooser,
        answers: &mut (),
        disk,
        sink,
        steps,
        text: &mut text,
    };
    match answer_in_slots(alloc, store, questions, source, &mut slots, &mut outside) {
        Ok(()) => Status::Done,
        Err(halt) => Status::from(halt),
    }
}
