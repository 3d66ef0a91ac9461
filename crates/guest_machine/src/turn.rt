// The turn of a process: perhaps a delivery, then instructions, then perhaps a call or an end by fault.
ghost use Rattle.std.specs.Prelude.{◌≡◌, ◌≢◌, ◌+◌, ◌<◌, ◌≤◌, ◌^◌, ℕ, All, IfOk, IfSome, None, OnErr, length, option_to_list, vec_len, vec_capacity};
ghost use Rattle.result_log.specs.Spelling.{HasSpelling};
ghost use Rattle.guest_bodies.specs.Shown.{IsLive};
ghost use Rattle.arn_base.specs.declared.records.Record.TheVariants as kind;
ghost use Rattle.arn_model.specs.Step.{fault_step};
ghost use Rattle.guest_calls.specs.State.{OfProcess, StandsFor};
ghost use Rattle.rv64_model.specs.Instruction.{Call, End};
ghost use Rattle.guest_legs.specs.Pieces.{spelled_len};
ghost use Rattle.guest_machine.specs.Recorded.{IsReal, OfEach};
ghost use Rattle.guest_machine.specs.Turns.{Delivers, Finishes, Happens, RanPlain, StandsAt, StopsAt, Takes};

use arn_base::{NoMemory, Record, Steps};
use arn_model::turns_have_parts;
use guest_bodies::Stood;
use guest_calls::{CallStop, Kernel};
use guest_devices::Answers;
use guest_legs::{SLICE_RECORDS, keep_turn};
use rv64_core::Outcome;
use std::sync::ledger::Ledger;

/// What a turn did: how many instructions ran, and how many bytes its records are spelled by. `cut`
/// says that a store or its call found no memory, and isn't of it.
#[derive(Clone, Copy)]
pub struct Taken {
    pub ran: u32,
    pub len: u64,
    pub cut: bool,
}

// Delivers the due signal of a process, if there is one, and answers the record.
#[inline(always)]
fn deliver(kernel: &mut Kernel, pid: u32) -> Option<Record>
    requires live { IsLive kernel.old.guests pid }
    requires real { IsReal kernel.old }
    requires room { kernel.old.events + 1 < 2 ^ 64 }
    ensures delivers { OfProcess kernel.old pid (λ m v. Delivers m pid v result kernel.new) }
    ensures real { IsReal kernel.new }
    ensures events { kernel.new.events ≤ kernel.old.events + 1 }
    ensures spelled { IfSome result HasSpelling }
{
    let event = kernel.events();
    match kernel.deliver(pid, event) {
        Some(delivered) => Some(Record::Signal {
            pid,
            signal: delivered.signal,
            cut: delivered.cut,
            handler: delivered.handler,
        }),
        None => None,
    }
}

// Runs up to so many instructions of a process that the next one follows.
fn run_plain<L: Ledger>(kernel: &mut Kernel, pid: u32, count: u32, steps: &mut Steps<L>) -> Stood
    requires live { IsLive kernel.old.guests pid }
    requires real { IsReal kernel.old }
    ensures ran { OfEach kernel.old (λ m. RanPlain m pid count result kernel.new) }
    ensures live { IsLive kernel.new.guests pid }
    ensures real { IsReal kernel.new }
    ensures events { kernel.new.events ≡ kernel.old.events }
    ensures within { result.ran ≤ count }
    ensures some { result.outcome ≢ Outcome.Next → result.ran < count }
    ensures steps { steps.new ≤ steps.old + result.ran + 1 }
    ensures at_most { steps.new ≤ steps.old + count }
{
    kernel.run(pid, count, steps)
}

// Carries out the call at which a process stands, and answers its record, or none where it isn't ready.
fn call<A: Answers>(
    kernel: &mut Kernel,
    pid: u32,
    answers: &mut A,
) -> Result<Option<Record>, NoMemory>
    requires live { IsLive kernel.old.guests pid }
    requires real { IsReal kernel.old }
    requires room { kernel.old.events + 1 < 2 ^ 64 }
    requires at_call { OfEach kernel.old (λ m. StandsAt m pid Call) }
    ensures happens { IfOk result (λ entry. OfEach kernel.old (λ m.
        Happens A.answers m pid entry answers.old answers.new kernel.new)) }
    ensures spelled { IfOk result (λ entry. IfSome entry HasSpelling) }
    ensures real { IsReal kernel.new }
    ensures events { kernel.new.events ≤ kernel.old.events + 1 }
    ensures err { OnErr result (kernel.new ≡ kernel.old) }
    ensures unasked { OnErr result (answers.new ≡ answers.old) }
{
    let event = kernel.events();
    let number = kernel.call_number(pid);
    match kernel.perform(pid, event, answers) {
        Ok(done) => Ok(Some(Record::Call {
            pid,
            number,
            result: done.result,
            extra: done.extra,
        })),
        Err(CallStop::NotReady) => Ok(None),
        Err(CallStop::NoMemory) => Err(NoMemory),
    }
}

// Ends a process by a fault, and answers the record.
fn end(kernel: &mut Kernel, pid: u32, status: u8) -> Record
    requires live { IsLive kernel.old.guests pid }
    requires real { IsReal kernel.old }
    requires room { kernel.old.events + 1 < 2 ^ 64 }
    ensures record { result ≡ kind.End pid status }
    ensures ended { OfProcess kernel.old pid (λ m v.
        StandsFor kernel.new (fault_step m pid v status).after) }
    ensures spelled { HasSpelling result }
    ensures real { IsReal kernel.new }
    ensures events { kernel.new.events ≤ kernel.old.events + 1 }
{
    let event = kernel.events();
    kernel.fault(pid, status, event);
    Record::End { pid, status }
}

// Finishes a turn where its instructions ended, and answers the record of what happened. A store that
// found no memory is no part of it.
fn finish<A: Answers>(
    kernel: &mut Kernel,
    pid: u32,
    outcome: Outcome,
    answers: &mut A,
) -> Result<Option<Record>, NoMemory>
    requires live { IsLive kernel.old.guests pid }
    requires real { IsReal kernel.old }
    requires room { kernel.old.events + 1 < 2 ^ 64 }
    requires at_call { outcome ≡ Outcome.Call → OfEach kernel.old (λ m. StandsAt m pid Call) }
    requires at_end { (status : ℕ) → outcome ≡ Outcome.End status →
        OfEach kernel.old (λ m. StandsAt m pid (End status)) }
    ensures finishes { IfOk result (λ entry. OfEach kernel.old (λ m.
        Finishes outcome A.answers m pid entry answers.old answers.new kernel.old kernel.new)) }
    ensures spelled { IfOk result (λ entry. IfSome entry HasSpelling) }
    ensures real { IsReal kernel.new }
    ensures events { kernel.new.events ≤ kernel.old.events + 1 }
    ensures none { IfOk result (λ entry. outcome ≡ Outcome.Next → entry ≡ None) }
    ensures err { OnErr result (kernel.new ≡ kernel.old) }
    ensures unasked { OnErr result (answers.new ≡ answers.old) }
    ensures called { OnErr result (outcome ≢ Outcome.Next) }
{
    match outcome {
        Outcome::Next => Ok(None),
        Outcome::Call => call(kernel, pid, answers),
        Outcome::End(status) => Ok(Some(end(kernel, pid, status))),
        Outcome::NoMemory => Err(NoMemory),
    }
}

// A call or an end by fault is an instruction.
fn counted(last: &Option<Record>) -> u32
    ensures { result ≡ length (option_to_list last.now) }
{
    match last {
        Some(_) => 1,
        None => 0,
    }
}

/// A process takes its turn for up to so many instructions. Its records go behind others, of which
/// there is room for as many as a slice has.
pub fn take_turn<A: Answers, L: Ledger>(
    kernel: &mut Kernel,
    pid: u32,
    count: u32,
    answers: &mut A,
    out: &mut Vec<Record>,
    steps: &mut Steps<L>,
) -> Taken
    requires live { IsLive kernel.old.guests pid }
    requires real { IsReal kernel.old }
    requires room { kernel.old.events + 2 < 2 ^ 64 }
    requires records { vec_len out.old + SLICE_RECORDS ≤ vec_capacity out.old }
    ensures takes { OfEach kernel.old (λ m. Takes A.answers m pid count result
        answers.old answers.new kernel.new out.old.items out.new.items) }
    ensures real { IsReal kernel.new }
    ensures events { kernel.new.events ≤ kernel.old.events + 2 }
    ensures within { result.ran ≤ count }
    ensures spelled { All HasSpelling out.old.items → All HasSpelling out.new.items }
    ensures len { spelled_len out.new.items ≡ spelled_len out.old.items + result.len }
    ensures few { result.len < 2 ^ 39 }
    ensures steps { steps.new ≤ steps.old + result.ran + 1 }
    ensures at_most { steps.new ≤ steps.old + count }
{
    turns_have_parts();
    let delivery = deliver(kernel, pid);
    if !kernel.is_live(pid) {
        return Taken {
            ran: 0,
            len: keep_turn(out, pid, 0, delivery, None),
            cut: false,
        };
    }
    let stood = run_plain(kernel, pid, count, steps);
    match finish(kernel, pid, stood.outcome, answers) {
        Ok(last) => {
            let ran = stood.ran + counted(&last);
            Taken {
                ran,
                len: keep_turn(out, pid, ran, delivery, last),
                cut: false,
            }
        }
        Err(NoMemory) => Taken {
            ran: stood.ran,
            len: keep_turn(out, pid, stood.ran, delivery, None),
            cut: true,
        },
    }
}
