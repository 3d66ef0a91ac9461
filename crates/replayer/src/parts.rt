// A slice of a group, and what stands behind it before the next slice.
ghost use Rattle.std.specs.Prelude.{◌≡◌, ◌+◌, ◌<◌, ◌≤◌, ◌^◌, min, ◌-◌, None, IfErr, IfSome, IsTrue, OnOk, drop, get_or, if◌then◌else◌, length, not, option_and_then, take};
ghost use Rattle.arn_base.specs.declared.machine.Cpu.{Cpu};
ghost use Rattle.arn_base.specs.declared.records.Record.TheVariants as kind;
ghost use Rattle.acts_model.specs.Moved.{is_call_or_end};
ghost use Rattle.acts_model.specs.Told.{act_of};
ghost use Rattle.history_model.specs.Alone as alone;
ghost use Rattle.history_model.specs.Alone.{Makes, Own};
ghost use Rattle.history_model.specs.Broken.{first_broken, greatest};
ghost use Rattle.history_model.specs.Groups.{group_of};
ghost use Rattle.replay_steps.specs.Calls.{ChildIsFree, child_joined, if_ticked, is_own};
ghost use Rattle.replay_steps.specs.Notices.{Listener};
ghost use Rattle.replay_steps.specs.Plain.{slice_of};
ghost use Rattle.replay_steps.specs.Standing.{Explains, GainsOnly, IsStanding, KeepsLives, Reaches, Stands};
ghost use Rattle.replayer.specs.Parts.{LivesIn, made_after, part_after, part_len, part_made, part_of, turn_after};

use crate::ReplayError;
use acts_model::{Observer, is_event};
use arn_base::{Record, Steps};
use guest_bodies::Bodies;
use history_index::SliceAt;
use replay_steps::Turn;
use std::sync::ledger::Ledger;

/// A slice of the group at hand: what it tells, how many of its instructions are still to be run,
/// and whether its begin and its end come before the moment.
#[derive(Drop)]
pub struct Part {
    turn: Turn,
    owed: u32,
    is_begun: bool,
    is_ended: bool,
}

// How many instructions of a slice come before the moment.
fn before_moment(at: &SliceAt, until: u64) -> u32
    ensures { result ≡ (part_of until at.now).owed }
{
    let left = until.saturating_sub(at.moment);
    if u64::from(at.ran) <= left {
        at.ran
    } else {
        left as u32
    }
}

fn ends_before(at: &SliceAt, until: u64) -> bool
    ensures { result ≡ (part_of until at.now).is_ended }
{
    at.moment <= until && u64::from(at.ran) <= until - at.moment
}

impl Part {
    fn new(at: &SliceAt, until: u64) -> Part
        ensures { result ≡ part_of until at.now }
    {
        let turn = Turn {
            pid: at.pid,
            ran: at.ran,
            event: u64::from(at.event),
            end_event: u64::from(at.event),
        };
        Part {
            turn,
            owed: before_moment(at, until),
            is_begun: at.moment <= until,
            is_ended: ends_before(at, until),
        }
    }

    // Does what the record of a delivery tells.
    fn signal<O: Observer, L: Ledger>(
        &self,
        bodies: &mut Bodies,
        pid: u32,
        entry: &Record,
        observer: &mut O,
        steps: &mut Steps<L>,
    ) -> Result<(), ReplayError>
        requires own { IsTrue (is_own entry.now) }
        requires standing { IsStanding bodies.old self.now.turn.event }
        requires child { (cpu : Cpu) → IfSome (act_of cpu entry.now) (ChildIsFree bodies.old) }
        ensures lives { (cpu : Cpu) → OnOk result (GainsOnly
            (option_and_then child_joined (act_of cpu entry.now)) bodies.old bodies.new) }
        ensures ok { (own : Own) → Stands bodies.old self.now.turn.event own →
            OnOk result (Reaches (record { begins = O.begins; runs = O.runs; hears = O.hears })
            observer.old steps.old own (alone.made_if self.now.is_begun (Makes own)
            (alone.happens pid self.now.turn.event entry.now))
            bodies.new (self.now.turn.event + 1) observer.new steps.new) }
        ensures err { (own : Own) → Stands bodies.old self.now.turn.event own →
            IfErr result (Explains (alone.made_if self.now.is_begun (Makes own)
            (alone.happens pid self.now.turn.event entry.now))) }
        ensures bounded { steps.new ≤ steps.old + if_ticked (is_call_or_end entry.now) }
    {
        if !self.is_begun {
            return Ok(());
        }
        replay_steps::happen(bodies, pid, self.turn.event, entry, observer, steps)
    }

    // Does what the record at the end of a slice tells.
    fn end<O: Observer, L: Ledger>(
        &mut self,
        bodies: &mut Bodies,
        entry: &Record,
        observer: &mut O,
        steps: &mut Steps<L>,
    ) -> Result<(), ReplayError>
        requires last { IsTrue (is_call_or_end entry.now) }
        requires standing { IsStanding bodies.old self.old.turn.event }
        requires child { (cpu : Cpu) → IfSome (act_of cpu entry.now) (ChildIsFree bodies.old) }
        ensures part { OnOk result (self.new ≡ record self.old {
          owed = if self.old.is_ended then 0 else self.old.owed;
        }) }
        ensures lives { (cpu : Cpu) → OnOk result (GainsOnly
            (option_and_then child_joined (act_of cpu entry.now)) bodies.old bodies.new) }
        ensures ok { (own : Own) → Stands bodies.old self.old.turn.event own →
            OnOk result (Reaches (record { begins = O.begins; runs = O.runs; hears = O.hears })
            observer.old steps.old own (alone.made_if self.old.is_ended (Makes own)
            (alone.ends_slice (slice_of self.old.turn) self.old.owed entry.now))
            bodies.new (self.old.turn.event + 1) observer.new steps.new) }
        ensures err { (own : Own) → Stands bodies.old self.old.turn.event own →
            IfErr result (Explains (alone.made_if self.old.is_ended (Makes own)
            (alone.ends_slice (slice_of self.old.turn) self.old.owed entry.now))) }
        ensures bounded { steps.new ≤ steps.old + self.old.owed }
        ensures paid { OnOk result (steps.new + self.new.owed ≤ steps.old + self.old.owed) }
    {
        if !self.is_ended {
            return Ok(());
        }
        replay_steps::end_slice(bodies, &self.turn, self.owed, entry, observer, steps)?;
        self.owed = 0;
        Ok(())
    }

    // Does what the record of an event behind the slice tells.
    fn happen<O: Observer, L: Ledger>(
        &mut self,
        bodies: &mut Bodies,
        entry: &Record,
        observer: &mut O,
        steps: &mut Steps<L>,
    ) -> Result<(), ReplayError>
        requires standing { IsStanding bodies.old self.old.turn.event }
        requires child { (cpu : Cpu) → IfSome (act_of cpu entry.now) (ChildIsFree bodies.old) }
        ensures part { OnOk result (self.new ≡ record self.old {
          owed = (part_after self.old entry.now).owed;
        }) }
        ensures lives { (cpu : Cpu) → OnOk result (GainsOnly
            (option_and_then child_joined (act_of cpu entry.now)) bodies.old bodies.new) }
        ensures ok { (own : Own) → Stands bodies.old self.old.turn.event own →
            OnOk result (Reaches (record { begins = O.begins; runs = O.runs; hears = O.hears })
            observer.old steps.old own (made_after self.old entry.now own)
            bodies.new (self.old.turn.event + 1) observer.new steps.new) }
        ensures err { (own : Own) → Stands bodies.old self.old.turn.event own →
            IfErr result (Explains (made_after self.old entry.now own)) }
        ensures bounded { steps.new ≤ steps.old + self.old.owed }
        ensures paid { OnOk result (steps.new + self.new.owed ≤ steps.old + self.old.owed) }
    {
        match entry {
            Record::Signal { pid, .. } => self.signal(bodies, *pid, entry, observer, steps),
            Record::Call { .. } | Record::End { .. } => self.end(bodies, entry, observer, steps),
            Record::File { .. }
            | Record::Boot { .. }
            | Record::Typed { .. }
            | Record::Unplug { .. }
            | Record::Slice { .. } => Ok(()),
        }
    }

    // Counts an event behind the slice: a delivery comes before the event that ends it.
    fn count(&mut self, entry: &Record)
        requires room { self.old.turn.event + 1 < 2 ^ 64 }
        ensures { self.new ≡ record self.old { turn = turn_after self.old.turn entry.now } }
    {
        self.turn.event += 1;
        if matches!(entry, Record::Signal { .. }) {
            self.turn.end_event = self.turn.event;
        }
    }

    // Takes the record of an event behind the slice.
    fn take<O: Observer, L: Ledger>(
        &mut self,
        bodies: &mut Bodies,
        entry: &Record,
        observer: &mut O,
        steps: &mut Steps<L>,
    ) -> Result<(), ReplayError>
        requires room { self.old.turn.event + 1 < 2 ^ 64 }
        requires standing { IsStanding bodies.old self.old.turn.event }
        requires child { (cpu : Cpu) → IfSome (act_of cpu entry.now) (ChildIsFree bodies.old) }
        ensures part { OnOk result (self.new ≡ part_after self.old entry.now) }
        ensures lives { (cpu : Cpu) → OnOk result (GainsOnly
            (option_and_then child_joined (act_of cpu entry.now)) bodies.old bodies.new) }
        ensures ok { (own : Own) → Stands bodies.old self.old.turn.event own →
            OnOk result (Reaches (record { begins = O.begins; runs = O.runs; hears = O.hears })
            observer.old steps.old own (made_after self.old entry.now own)
            bodies.new (self.old.turn.event + 1) observer.new steps.new) }
        ensures err { (own : Own) → Stands bodies.old self.old.turn.event own →
            IfErr result (Explains (made_after self.old entry.now own)) }
        ensures bounded { steps.new ≤ steps.old + self.old.owed }
        ensures paid { OnOk result (steps.new + self.new.owed ≤ steps.old + self.old.owed) }
    {
        self.happen(bodies, entry, observer, steps)?;
        self.count(entry);
        Ok(())
    }

    // Runs what is owed.
    fn settle<O: Observer, L: Ledger>(
        &self,
        bodies: &mut Bodies,
        observer: &mut O,
        steps: &mut Steps<L>,
    ) -> Result<(), ReplayError>
        ensures lives { KeepsLives bodies.old bodies.new }
        ensures ok { (own : Own) → Stands bodies.old self.now.turn.event own →
            OnOk result (Reaches (record { begins = O.begins; runs = O.runs; hears = O.hears })
            observer.old steps.old own (alone.plains (slice_of self.now.turn) 0 self.now.owed own)
            bodies.new self.now.turn.event observer.new steps.new) }
        ensures err { (own : Own) → Stands bodies.old self.now.turn.event own →
            IfErr result (Explains (alone.plains (slice_of self.now.turn) 0 self.now.owed own)) }
        ensures bounded { steps.new ≤ steps.old + self.now.owed }
    {
        replay_steps::run(bodies, &self.turn, self.owed, observer, steps)
    }
}

// Where the next slice stands, or the records end.
fn part_end(entries: &[Record], from: usize) -> usize
    requires { from ≤ length entries.now }
    ensures end { result ≡ part_len (drop from entries.now) + from }
    ensures inside { result ≤ length entries.now }
{
    for place in from..entries.len() {
        if !is_event(&entries[place]) {
            return place;
        }
    }
    entries.len()
}

/// Runs a slice of a group, and does what stands behind it.
pub fn run_slice<O: Observer, L: Ledger>(
    bodies: &mut Bodies,
    entries: &[Record],
    until: u64,
    at: &SliceAt,
    observer: &mut O,
    steps: &mut Steps<L>,
) -> Result<(), ReplayError>
    requires stands { first_broken entries.now ≡ None }
    requires few { length entries.now < 2 ^ 32 }
    requires inside { at.now.place < length entries.now }
    requires early { at.now.event ≤ at.now.place }
    requires slice { kind.Slice at.now.pid at.now.ran ≡
        get_or entries.now at.now.place (kind.Slice at.now.pid at.now.ran) }
    requires lives { LivesIn entries.now (group_of entries.now at.now.pid)
        (greatest (take (at.now.place + 1) entries.now)) bodies.old }
    requires standing { IsStanding bodies.old at.now.event }
    ensures lives { OnOk result (LivesIn entries.now (group_of entries.now at.now.pid)
        (greatest (take (part_len (drop (at.now.place + 1) entries.now) + (at.now.place + 1))
        entries.now)) bodies.new) }
    ensures ok { (own : Own) → Stands bodies.old at.now.event own →
        OnOk result (Reaches (record { begins = O.begins; runs = O.runs; hears = O.hears })
        observer.old steps.old own
        (part_made (part_of until at.now) (drop (at.now.place + 1) entries.now) own)
        bodies.new (at.now.event + part_len (drop (at.now.place + 1) entries.now))
        observer.new steps.new) }
    ensures err { (own : Own) → Stands bodies.old at.now.event own → IfErr result (Explains
        (part_made (part_of until at.now) (drop (at.now.place + 1) entries.now) own)) }
    ensures bounded { steps.new ≤ steps.old + min at.now.ran (until - at.now.moment) }
{
    let mut part = Part::new(at, until);
    let from = at.place as usize + 1;
    for place in from..part_end(entries, from) {
        part.take(bodies, &entries[place], observer, steps)?;
    }
    part.settle(bodies, observer, steps)
}
