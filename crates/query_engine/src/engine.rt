// Queries.
ghost use Rattle.std.specs.Prelude.{◌≡◌, ◌≤◌, ◌+◌, IfErr, IfOk, IsOk, List, Ok, OnErr, length, true};
ghost use Rattle.arn_base.specs.declared.records.Record.{Record};
ghost use Rattle.rv64_model.specs.Carries.{operands};
ghost use Rattle.exchange_graph.specs.Reach.{Rises};
ghost use Rattle.history_index.specs.Indexes.{AreCountable, Indexes};
ghost use Rattle.history_model.specs.Events.{event_at, is_range};
ghost use Rattle.query_engine.specs.Asked.{Answers, AnswersEvent, Fails, FailsEvent, RunsNothing, in_file, moment_asked, ran_about, ran_for, ran_for_held, ran_for_named};
ghost use Rattle.query_engine.specs.Engines.{AddsNone, HasSeen, KeepsNone, ReplaysAll, keep_of};
ghost use Rattle.followed_groups.specs.Following.{HasFollowed, IsOf};
ghost use Rattle.followed_groups.specs.Follows.{Explains};
ghost use Rattle.followed_groups.specs.Parts.{ran_in};
ghost use Rattle.followed_pairs.specs.States as told;
ghost use Rattle.query_engine.specs.Names.{AnswersNamed, AnswersWritten, FailsNamed};
ghost use Rattle.query_engine.specs.States.{AnswersHeld, FailsHeld};
ghost use Rattle.parts_model.specs.declared.limits.TheConstants.{MOST_ASKED};
ghost use Rattle.query_laws.specs.Names.{AreWritten};
ghost use Rattle.replay_steps.specs.declared.errors.QueryError.TheVariants as error;
ghost use Rattle.query_model.specs.Answers.{count_in, event_groups, moment_of};
ghost use Rattle.query_model.specs.Answers as model;
ghost use Rattle.query_model.specs.Names.{written_disagreement, written_groups};

use crate::behind::behind;
use crate::law::{laws, laws_of_names};
use crate::{names, states};
use arn_base::{Bytes, NoMemory, Numbers, Pairs, Record, Steps};
use exchange_graph::Graph;
use followed_groups::{Followed, Relations};
use followed_pairs::{
    Asked, count_all, event_pairs, has_range, is_held, items_are_of_groups, part, version,
};
use history_index::Index;
use parts_model::TaggedByte;
use parts_model::limits::MOST_ASKED;
use query_model::{Held, Part};
use replayer::QueryError;
use rv64_model::Linkage;
use std::alloc::Global;
use std::sync::ledger::Ledger;
use window_laws::blocks_are_whole;

/// Of which bytes is asked where they come from.
#[derive(Drop)]
pub enum Target {
    /// Bytes of an event.
    Event {
        event: u64,
        from: u32,
        len: u32,
    },
    /// Bytes of a process's memory at a moment, from an address on.
    Mem {
        moment: u64,
        pid: u32,
        at: u64,
        len: u32,
    },
    /// The eight bytes of a process's register at a moment.
    Reg {
        moment: u64,
        pid: u32,
        reg: u8,
    },
    /// Bytes of the file that has the name at a moment, from a place on.
    Name {
        moment: u64,
        name: Bytes,
        from: u64,
        len: u32,
    },
}

/// What a query answers: source bytes beside bytes of the target, rising; the groups that are asked, and how
/// many instructions these counted in all; and which of them were replayed for it.
#[derive(Debug, Drop)]
pub struct Answer {
    pub pairs: Pairs,
    pub groups: Numbers,
    pub instructions: u64,
    pub replayed: Numbers,
}

/// Answers queries, and keeps what followed the groups that were asked lately. The records of a later query
/// begin with those of the earlier ones.
#[derive(Drop)]
pub struct Engine {
    pub(crate) alloc: Global,
    pub(crate) kept: Relations,
}

/// The groups that are asked about an event.
fn groups_about(
    alloc: Global,
    entries: &[Record],
    index: &Index,
    event: u64,
) -> Result<Numbers, NoMemory>
    requires countable { AreCountable entries.now }
    requires indexed { Indexes index.now entries.now }
    ensures ok { IfOk result (λ groups. groups ≡ event_groups entries.now event) }
    ensures rises { IfOk result Rises }
{
    laws();
    let graph = Graph::build(alloc, entries, index)?;
    behind(&graph, index.event_group(event))
}

/// The moment up to which groups are followed for an event.
fn moment_about(index: &Index, event: u64) -> u64
    ensures { (entries : List Record) → Indexes index.now entries →
        result ≡ moment_of entries event }
{
    index.event_moment(event).unwrap_or(0)
}

/// The pairs that answer of bytes of an event.
fn pairs(
    alloc: Global,
    entries: &[Record],
    index: &Index,
    linkage: Linkage,
    followed: &Followed<'_>,
    event: u64,
    from: u32,
    len: u32,
) -> Result<Pairs, NoMemory>
    requires indexed { Indexes index.now entries.now }
    requires range { is_range (event_at entries.now event) from len ≡ true }
    requires of { IsOf entries.now linkage (moment_of entries.now event) followed.now }
    requires has { HasFollowed followed.now (event_groups entries.now event) }
    ensures { IfOk result
        (λ pairs. pairs ≡ model.event_pairs (operands linkage) entries.now event from len) }
{
    laws();
    blocks_are_whole(entries);
    items_are_of_groups();
    event_pairs(alloc, entries, index, followed, Asked { event, from, len })
}

/// These pairs, beside the groups that were asked for them and those that were replayed.
pub fn answer_of(
    _entries: &[Record],
    index: &Index,
    groups: Numbers,
    pairs: Pairs,
    replayed: Numbers,
) -> Answer
    requires indexed { Indexes index.now _entries.now }
    requires rises { Rises groups }
    ensures pairs { result.pairs ≡ pairs }
    ensures groups { result.groups ≡ groups }
    ensures replayed { result.replayed ≡ replayed }
    ensures instructions { result.instructions ≡ count_in _entries.now groups }
{
    let instructions = count_all(_entries, index, groups.as_slice());
    Answer {
        pairs,
        groups,
        instructions,
        replayed,
    }
}

impl Engine {
    /// An engine that keeps the relations of so many groups between queries, each under one linkage.
    pub fn new(alloc: Global, keep: u32) -> Result<Engine, NoMemory>
        ensures none { IfOk result KeepsNone }
        ensures seen { (entries : List Record) → IfOk result (HasSeen entries) }
        ensures keep { IfOk result (λ engine. keep_of engine ≡ keep) }
        ensures bare { keep ≡ 0 → IsOk result }
    {
        let kept = Relations::new(alloc, keep)?;
        Ok(Engine { alloc, kept })
    }

    /// Keeps what followed groups, and answers with pairs; or memory ran out for these.
    pub(crate) fn conclude(
        &mut self,
        entries: &[Record],
        index: &Index,
        groups: Numbers,
        run: (Followed<'_>, Numbers),
        pairs: Result<Pairs, NoMemory>,
    ) -> Result<Answer, QueryError>
        requires indexed { Indexes index.now entries.now }
        requires rises { Rises groups }
        requires of { run.0.entries ≡ entries.now }
        requires seen { HasSeen entries.now self.old }
        ensures pairs { IfOk result (λ answer. pairs ≡ Ok answer.pairs) }
        ensures groups { IfOk result (λ answer. answer.groups ≡ groups) }
        ensures replayed { IfOk result (λ answer. answer.replayed ≡ run.entry.1) }
        ensures instructions { IfOk result
            (λ answer. answer.instructions ≡ count_in entries.now groups) }
        ensures err { IfErr result (λ why. why ≡ error.NoMemory) }
        ensures left { OnErr result (AddsNone self.old self.new) }
        ensures seen { HasSeen entries.now self.new }
        ensures keep { keep_of self.new ≡ keep_of self.old }
    {
        let pairs = pairs?;
        let (followed, replayed) = run;
        followed.keep(entries, groups.as_slice(), &mut self.kept);
        Ok(answer_of(entries, index, groups, pairs, replayed))
    }

    /// Where bytes of an event come from that it has.
    fn event_back<L: Ledger>(
        &mut self,
        entries: &[Record],
        index: &Index,
        linkage: Linkage,
        event: u64,
        from: u32,
        len: u32,
        steps: &mut Steps<L>,
    ) -> Result<Answer, QueryError>
        requires countable { AreCountable entries.now }
        requires indexed { Indexes index.now entries.now }
        requires seen { HasSeen entries.now self.old }
        requires range { is_range (event_at entries.now event) from len ≡ true }
        ensures ok { IfOk result (AnswersEvent linkage entries.now event from len) }
        ensures err { IfErr result (FailsEvent entries.now event from len) }
        ensures counted { IfOk result (λ answer. steps.new ≡ steps.old
            + ran_in entries.now (moment_of entries.now event) answer.replayed) }
        ensures bounded { steps.new ≤ steps.old + ran_for entries.now event }
        ensures all { KeepsNone self.old → IfOk result ReplaysAll }
        ensures left { OnErr result (AddsNone self.old self.new) }
        ensures seen { HasSeen entries.now self.new }
        ensures keep { keep_of self.new ≡ keep_of self.old }
    {
        let groups = groups_about(self.alloc, entries, index, event)?;
        let until = moment_about(index, event);
        let run = self
            .kept
            .follow_all(entries, index, linkage, groups.as_slice(), until, steps)?;
        let pairs = pairs(
            self.alloc, entries, index, linkage, &run.0, event, from, len,
        );
        self.conclude(entries, index, groups, run, pairs)
    }

    /// Where bytes come from that a process holds at a moment.
    fn held_back<L: Ledger>(
        &mut self,
        entries: &[Record],
        index: &Index,
        linkage: Linkage,
        held: Held,
        steps: &mut Steps<L>,
    ) -> Result<Answer, QueryError>
        requires countable { AreCountable entries.now }
        requires indexed { Indexes index.now entries.now }
        requires seen { HasSeen entries.now self.old }
        requires there { told.is_held entries.now held ≡ true }
        ensures ok { IfOk result (AnswersHeld linkage entries.now held) }
        ensures err { IfErr result (FailsHeld entries.now held) }
        ensures counted { IfOk result (λ answer. steps.new ≡ steps.old
            + ran_in entries.now held.moment answer.replayed) }
        ensures bounded { steps.new ≤ steps.old + ran_for_held entries.now held }
        ensures all { KeepsNone self.old → IfOk result ReplaysAll }
        ensures left { OnErr result (AddsNone self.old self.new) }
        ensures seen { HasSeen entries.now self.new }
        ensures keep { keep_of self.new ≡ keep_of self.old }
    {
        let groups = states::groups_of(self.alloc, entries, index, held.pid)?;
        let run = self.kept.follow_all(
            entries,
            index,
            linkage,
            groups.as_slice(),
            held.moment,
            steps,
        )?;
        let pairs = states::pairs(self.alloc, entries, index, linkage, &run.0, held);
        self.conclude(entries, index, groups, run, pairs)
    }

    /// Where bytes come from that a process holds at a moment, if they are there.
    fn state_back<L: Ledger>(
        &mut self,
        entries: &[Record],
        index: &Index,
        linkage: Linkage,
        held: Held,
        steps: &mut Steps<L>,
    ) -> Result<Answer, QueryError>
        requires countable { AreCountable entries.now }
        requires indexed { Indexes index.now entries.now }
        requires seen { HasSeen entries.now self.old }
        ensures ok { IfOk result (AnswersHeld linkage entries.now held) }
        ensures err { IfErr result (FailsHeld entries.now held) }
        ensures counted { IfOk result (λ answer. steps.new ≡ steps.old
            + ran_in entries.now held.moment answer.replayed) }
        ensures unasked { IfErr result (λ error. RunsNothing error steps.old steps.new) }
        ensures bounded { steps.new ≤ steps.old + ran_for_held entries.now held }
        ensures all { KeepsNone self.old → IfOk result ReplaysAll }
        ensures left { OnErr result (AddsNone self.old self.new) }
        ensures seen { HasSeen entries.now self.new }
        ensures keep { keep_of self.new ≡ keep_of self.old }
    {
        if !is_held(entries, index, held) {
            return Err(QueryError::NoPoint);
        }
        self.held_back(entries, index, linkage, held, steps)
    }

    /// Where bytes come from that were written by a moment.
    fn written_back<L: Ledger>(
        &mut self,
        entries: &[Record],
        index: &Index,
        linkage: Linkage,
        moment: u64,
        bytes: &[TaggedByte],
        steps: &mut Steps<L>,
    ) -> Result<Answer, QueryError>
        requires countable { AreCountable entries.now }
        requires indexed { Indexes index.now entries.now }
        requires seen { HasSeen entries.now self.old }
        requires few { length bytes.now ≤ MOST_ASKED }
        requires written { AreWritten entries.now bytes.now }
        ensures ok { IfOk result (AnswersWritten linkage entries.now moment bytes.now) }
        ensures err { IfErr result (Explains (written_disagreement entries.now moment bytes.now)) }
        ensures counted { IfOk result (λ answer. steps.new ≡ steps.old
            + ran_in entries.now moment answer.replayed) }
        ensures bounded { steps.new ≤
            steps.old + ran_in entries.now moment (written_groups entries.now bytes.now) }
        ensures all { KeepsNone self.old → IfOk result ReplaysAll }
        ensures left { OnErr result (AddsNone self.old self.new) }
        ensures seen { HasSeen entries.now self.new }
        ensures keep { keep_of self.new ≡ keep_of self.old }
    {
        let groups = names::groups_of(self.alloc, entries, index, bytes)?;
        let run = self
            .kept
            .follow_all(entries, index, linkage, groups.as_slice(), moment, steps)?;
        let pairs = names::pairs(self.alloc, entries, index, linkage, &run.0, moment, bytes);
        self.conclude(entries, index, groups, run, pairs)
    }

    /// Where bytes come from that the file has that a name stands for at a moment, if they are there.
    fn name_back<L: Ledger>(
        &mut self,
        entries: &[Record],
        index: &Index,
        linkage: Linkage,
        moment: u64,
        name: &[u8],
        from: u64,
        len: u32,
        steps: &mut Steps<L>,
    ) -> Result<Answer, QueryError>
        requires countable { AreCountable entries.now }
        requires indexed { Indexes index.now entries.now }
        requires seen { HasSeen entries.now self.old }
        ensures ok { IfOk result
            (AnswersNamed linkage entries.now (in_file moment name.now from len)) }
        ensures err { IfErr result (FailsNamed entries.now (in_file moment name.now from len)) }
        ensures counted { IfOk result (λ answer. steps.new ≡ steps.old
            + ran_in entries.now moment answer.replayed) }
        ensures unasked { IfErr result (λ error. RunsNothing error steps.old steps.new) }
        ensures bounded { steps.new ≤
            steps.old + ran_for_named entries.now (in_file moment name.now from len) }
        ensures all { KeepsNone self.old → IfOk result ReplaysAll }
        ensures left { OnErr result (AddsNone self.old self.new) }
        ensures seen { HasSeen entries.now self.new }
        ensures keep { keep_of self.new ≡ keep_of self.old }
    {
        laws_of_names();
        let held = version(self.alloc, entries, index, moment, name)?;
        let Some(bytes) = part(held.as_slice(), from, len) else {
            return Err(QueryError::NoPoint);
        };
        self.written_back(entries, index, linkage, moment, bytes, steps)
    }

    /// Which source bytes reach bytes of a target. It replays the groups from which the target's own can
    /// have received bytes, each up to the target's moment, and no more; and of these only the ones of which
    /// it keeps no relation that tells the same.
    pub fn back<L: Ledger>(
        &mut self,
        entries: &[Record],
        index: &Index,
        linkage: Linkage,
        target: &Target,
        steps: &mut Steps<L>,
    ) -> Result<Answer, QueryError>
        requires countable { AreCountable entries.now }
        requires indexed { Indexes index.now entries.now }
        requires seen { HasSeen entries.now self.old }
        ensures ok { IfOk result (Answers linkage entries.now target.now) }
        ensures err { IfErr result (Fails entries.now target.now) }
        ensures counted { IfOk result (λ answer. steps.new ≡ steps.old
            + ran_in entries.now (moment_asked entries.now target.now) answer.replayed) }
        ensures unasked { IfErr result (λ error. RunsNothing error steps.old steps.new) }
        ensures bounded { steps.new ≤ steps.old + ran_about entries.now target.now }
        ensures first { KeepsNone self.old → IfOk result ReplaysAll }
        ensures without { keep_of self.old ≡ 0 → IfOk result ReplaysAll }
        ensures left { OnErr result (AddsNone self.old self.new) }
        ensures seen { HasSeen entries.now self.new }
        ensures keep { keep_of self.new ≡ keep_of self.old }
    {
        self.kept.have_room();
        match target {
            Target::Event { event, from, len } => {
                if !has_range(index, *event, *from, *len) {
                    return Err(QueryError::NoPoint);
                }
                self.event_back(entries, index, linkage, *event, *from, *len, steps)
            }
            Target::Mem {
                moment,
                pid,
                at,
                len,
            } => {
                let held = Held {
                    moment: *moment,
                    pid: *pid,
                    part: Part::Memory { at: *at, len: *len },
                };
                self.state_back(entries, index, linkage, held, steps)
            }
            Target::Reg { moment, pid, reg } => {
                let held = Held {
                    moment: *moment,
                    pid: *pid,
                    part: Part::Register(*reg),
                };
                self.state_back(entries, index, linkage, held, steps)
            }
            Target::Name {
                moment,
                name,
                from,
                len,
            } => self.name_back(
                entries,
                index,
                linkage,
                *moment,
                name.as_slice(),
                *from,
                *len,
                steps,
            ),
        }
    }
}
