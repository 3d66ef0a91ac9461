// Queries forward.
ghost use Rattle.std.specs.Prelude.{◌≡◌, ◌≤◌, ◌+◌, IfErr, IfOk, OnErr, true};
ghost use Rattle.followed_groups.specs.Parts.{ran_in};
ghost use Rattle.history_index.specs.Indexes.{AreCountable, Indexes};
ghost use Rattle.history_model.specs.Events.{event_at, is_range};
ghost use Rattle.history_model.specs.Moments.{total};
ghost use Rattle.query_engine.specs.Asked.{RunsNothing};
ghost use Rattle.query_engine.specs.Engines.{AddsNone, HasSeen, KeepsNone, ReplaysAll, keep_of};
ghost use Rattle.query_engine.specs.Forth.{AnswersForth, FailsForth, ran_forth};

use crate::engine::{Answer, Engine};
use crate::first::forth_groups;
use crate::sinks::pairs_among;
use arn_base::{Record, Steps};
use followed_pairs::{Asked, has_range};
use history_index::Index;
use replayer::QueryError;
use rv64_model::Linkage;
use std::sync::ledger::Ledger;

impl Engine {
    /// What bytes reach that an event has.
    fn event_forth<L: Ledger>(
        &mut self,
        entries: &[Record],
        index: &Index,
        linkage: Linkage,
        asked: Asked,
        steps: &mut Steps<L>,
    ) -> Result<Answer, QueryError>
        requires countable { AreCountable entries.now }
        requires indexed { Indexes index.now entries.now }
        requires seen { HasSeen entries.now self.old }
        requires range { is_range (event_at entries.now asked.event) asked.from asked.len ≡ true }
        ensures ok { IfOk result
            (AnswersForth linkage entries.now asked.event asked.from asked.len) }
        ensures err { IfErr result (FailsForth entries.now asked.event asked.from asked.len) }
        ensures counted { IfOk result (λ answer. steps.new ≡ steps.old
            + ran_in entries.now (total entries.now) answer.replayed) }
        ensures bounded { steps.new ≤
            steps.old + ran_forth entries.now asked.event asked.from asked.len }
        ensures all { KeepsNone self.old → IfOk result ReplaysAll }
        ensures left { OnErr result (AddsNone self.old self.new) }
        ensures seen { HasSeen entries.now self.new }
        ensures keep { keep_of self.new ≡ keep_of self.old }
    {
        let groups = forth_groups(self.alloc, entries, index, asked)?;
        let run = self.kept.follow_all(
            entries,
            index,
            linkage,
            groups.as_slice(),
            index.total(),
            steps,
        )?;
        let pairs = pairs_among(
            self.alloc,
            entries,
            index,
            linkage,
            &run.0,
            groups.as_slice(),
            asked,
        );
        self.conclude(entries, index, groups, run, pairs)
    }

    /// Which bytes that went out are reached by bytes of an event, of which only bytes from outside reach
    /// any. It replays the groups to which these can have come, each up to the end, and no more; and of these
    /// only the ones of which it keeps no relation that tells the same.
    pub fn forth<L: Ledger>(
        &mut self,
        entries: &[Record],
        index: &Index,
        linkage: Linkage,
        event: u64,
        from: u32,
        len: u32,
        steps: &mut Steps<L>,
    ) -> Result<Answer, QueryError>
        requires countable { AreCountable entries.now }
        requires indexed { Indexes index.now entries.now }
        requires seen { HasSeen entries.now self.old }
        ensures ok { IfOk result (AnswersForth linkage entries.now event from len) }
        ensures err { IfErr result (FailsForth entries.now event from len) }
        ensures counted { IfOk result (λ answer. steps.new ≡ steps.old
            + ran_in entries.now (total entries.now) answer.replayed) }
        ensures unasked { IfErr result (λ error. RunsNothing error steps.old steps.new) }
        ensures bounded { steps.new ≤ steps.old + ran_forth entries.now event from len }
        ensures first { KeepsNone self.old → IfOk result ReplaysAll }
        ensures without { keep_of self.old ≡ 0 → IfOk result ReplaysAll }
        ensures left { OnErr result (AddsNone self.old self.new) }
        ensures seen { HasSeen entries.now self.new }
        ensures keep { keep_of self.new ≡ keep_of self.old }
    {
        self.kept.have_room();
        if !has_range(index, event, from, len) {
            return Err(QueryError::NoPoint);
        }
        self.event_forth(entries, index, linkage, Asked { event, from, len }, steps)
    }
}
