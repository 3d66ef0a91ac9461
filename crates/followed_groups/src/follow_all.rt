// Several groups, followed one after the other.
ghost use Rattle.std.specs.Prelude.{◌≡◌, ◌≤◌, ◌+◌, ◌++◌, [], ◌∷◌, IfErr, IfOk, None, OnOk};
ghost use Rattle.history_index.specs.Indexes.{AreCountable, Indexes};
ghost use Rattle.history_model.specs.Alone.{alone};
ghost use Rattle.followed_groups.specs.Follows.{Explains, Follows};
ghost use Rattle.followed_groups.specs.Following.{HasFollowed, HasOnly, IsOf};
ghost use Rattle.followed_groups.specs.Parts.{IsPart, IsReplayed, ran_in};
ghost use Rattle.followed_groups.specs.Relations.{AreOf, KeepsNoMore, KeepsNothing, room};
ghost use Rattle.query_model.specs.Answers.{disagreement_in, first_disagreement};
ghost use Rattle.replayer.specs.Bounds.{ran_before};

use crate::follow::follow;
use crate::followed::Followed;
use crate::given::after;
use crate::relations::Relations;
use arn_base::{Numbers, Record, Steps};
use group_extents::{Extent, equal_extents_make_one};
use history_index::Index;
use replayer::QueryError;
use rv64_model::Linkage;
use std::sync::ledger::Ledger;
use taint_tracker::Tracker;

impl Relations {
    /// What follows a group up to a moment. Where none is kept from where the group had come as far, the group
    /// is replayed, and named behind those that were before.
    fn follow_one<L: Ledger>(
        &mut self,
        entries: &[Record],
        index: &Index,
        linkage: Linkage,
        group: u32,
        until: u64,
        replayed: &mut Numbers,
        steps: &mut Steps<L>,
    ) -> Result<Tracker, QueryError>
        requires countable { AreCountable entries.now }
        requires indexed { Indexes index.now entries.now }
        requires seen { AreOf entries.now self.old }
        ensures ok { IfOk result (Follows linkage entries.now until group) }
        ensures err { IfErr result (Explains (disagreement_in (alone entries.now group until))) }
        ensures counted { OnOk result
            (IsReplayed entries.now until group replayed.old replayed.new steps.old steps.new) }
        ensures bounded { steps.new ≤ steps.old + ran_before entries.now group until }
        ensures all { KeepsNothing self.old → OnOk result (replayed.new ≡ replayed.old ++ group ∷ []) }
        ensures adds { KeepsNoMore self.old self.new }
        ensures seen { AreOf entries.now self.new }
        ensures room { room self.new ≡ room self.old }
    {
        equal_extents_make_one();
        let extent = Extent::of(entries, index, group, until);
        if let Some(tracker) = self.take(group, linkage, extent) {
            return Ok(tracker);
        }
        let tracker = follow(self.alloc, entries, index, linkage, group, until, steps)?;
        Ok(after(tracker, replayed.push(group))?)
    }

    /// Follows groups up to a moment, in their order, and names those that were replayed for that.
    pub fn follow_all<'a, L: Ledger>(
        &mut self,
        entries: &'a [Record],
        index: &'a Index,
        linkage: Linkage,
        groups: &[u32],
        until: u64,
        steps: &mut Steps<L>,
    ) -> Result<(Followed<'a>, Numbers), QueryError>
        requires countable { AreCountable entries.now }
        requires indexed { Indexes index.now entries.now }
        requires seen { AreOf entries.now self.old }
        ensures of { IfOk result (λ run. IsOf entries.now linkage until run.0) }
        ensures has { IfOk result (λ run. HasFollowed run.0 groups.now) }
        ensures only { IfOk result (λ run. HasOnly run.0 groups.now) }
        ensures agree { OnOk result (first_disagreement entries.now until groups.now ≡ None) }
        ensures err { IfErr result (Explains (first_disagreement entries.now until groups.now)) }
        ensures part { IfOk result (λ run. IsPart run.1 groups.now) }
        ensures counted { IfOk result
            (λ run. steps.new ≡ steps.old + ran_in entries.now until run.1) }
        ensures bounded { steps.new ≤ steps.old + ran_in entries.now until groups.now }
        ensures all { KeepsNothing self.old → IfOk result (λ run. run.1 ≡ groups.now) }
        ensures adds { KeepsNoMore self.old self.new }
        ensures seen { AreOf entries.now self.new }
        ensures room { room self.new ≡ room self.old }
    {
        let mut followed = Followed::new(self.alloc, entries, index, linkage, until);
        let mut replayed = Numbers::new(self.alloc);
        for group in groups {
            let tracker = self.follow_one(
                entries,
                index,
                linkage,
                *group,
                until,
                &mut replayed,
                steps,
            )?;
            followed.add(*group, tracker)?;
        }
        Ok((followed, replayed))
    }
}
