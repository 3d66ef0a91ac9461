// What was followed of groups.
ghost use Rattle.std.specs.Prelude.{◌≡◌, [], IfSome, OnOk, option_map, unwrap_or};
ghost use Rattle.history_index.specs.Indexes.{AreCountable, Indexes};
ghost use Rattle.history_model.specs.Events.{len_of};
ghost use Rattle.history_model.specs.Groups.{event_group, group_of};
ghost use Rattle.followed_groups.specs.Follows.{Follows};
ghost use Rattle.followed_groups.specs.Following.{Adds, AddsOnly, HasOnly, IsFollowing, IsOf, told_by};
ghost use Rattle.followed_groups.specs.Relations.{AreOf, IsRelation, room};
ghost use Rattle.taint_tracker.specs.Items.{listed};

use crate::given::insert;
use crate::relations::{Relation, Relations};
use arn_base::{NoMemory, Record};
use group_extents::Extent;
use history_index::Index;
use rv64_model::Linkage;
use std::alloc::Global;
use std::collections::BTreeMap;
use std::marker::Model;
use taint_tracker::{KeptItems, Point, Tracker};

/// Groups that were followed up to a moment, by number.
#[derive(Drop)]
pub struct Followed<'a> {
    entries: &'a [Record],
    index: &'a Index,
    linkage: Linkage,
    until: u64,
    trackers: BTreeMap<u32, Tracker>,
}

impl<'a> Model for Followed<'a> {
    ghost use Rattle.followed_groups.specs.Following.{Following};

    ghost Value = { Following };

    ghost use Rattle.followed_groups.specs.Following.{IsIndexed};

    ghost view = { λ s. record { entries = s.entries.now; linkage = s.linkage; until = s.until; trackers = s.trackers.entries } };

    ghost invariant = { λ s. IsIndexed s.index.now (record { entries = s.entries.now; linkage = s.linkage; until = s.until; trackers = s.trackers.entries }) };
}

impl<'a> Followed<'a> {
    /// Of no group.
    pub(crate) fn new(
        alloc: Global,
        entries: &'a [Record],
        index: &'a Index,
        linkage: Linkage,
        until: u64,
    ) -> Followed<'a>
        requires countable { AreCountable entries.now }
        requires indexed { Indexes index.now entries.now }
        ensures of { IsOf entries.now linkage until result }
        ensures none { HasOnly result [] }
    {
        Followed {
            entries,
            index,
            linkage,
            until,
            trackers: BTreeMap::new(alloc),
        }
    }

    /// Keeps what followed a group.
    pub(crate) fn add(&mut self, group: u32, tracker: Tracker) -> Result<(), NoMemory>
        requires { Follows self.old.linkage self.old.entries self.old.until group tracker }
        ensures adds { OnOk result (Adds group self.old self.new) }
        ensures only { OnOk result (AddsOnly group self.old self.new) }
    {
        insert(&mut self.trackers, group, tracker)?;
        Ok(())
    }

    /// Takes out what followed a group, and how far that had come.
    fn take(&mut self, group: u32) -> Option<Relation>
        ensures found { IfSome result (IsRelation self.old.linkage self.old.entries group) }
        ensures of { IsOf self.old.entries self.old.linkage self.old.until self.new }
    {
        let tracker = self.trackers.remove(&group)?;
        let extent = Extent::of(self.entries, self.index, group, self.until);
        Some(Relation { extent, tracker })
    }

    /// Takes out what followed a group, and keeps that.
    fn keep_one(&mut self, _entries: &[Record], group: u32, kept: &mut Relations)
        requires of { self.old.entries ≡ _entries.now }
        requires seen { AreOf _entries.now kept.old }
        ensures of { self.new.entries ≡ _entries.now }
        ensures seen { AreOf _entries.now kept.new }
        ensures room { room kept.new ≡ room kept.old }
    {
        let linkage = self.linkage;
        if let Some(relation) = self.take(group) {
            kept.put(group, linkage, relation);
        }
    }

    /// Keeps what followed these groups.
    pub fn keep(self, _entries: &[Record], groups: &[u32], kept: &mut Relations)
        requires of { self.entries ≡ _entries.now }
        requires seen { AreOf _entries.now kept.old }
        ensures seen { AreOf _entries.now kept.new }
        ensures room { room kept.new ≡ room kept.old }
    {
        let mut followed = self;
        for group in groups {
            followed.keep_one(_entries, *group, kept);
        }
    }

    /// The items of a byte of a group, where it was followed.
    fn told(&self, group: Option<u32>, point: Point) -> Option<KeptItems<'_>>
        ensures { unwrap_or (option_map listed result) [] ≡ told_by self.now point group }
    {
        let tracker = self.trackers.get(&group?)?;
        tracker.local(point)
    }

    /// The items of a byte that a member holds, where its group was followed, or none.
    pub fn held(&self, pid: u32, point: Point) -> KeptItems<'_>
        ensures { listed result ≡ told_by self.now point (group_of self.now.entries pid) }
    {
        self.told(self.index.group_of(pid), point)
            .unwrap_or(KeptItems::Nothing)
    }

    /// The items of a byte of an event, where the event's group was followed, or none.
    pub fn heard(&self, event: u64, point: Point) -> KeptItems<'_>
        ensures { listed result ≡ told_by self.now point (event_group self.now.entries event) }
    {
        self.told(self.index.event_group(event), point)
            .unwrap_or(KeptItems::Nothing)
    }

    /// How many bytes an event has, if there is one.
    pub fn event_len(&self, event: u64) -> Option<u32>
        ensures { result ≡ len_of self.now.entries event }
    {
        self.index.event_len(event)
    }

    /// Each group that is kept was followed.
    pub fn are_followed(&self)
        ensures { IsFollowing self.now }
    {
        let _until = self.until;
    }
}
