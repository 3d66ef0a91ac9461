// What is kept of groups that were followed.
ghost use Rattle.std.specs.Prelude.{◌≡◌, IfOk, IfSome, IsOk, Some};
ghost use Rattle.followed_groups.specs.Relations as told;
ghost use Rattle.followed_groups.specs.Relations.{HasFound, Holds, HoldsNoMore, KeepsAlso, KeepsNoMore, KeepsNothing, room};

use crate::given::{only_if, put};
use arn_base::NoMemory;
use group_extents::Extent;
use lru::LruCache;
use rv64_model::Linkage;
use std::alloc::Global;
use std::num::NonZeroUsize;
use taint_tracker::Tracker;

/// A group, and the number of a linkage.
pub type Key = (u32, u8);

/// What followed a group, and how far the group had come then.
#[derive(Drop)]
pub struct Relation {
    pub extent: Extent,
    pub tracker: Tracker,
}

type Cache = LruCache<Key, Relation>;

/// The number of a linkage.
fn number_of(linkage: Linkage) -> u8
    ensures { result ≡ told.number_of linkage }
{
    match linkage {
        Linkage::Copy => 0,
        Linkage::Data => 1,
        Linkage::Index => 2,
    }
}

// Takes out what a cache has under a key, if it is from where the group had come as far.
fn take_from(cache: &mut Cache, key: Key, extent: Extent) -> Option<Tracker>
    ensures found { IfSome result (λ tracker.
        Holds (Some cache.old) key (record { extent = extent; tracker = tracker })) }
    ensures kept { HoldsNoMore (Some cache.old) (Some cache.new) }
    ensures room { cache.new.cap ≡ cache.old.cap }
{
    let relation = cache.pop(&key)?;
    let same = relation.extent == extent;
    only_if(relation.tracker, same)
}

/// The relations of groups that were asked about lately, each under its group and linkage, or none.
#[derive(Drop)]
pub struct Relations {
    pub(crate) alloc: Global,
    cache: Option<Cache>,
}

impl Relations {
    /// With room for so many.
    pub fn new(alloc: Global, most: u32) -> Result<Relations, NoMemory>
        ensures none { IfOk result KeepsNothing }
        ensures room { IfOk result (λ relations. room relations ≡ most) }
        ensures bare { most ≡ 0 → IsOk result }
    {
        match NonZeroUsize::new(most as usize) {
            Some(cap) => Ok(Relations {
                alloc,
                cache: Some(LruCache::sparse(alloc, cap)?),
            }),
            None => Ok(Relations { alloc, cache: None }),
        }
    }

    /// Without room none is kept.
    pub fn have_room(&self)
        ensures { room self.now ≡ 0 → KeepsNothing self.now }
    {
        if let Some(cache) = &self.cache {
            let _len = cache.len();
        }
    }

    /// Takes out what followed a group under a linkage, if it is kept from where the group had come as far.
    pub(crate) fn take(&mut self, group: u32, linkage: Linkage, extent: Extent) -> Option<Tracker>
        ensures found { IfSome result (HasFound self.old linkage group extent) }
        ensures kept { KeepsNoMore self.old self.new }
        ensures room { room self.new ≡ room self.old }
    {
        match &mut self.cache {
            Some(cache) => take_from(cache, (group, number_of(linkage)), extent),
            None => None,
        }
    }

    /// Keeps what followed a group under a linkage, where there is memory for it.
    pub(crate) fn put(&mut self, group: u32, linkage: Linkage, relation: Relation)
        ensures also { KeepsAlso self.old self.new linkage group relation }
        ensures room { room self.new ≡ room self.old }
    {
        match &mut self.cache {
            Some(cache) => put(cache, (group, number_of(linkage)), relation),
            None => drop(relation),
        }
    }
}
