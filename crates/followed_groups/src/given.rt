// Values that are given on, whatever they are.
ghost use Rattle.std.specs.Prelude.{◌≡◌, ◌⊎◌, ℕ, cond, Contains, Err, IfErr, IfOk, IfSome, IsOk, IsTrue, OnErr, OnOk, Some};
ghost use Rattle.std.specs.BTreeMap.{is_at};
ghost use Rattle.std.specs.Map.{lookup};
ghost use Rattle.std.specs.Ordering.{nat_cmp};

use crate::relations::Key;
use arn_base::NoMemory;
use lru::LruCache;
use std::collections::BTreeMap;

/// The value, where the other was made too.
pub(crate) fn after<T: Drop, U: Drop, E>(value: T, done: Result<U, E>) -> Result<T, E>
    ensures ok { IfOk result (λ given. (given ≡ value) × IsOk done) }
    ensures err { IfErr result (λ why. done ≡ Err why) }
{
    match done {
        Ok(_) => Ok(value),
        Err(why) => Err(why),
    }
}

/// The value, if it is to be kept.
pub(crate) fn only_if<T: Drop>(value: T, keeps: bool) -> Option<T>
    ensures { IfSome result (λ kept. (kept ≡ value) × IsTrue keeps) }
{
    if keeps { Some(value) } else { None }
}

/// Puts a value under a number.
pub(crate) fn insert<V: Drop>(
    map: &mut BTreeMap<u32, V>,
    key: u32,
    value: V,
) -> Result<(), NoMemory>
    ensures updates { OnOk result ((q : ℕ) → lookup (is_at (nat_cmp q)) map.new.entries
        ≡ cond (is_at (nat_cmp key) q) (Some value) (lookup (is_at (nat_cmp q)) map.old.entries)) }
    ensures err { OnErr result (map.new.entries ≡ map.old.entries) }
{
    map.insert(key, value)?;
    Ok(())
}

/// Puts a value into a cache, where there is memory for it.
pub(crate) fn put<V: Drop>(cache: &mut LruCache<Key, V>, key: Key, value: V)
    ensures also { (k : ℕ × ℕ) (v : V) → Contains cache.new.entries (k, v)
        → Contains cache.old.entries (k, v) ⊎ ((k ≡ key) × (v ≡ value)) }
    ensures room { cache.new.cap ≡ cache.old.cap }
{
    let _ = cache.put(key, value);
}
