//! Bytes that a process is given, and where they came from.
#![tactic(auto)]

ghost use Rattle.std.specs.Prelude.{◌≡◌, ◌<◌, ◌≤◌, ◌^◌, ◌++◌, ◌==◌, ◌+◌, ◌&&◌, ◌∷◌, [], length, map, IfOk, option_to_list};
ghost use Rattle.parts_model.specs.Tagged.{given, held_bytes, one_origin, origins_of, values};
ghost use Rattle.guest_give.specs.Runs.{goes_on, with_place, whole_run};

use arn_base::{Bytes, Give, NoMemory, Origin, Origins, Src};
use parts_model::TaggedByte;
use std::alloc::Global;

/// The bytes without their origins, and their origins as the longest runs: neighbours of one event
/// whose places follow each other are one origin.
pub fn give_of(alloc: Global, held: &[TaggedByte]) -> Result<Give, NoMemory>
    requires few { length held.now < 2 ^ 32 }
    ensures given { IfOk result (λ give. give ≡ given held.now) }
    ensures few_bytes { IfOk result (λ give. length give.bytes ≤ length held.now) }
    ensures few_origins { IfOk result (λ give. length give.origins ≤ length held.now) }
{
    Ok(Give {
        bytes: bytes_of(alloc, held)?,
        origins: origins(alloc, held)?,
    })
}

/// All the bytes of an event, which are one run.
pub fn give_whole(alloc: Global, event: u64, bytes: &[u8]) -> Result<Give, NoMemory>
    requires few { length bytes.now < 2 ^ 32 }
    ensures given { IfOk result (λ give. give ≡ given (held_bytes event bytes.now)) }
    ensures few_bytes { IfOk result (λ give. length give.bytes ≤ length bytes.now) }
    ensures few_origins { IfOk result (λ give. length give.origins ≤ 1) }
{
    Ok(Give {
        bytes: Bytes::from_slice(alloc, bytes)?,
        origins: whole(alloc, event, bytes.len() as u32)?,
    })
}

// One run of all bytes of an event, if it has any.
fn whole(alloc: Global, event: u64, len: u32) -> Result<Origins, NoMemory>
    ensures runs { IfOk result (λ origins. origins ≡ whole_run event len) }
    ensures few { IfOk result (λ origins. length origins ≤ 1) }
{
    let mut origins = Origins::new(alloc);
    if len > 0 {
        origins.push(Origin { event, at: 0, len })?;
    }
    Ok(origins)
}

fn bytes_of(alloc: Global, held: &[TaggedByte]) -> Result<Bytes, NoMemory>
    ensures { IfOk result (λ bytes. bytes ≡ values held.now) }
{
    let bytes: Vec<u8> = held.iter().map(|byte| byte.value).collect(alloc)?;
    Ok(Bytes::from(bytes))
}

fn origins(alloc: Global, held: &[TaggedByte]) -> Result<Origins, NoMemory>
    requires few { length held.now < 2 ^ 32 }
    ensures { IfOk result (λ origins. origins ≡ origins_of (map (λ byte. byte.origin) held.now)) }
{
    let mut origins = Origins::new(alloc);
    let mut last: Option<Origin> = None;
    for byte in held {
        last = Some(match last {
            Some(run) => go_on(&mut origins, run, byte.origin)?,
            None => single(byte.origin),
        });
    }
    if let Some(run) = last {
        origins.push(run)?;
    }
    Ok(origins)
}

// The last run with one more place; where the place isn't the next one, the run is kept and another
// one begins.
#[inline(always)]
fn go_on(origins: &mut Origins, run: Origin, place: Src) -> Result<Origin, NoMemory>
    requires few { run.len + 1 < 2 ^ 32 }
    ensures runs { IfOk result (λ last.
        origins.new ++ last ∷ [] ≡ with_place (origins.old ++ run ∷ []) place) }
    ensures few { IfOk result (λ last. last.len ≤ run.len + 1) }
{
    if is_next(&run, place) {
        return Ok(Origin {
            len: run.len + 1,
            ..run
        });
    }
    origins.push(run)?;
    Ok(single(place))
}

// Whether the place is the one behind those of the origin.
#[inline(always)]
fn is_next(run: &Origin, place: Src) -> bool
    ensures { result ≡ goes_on run.now place }
{
    run.event == place.event && u64::from(run.at) + u64::from(run.len) == u64::from(place.at)
}

#[inline(always)]
fn single(place: Src) -> Origin
    ensures { result ≡ one_origin place }
{
    Origin {
        event: place.event,
        at: place.at,
        len: 1,
    }
}
