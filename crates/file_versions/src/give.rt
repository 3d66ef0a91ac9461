// Bytes and origins, apart.
ghost use Rattle.std.specs.Prelude.{◌≡◌, ◌+◌, ◌<◌, ◌^◌, ◌++◌, ◌∷◌, [], if◌then◌else◌, All, IfOk, map, Some, None};
ghost use Rattle.guest_give.specs.Runs.{goes_on, with_place};
ghost use Rattle.parts_model.specs.Tagged.{one_origin, origins_of, values};
ghost use Rattle.file_versions.specs.Cells.{IsCounted};

use arn_base::{Bytes, NoMemory, Origin, Origins, Src};
use parts_model::TaggedByte;
use std::alloc::Global;

/// The bytes without their origins.
pub fn content(alloc: Global, held: &[TaggedByte]) -> Result<Bytes, NoMemory>
    ensures { IfOk result (λ bytes. bytes ≡ values held.now) }
{
    let bytes: Vec<u8> = held.iter().map(|byte| byte.value).collect(alloc)?;
    Ok(Bytes::from(bytes))
}

/// Their origins, as the longest runs.
pub fn origins(alloc: Global, held: &[TaggedByte]) -> Result<Origins, NoMemory>
    ensures { All IsCounted held.now
        → IfOk result (λ origins. origins ≡ origins_of (map (λ byte. byte.origin) held.now)) }
{
    let mut origins = Origins::new(alloc);
    let mut last: Option<Origin> = None;
    for byte in held {
        last = Some(match last {
            Some(run) => go_on(&mut origins, run, byte.origin)?,
            None => single(byte.origin),
        });
    }
    if let Some(run) = last {
        origins.push(run)?;
    }
    Ok(origins)
}

/// The last run with one more place; where the place isn't the next one, the run is kept and another one begins.
fn go_on(origins: &mut Origins, run: Origin, place: Src) -> Result<Origin, NoMemory>
    ensures { place.at + 1 < 2 ^ 32 → IfOk result (λ last.
        origins.new ++ last ∷ [] ≡ with_place (origins.old ++ run ∷ []) place) }
{
    if let Some(longer) = with_next(run, place) {
        return Ok(longer);
    }
    origins.push(run)?;
    Ok(single(place))
}

/// The run with one more place, if that is the one behind it.
fn with_next(run: Origin, place: Src) -> Option<Origin>
    ensures { place.at + 1 < 2 ^ 32
        → result ≡ (if goes_on run place then Some (record run { len = run.len + 1 }) else None) }
{
    let len = run.len.checked_add(1)?;
    if is_next(run, place) {
        Some(Origin { len, ..run })
    } else {
        None
    }
}

/// Whether the place is the one behind those of the run.
fn is_next(run: Origin, place: Src) -> bool
    ensures { result ≡ goes_on run place }
{
    run.event == place.event && u64::from(run.at) + u64::from(run.len) == u64::from(place.at)
}

fn single(place: Src) -> Origin
    ensures { result ≡ one_origin place }
{
    Origin {
        event: place.event,
        at: place.at,
        len: 1,
    }
}
