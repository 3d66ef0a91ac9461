// Origins, read.
ghost use Rattle.std.specs.Prelude.{◌≡◌, ◌%◌, ◌<◌, ◌++◌, List, ℕ, length, flat_map, All, IfOk, IfSome, IfNone};
ghost use Rattle.exchange_log.specs.Gives.{origin_fields, BeginsOrigins, FitsOrigin};

use arn_base::{NoMemory, Origin, Origins};
use schedule_log::split::{split_u32, split_u64};
use std::alloc::Global;

// How many bytes the fields of one origin take.
pub(crate) const ORIGIN_LEN: usize = 16;

// The fields of all origins stay together, to be read when all was found.
pub(crate) fn split_origins(bytes: &[u8]) -> Option<(&[u8], &[u8])>
    ensures some { IfSome result (λ found. BeginsOrigins bytes.now found.0.now found.1.now) }
    ensures none { IfNone result ((fields rest : List ℕ) → ¬ BeginsOrigins bytes.now fields rest) }
{
    let (count, behind) = split_u32(bytes)?;
    behind.split_at_checked(count as usize * ORIGIN_LEN)
}

fn split_origin(bytes: &[u8]) -> Option<(Origin, &[u8])>
    ensures some { IfSome result (λ found. bytes.now ≡ origin_fields found.0 ++ found.1.now) }
    ensures fits { IfSome result (λ found. FitsOrigin found.0) }
    ensures none { IfNone result (length bytes.now < ORIGIN_LEN) }
{
    let (event, behind) = split_u64(bytes)?;
    let (at, behind) = split_u32(behind)?;
    let (len, behind) = split_u32(behind)?;
    Some((Origin { event, at, len }, behind))
}

pub(crate) fn read_origins(alloc: Global, fields: &[u8]) -> Result<Origins, NoMemory>
    requires { length fields.now % ORIGIN_LEN ≡ 0 }
    ensures read { IfOk result (λ origins. flat_map origin_fields origins ≡ fields.now) }
    ensures fits { IfOk result (λ origins. All FitsOrigin origins) }
{
    let mut origins = Origins::new(alloc);
    let mut left = fields;
    while let Some((origin, rest)) = split_origin(left) {
        origins.push(origin)?;
        left = rest;
    }
    Ok(origins)
}
