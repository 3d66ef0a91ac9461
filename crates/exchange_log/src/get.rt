// Given bytes, read at the front of bytes or at a place.
ghost use Rattle.std.specs.Prelude.{◌≡◌, ◌↔◌, IfOk, IfErr, IsErrOf, MatchOption, OnErr};
ghost use Rattle.exchange_log.specs.Gives.{IsCause, IsNoGive, ReadsGive, StartsGive, StartsNoGive, StartsSomeGive};

use crate::GetError;
use crate::origins::{read_origins, split_origins};
use arn_base::{Bytes, Give, NoMemory};
use schedule_log::fields_spelled_one_way;
use schedule_log::split::split_counted;
use std::alloc::Global;

/// The given bytes and their origins that the bytes begin with, and what stands behind them. None
/// where they begin with none.
pub fn front_give(alloc: Global, bytes: &[u8]) -> Result<Option<(Give, &[u8])>, NoMemory>
    ensures ok { IfOk result (λ read. MatchOption read (StartsNoGive bytes.now)
        (λ found. StartsGive bytes.now found.0 found.1.now)) }
    ensures err { OnErr result (StartsSomeGive bytes.now) }
{
    fields_spelled_one_way();
    let Some((given, behind)) = split_counted(bytes) else {
        return Ok(None);
    };
    let Some((fields, rest)) = split_origins(behind) else {
        return Ok(None);
    };
    let bytes = Bytes::from_slice(alloc, given)?;
    let origins = read_origins(alloc, fields)?;
    Ok(Some((Give { bytes, origins }, rest)))
}

/// Reads the given bytes and their origins that are spelled at the place `at` of the bytes. Answers
/// them with the place behind. That none are spelled there is found before any memory is taken.
pub fn get_give(alloc: Global, bytes: &[u8], at: usize) -> Result<(Give, usize), GetError>
    ensures ok { IfOk result (λ found. ReadsGive bytes.now at found.0 found.1) }
    ensures malformed { IsErrOf result (GetError.Malformed at) ↔ IsNoGive bytes.now at }
    ensures err { IfErr result (IsCause bytes.now at) }
{
    fields_spelled_one_way();
    let malformed = GetError::Malformed { at: at as u64 };
    let Some(behind) = bytes.get(at..) else {
        return Err(malformed);
    };
    let Some((give, rest)) = front_give(alloc, behind)? else {
        return Err(malformed);
    };
    Ok((give, bytes.len() - rest.len()))
}
