// The records of a payload, read.
ghost use Rattle.std.specs.Prelude.{◌≡◌, ◌+◌, ◌<◌, ◌^◌, ◌++◌, ◌⊎◌, ◌≢◌, [], ℕ, List, length, IfOk, IfErr, IfSome, IfNone, OnOk, IsErrOf};
ghost use Rattle.result_log.specs.Reading.{IsMalformed, Reads};
ghost use Rattle.result_log.specs.Spelling.{field};
ghost use Rattle.log_store.specs.Pieces.{IsFrameRead, IsMalformedWhere, IsPayloadBad, IsPayloadRead};
ghost use Rattle.log_store.specs.Refused.{HoldsPayload, IsCutShort, IsMisspelled};

use crate::errors::OpenError;
use crate::format::{FRAME_HEAD, LENGTH_LEN};
use arn_base::Record;
use result_log::{GetError, get_record, records_spelled_one_way};
use std::alloc::Global;

// How long a payload is, and what stands behind that.
fn split_len(behind: &[u8]) -> Option<(u32, &[u8])>
    ensures some { IfSome result (λ found. behind.now ≡ field 4 found.0 ++ found.1.now) }
    ensures none { IfNone result (length behind.now < 4) }
{
    let (len, tail) = behind.split_first_chunk::<LENGTH_LEN>()?;
    Some((u32::from_le_bytes(*len), tail))
}

// The payload behind an open gate, and what stands behind that, from the next gate on.
fn split_payload(behind: &[u8]) -> Option<(&[u8], &[u8])>
    ensures some { IfSome result (λ found. HoldsPayload behind.now found.0.now found.1.now) }
    ensures none { IfNone result
        ((payload next : List ℕ) → ¬ HoldsPayload behind.now payload next) }
{
    let (len, tail) = split_len(behind)?;
    let (payload, next) = tail.split_at_checked(len as usize)?;
    if next.is_empty() {
        return None;
    }
    Some((payload, next))
}

// The record at a place of a payload that begins at a place of the log.
fn get_entry(
    alloc: Global,
    payload: &[u8],
    at: usize,
    place: u64,
) -> Result<(Record, usize), OpenError>
    requires { place + at < 2 ^ 64 }
    ensures ok { IfOk result (λ found. Reads payload.now at found.0 found.1) }
    ensures err { IfErr result (IsMalformedWhere (λ malformed.
        (malformed ≡ place + at) × IsMalformed payload.now at)) }
{
    match get_record(alloc, payload, at) {
        Ok(found) => Ok(found),
        Err(GetError::Malformed { .. }) => Err(OpenError::Malformed {
            at: place + at as u64,
        }),
        Err(GetError::NoMemory) => Err(OpenError::NoMemory),
    }
}

// Adds the records of a payload that begins at a place of the log.
fn read_payload(
    alloc: Global,
    payload: &[u8],
    place: u64,
    entries: &mut Vec<Record>,
) -> Result<(), OpenError>
    requires { place + length payload.now < 2 ^ 64 }
    ensures ok { OnOk result (IsPayloadRead payload.now entries.old.items entries.new.items) }
    ensures err { IfErr result (IsMalformedWhere (IsPayloadBad payload.now place)) }
{
    records_spelled_one_way();
    let mut at = 0;
    while at < payload.len() {
        let (entry, next) = get_entry(alloc, payload, at, place)?;
        entries.push(entry)?;
        at = next;
    }
    Ok(())
}

// Adds the records of the frame whose open gate stands at a place of the log. Answers what stands
// behind the frame.
pub fn read_frame<'a>(
    alloc: Global,
    behind: &'a [u8],
    gate: u64,
    entries: &mut Vec<Record>,
) -> Result<&'a [u8], OpenError>
    requires some { behind.now ≢ [] }
    requires place { gate + 1 + length behind.now < 2 ^ 64 }
    ensures ok { IfOk result (λ next.
        IsFrameRead behind.now entries.old.items entries.new.items next.now) }
    ensures err { IfErr result (IsMalformedWhere (λ at.
        IsCutShort gate at behind.now ⊎ IsMisspelled gate at behind.now)) }
{
    let Some((payload, next)) = split_payload(behind) else {
        return Err(OpenError::Malformed { at: gate });
    };
    read_payload(alloc, payload, gate + FRAME_HEAD, entries)?;
    Ok(next)
}
