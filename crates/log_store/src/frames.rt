// The bytes of a log, read.
ghost use Rattle.std.specs.Prelude.{◌≡◌, ◌≢◌, ◌+◌, ◌<◌, ◌^◌, ◌++◌, ◌∷◌, [], ℕ, length, take, IfOk, IfErr, IfSome, IfNone};
ghost use Rattle.log_store.specs.Log.{log_name, IsEnd};
ghost use Rattle.log_store.specs.Pieces.{IsFound, IsMalformedWhere, IsReadErrorOf};
ghost use Rattle.log_store.specs.Refused.{IsBroken, IsMisnamed};

use crate::errors::OpenError;
use crate::format::{NAME, OPEN};
use crate::payloads::read_frame;
use arn_base::Record;
use std::alloc::Global;

// The records of a log, and its bytes from the gate on that ends it.
#[derive(Drop)]
pub struct Found<'a> {
    pub entries: Vec<Record>,
    pub end: &'a [u8],
}

// The first place that differs from the name of a log.
fn misnamed_at(bytes: &[u8]) -> Option<usize>
    requires { 9 < length bytes.now }
    ensures some { IfSome result (IsMisnamed bytes.now) }
    ensures none { IfNone result (take 8 bytes.now ≡ log_name) }
{
    for (at, due) in NAME.iter().enumerate() {
        if bytes[at] != *due {
            return Some(at);
        }
    }
    None
}

// What stands behind the gate where it is open, and isn't the last byte.
fn behind_open(end: &[u8]) -> Option<&[u8]>
    requires { end.now ≢ [] }
    ensures some { IfSome result (λ behind. (end.now ≡ 1 ∷ behind.now) × (behind.now ≢ [])) }
    ensures none { IfNone result (IsEnd end.now) }
{
    let (gate, behind) = end.split_first()?;
    if *gate != OPEN || behind.is_empty() {
        return None;
    }
    Some(behind)
}

// Reads the frames behind the name of a log.
fn read_frames(alloc: Global, bytes: &[u8]) -> Result<Found<'_>, OpenError>
    requires long { 9 < length bytes.now }
    requires named { take 8 bytes.now ≡ log_name }
    ensures ok { IfOk result (λ found. IsFound bytes.now found.entries.items found.end.now) }
    ensures err { IfErr result (IsMalformedWhere (IsBroken bytes.now)) }
{
    let mut entries = Vec::new(alloc);
    let mut end = &bytes[NAME.len()..];
    while let Some(behind) = behind_open(end) {
        end = read_frame(
            alloc,
            behind,
            (bytes.len() - end.len()) as u64,
            &mut entries,
        )?;
    }
    Ok(Found { entries, end })
}

// Reads a log of more than nine bytes.
pub fn read_log(alloc: Global, bytes: &[u8]) -> Result<Found<'_>, OpenError>
    requires { 9 < length bytes.now }
    ensures ok { IfOk result (λ found. IsFound bytes.now found.entries.items found.end.now) }
    ensures err { IfErr result (IsReadErrorOf bytes.now) }
{
    if let Some(at) = misnamed_at(bytes) {
        return Err(OpenError::NotLog { at: at as u64 });
    }
    read_frames(alloc, bytes)
}
