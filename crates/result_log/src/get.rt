// A record, read at the front of bytes, and the public call that reads one at a place.
ghost use Rattle.std.specs.Prelude.{◌≡◌, IfOk, IfErr, IsErrOf, MatchOption, OnErr, ◌∷◌, ◌↔◌};
ghost use Rattle.result_log.specs.Pieces.{Starts, StartsNone, StartsSome};
ghost use Rattle.result_log.specs.Reading.{IsCause, IsMalformed, Reads};

use crate::GetError;
use crate::extras::get_extra;
use crate::kinds::{BOOT, CALL, END, FILE, TYPED, UNPLUG};
use crate::split::{CallHead, split_call_head};
use arn_base::{Bytes, NoMemory, Record};
use exchange_log::front_give;
use schedule_log::split::{split_counted, split_named, split_u8, split_u32};
use schedule_log::{Delivery, SIGNAL, SLICE, split_signal, split_slice};
use std::alloc::Global;

// A file's record behind its kind, or None where there is none.
fn get_file(alloc: Global, bytes: &[u8]) -> Result<Option<(Record, &[u8])>, NoMemory>
    ensures ok { IfOk result (λ read. MatchOption read (StartsNone (FILE ∷ bytes.now))
        (λ found. Starts (FILE ∷ bytes.now) found.0 found.1.now)) }
    ensures err { OnErr result (StartsSome (FILE ∷ bytes.now)) }
{
    let Some((name, behind)) = split_named(bytes) else {
        return Ok(None);
    };
    let Some((content, rest)) = split_counted(behind) else {
        return Ok(None);
    };
    let name = Bytes::from_slice(alloc, name)?;
    let bytes = Bytes::from_slice(alloc, content)?;
    Ok(Some((Record::File { name, bytes }, rest)))
}

// A boot's record behind its kind, or None where there is none.
fn get_boot(alloc: Global, bytes: &[u8]) -> Result<Option<(Record, &[u8])>, NoMemory>
    ensures ok { IfOk result (λ read. MatchOption read (StartsNone (BOOT ∷ bytes.now))
        (λ found. Starts (BOOT ∷ bytes.now) found.0 found.1.now)) }
    ensures err { OnErr result (StartsSome (BOOT ∷ bytes.now)) }
{
    let Some((name, behind)) = split_named(bytes) else {
        return Ok(None);
    };
    let Some((give, rest)) = front_give(alloc, behind)? else {
        return Ok(None);
    };
    let name = Bytes::from_slice(alloc, name)?;
    Ok(Some((Record::Boot { name, give }, rest)))
}

// A typed piece's record behind its kind, or None where there is none.
fn get_typed(alloc: Global, bytes: &[u8]) -> Result<Option<(Record, &[u8])>, NoMemory>
    ensures ok { IfOk result (λ read. MatchOption read (StartsNone (TYPED ∷ bytes.now))
        (λ found. Starts (TYPED ∷ bytes.now) found.0 found.1.now)) }
    ensures err { OnErr result (StartsSome (TYPED ∷ bytes.now)) }
{
    let Some((content, rest)) = split_counted(bytes) else {
        return Ok(None);
    };
    let bytes = Bytes::from_slice(alloc, content)?;
    Ok(Some((Record::Typed { bytes }, rest)))
}

// The record of an unplugging behind its kind, or None where there is none.
fn get_unplug(bytes: &[u8]) -> Option<(Record, &[u8])>
    ensures { MatchOption result (StartsNone (UNPLUG ∷ bytes.now))
        (λ found. Starts (UNPLUG ∷ bytes.now) found.0 found.1.now) }
{
    let (device, rest) = split_u32(bytes)?;
    Some((Record::Unplug { device }, rest))
}

// A slice's record behind its kind, or None where there is none.
fn get_slice(bytes: &[u8]) -> Option<(Record, &[u8])>
    ensures { MatchOption result (StartsNone (SLICE ∷ bytes.now))
        (λ found. Starts (SLICE ∷ bytes.now) found.0 found.1.now) }
{
    let (pid, ran, rest) = split_slice(bytes)?;
    Some((Record::Slice { pid, ran }, rest))
}

// A delivery's record behind its kind, or None where there is none.
fn get_signal(bytes: &[u8]) -> Option<(Record, &[u8])>
    ensures { MatchOption result (StartsNone (SIGNAL ∷ bytes.now))
        (λ found. Starts (SIGNAL ∷ bytes.now) found.0 found.1.now) }
{
    let (delivery, rest) = split_signal(bytes)?;
    let Delivery {
        pid,
        signal,
        cut,
        handler,
    } = delivery;
    let entry = Record::Signal {
        pid,
        signal,
        cut,
        handler,
    };
    Some((entry, rest))
}

// A call's record behind its kind, or None where there is none.
fn get_call(alloc: Global, bytes: &[u8]) -> Result<Option<(Record, &[u8])>, NoMemory>
    ensures ok { IfOk result (λ read. MatchOption read (StartsNone (CALL ∷ bytes.now))
        (λ found. Starts (CALL ∷ bytes.now) found.0 found.1.now)) }
    ensures err { OnErr result (StartsSome (CALL ∷ bytes.now)) }
{
    let Some((head, behind)) = split_call_head(bytes) else {
        return Ok(None);
    };
    let Some((extra, rest)) = get_extra(alloc, behind)? else {
        return Ok(None);
    };
    let CallHead {
        pid,
        number,
        result,
    } = head;
    let entry = Record::Call {
        pid,
        number,
        result,
        extra,
    };
    Ok(Some((entry, rest)))
}

// An end's record behind its kind, or None where there is none.
fn get_end(bytes: &[u8]) -> Option<(Record, &[u8])>
    ensures { MatchOption result (StartsNone (END ∷ bytes.now))
        (λ found. Starts (END ∷ bytes.now) found.0 found.1.now) }
{
    let (pid, behind) = split_u32(bytes)?;
    let (status, rest) = split_u8(behind)?;
    Some((Record::End { pid, status }, rest))
}

// The record of a kind, read from its fields, or None where they spell none.
fn get_fields(alloc: Global, kind: u8, fields: &[u8]) -> Result<Option<(Record, &[u8])>, NoMemory>
    ensures ok { IfOk result (λ read. MatchOption read (StartsNone (kind ∷ fields.now))
        (λ found. Starts (kind ∷ fields.now) found.0 found.1.now)) }
    ensures err { OnErr result (StartsSome (kind ∷ fields.now)) }
{
    match kind {
        FILE => get_file(alloc, fields),
        BOOT => get_boot(alloc, fields),
        TYPED => get_typed(alloc, fields),
        UNPLUG => Ok(get_unplug(fields)),
        SLICE => Ok(get_slice(fields)),
        SIGNAL => Ok(get_signal(fields)),
        CALL => get_call(alloc, fields),
        END => Ok(get_end(fields)),
        _ => Ok(None),
    }
}

// The record that the bytes begin with, or None where they begin with none.
fn get_front(alloc: Global, bytes: &[u8]) -> Result<Option<(Record, &[u8])>, NoMemory>
    ensures ok { IfOk result (λ read. MatchOption read (StartsNone bytes.now)
        (λ found. Starts bytes.now found.0 found.1.now)) }
    ensures err { OnErr result (StartsSome bytes.now) }
{
    let Some((kind, fields)) = split_u8(bytes) else {
        return Ok(None);
    };
    get_fields(alloc, kind, fields)
}

/// Reads the record that is spelled at the place `at` of the bytes. Answers it with the place
/// behind its spelling. That no record is spelled there is found before any memory is taken.
pub fn get_record(alloc: Global, bytes: &[u8], at: usize) -> Result<(Record, usize), GetError>
    ensures ok { IfOk result (λ found. Reads bytes.now at found.0 found.1) }
    ensures malformed { IsErrOf result (GetError.Malformed at) ↔ IsMalformed bytes.now at }
    ensures err { IfErr result (IsCause bytes.now at) }
{
    let malformed = GetError::Malformed { at: at as u64 };
    let Some(behind) = bytes.get(at..) else {
        return Err(malformed);
    };
    let Some((entry, rest)) = get_front(alloc, behind)? else {
        return Err(malformed);
    };
    Ok((entry, bytes.len() - rest.len()))
}
