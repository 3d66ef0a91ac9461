// What a call did, read at the front of bytes.
ghost use Rattle.std.specs.Prelude.{IfOk, MatchOption, OnErr, ◌∷◌};
ghost use Rattle.result_log.specs.Pieces.{StartsExtra, StartsNoExtra, StartsSomeExtra};

use crate::kinds::{ABSENT, CONSOLE, FAULT, GIVE, NAME, NOTHING, PUT, REPLY, SENT, START};
use crate::split::{PutParts, split_device, split_path, split_put};
use crate::starts::{Parts, read_blocks, split_start};
use arn_base::{Boxed, Bytes, Extra, NoMemory, Start};
use exchange_log::front_give;
use schedule_log::fields_spelled_one_way;
use schedule_log::split::{split_counted, split_u8};
use std::alloc::Global;

// A give behind its tag, or None where there is none.
fn get_given(alloc: Global, bytes: &[u8]) -> Result<Option<(Extra, &[u8])>, NoMemory>
    ensures ok { IfOk result (λ read. MatchOption read (StartsNoExtra (GIVE ∷ bytes.now))
        (λ found. StartsExtra (GIVE ∷ bytes.now) found.0 found.1.now)) }
    ensures err { OnErr result (StartsSomeExtra (GIVE ∷ bytes.now)) }
{
    let Some((give, rest)) = front_give(alloc, bytes)? else {
        return Ok(None);
    };
    Ok(Some((Extra::Give(give), rest)))
}

// How a process starts behind its tag, or None where that isn't told.
fn get_start(alloc: Global, bytes: &[u8]) -> Result<Option<(Extra, &[u8])>, NoMemory>
    ensures ok { IfOk result (λ read. MatchOption read (StartsNoExtra (START ∷ bytes.now))
        (λ found. StartsExtra (START ∷ bytes.now) found.0 found.1.now)) }
    ensures err { OnErr result (StartsSomeExtra (START ∷ bytes.now)) }
{
    fields_spelled_one_way();
    let Some(parts) = split_start(bytes) else {
        return Ok(None);
    };
    let Parts {
        cpu,
        slot,
        blocks,
        rest,
    } = parts;
    let blocks = read_blocks(alloc, blocks)?;
    let start = Boxed::new(alloc, Start { cpu, slot, blocks })?;
    Ok(Some((Extra::Start(start), rest)))
}

// The bytes written to a file behind their tag, or None where there are none.
fn get_put(alloc: Global, bytes: &[u8]) -> Result<Option<(Extra, &[u8])>, NoMemory>
    ensures ok { IfOk result (λ read. MatchOption read (StartsNoExtra (PUT ∷ bytes.now))
        (λ found. StartsExtra (PUT ∷ bytes.now) found.0 found.1.now)) }
    ensures err { OnErr result (StartsSomeExtra (PUT ∷ bytes.now)) }
{
    let Some(parts) = split_put(bytes) else {
        return Ok(None);
    };
    let PutParts {
        file,
        at,
        written,
        rest,
    } = parts;
    let bytes = Bytes::from_slice(alloc, written)?;
    Ok(Some((Extra::Put { file, at, bytes }, rest)))
}

// The bytes written to the console behind their tag, or None where there are none.
fn get_console(alloc: Global, bytes: &[u8]) -> Result<Option<(Extra, &[u8])>, NoMemory>
    ensures ok { IfOk result (λ read. MatchOption read (StartsNoExtra (CONSOLE ∷ bytes.now))
        (λ found. StartsExtra (CONSOLE ∷ bytes.now) found.0 found.1.now)) }
    ensures err { OnErr result (StartsSomeExtra (CONSOLE ∷ bytes.now)) }
{
    let Some((written, rest)) = split_counted(bytes) else {
        return Ok(None);
    };
    let bytes = Bytes::from_slice(alloc, written)?;
    Ok(Some((Extra::Console { bytes }, rest)))
}

// The bytes that a device gave behind their tag, or None where there are none.
fn get_reply(alloc: Global, bytes: &[u8]) -> Result<Option<(Extra, &[u8])>, NoMemory>
    ensures ok { IfOk result (λ read. MatchOption read (StartsNoExtra (REPLY ∷ bytes.now))
        (λ found. StartsExtra (REPLY ∷ bytes.now) found.0 found.1.now)) }
    ensures err { OnErr result (StartsSomeExtra (REPLY ∷ bytes.now)) }
{
    let Some((device, given, rest)) = split_device(bytes) else {
        return Ok(None);
    };
    let bytes = Bytes::from_slice(alloc, given)?;
    Ok(Some((Extra::Reply { device, bytes }, rest)))
}

// A file's name behind its tag, or None where there is none.
fn get_name(alloc: Global, bytes: &[u8]) -> Result<Option<(Extra, &[u8])>, NoMemory>
    ensures ok { IfOk result (λ read. MatchOption read (StartsNoExtra (NAME ∷ bytes.now))
        (λ found. StartsExtra (NAME ∷ bytes.now) found.0 found.1.now)) }
    ensures err { OnErr result (StartsSomeExtra (NAME ∷ bytes.now)) }
{
    let Some((file, path, rest)) = split_path(bytes) else {
        return Ok(None);
    };
    let path = Bytes::from_slice(alloc, path)?;
    Ok(Some((Extra::Name { file, path }, rest)))
}

// The bytes that a device took behind their tag, or None where there are none.
fn get_sent(alloc: Global, bytes: &[u8]) -> Result<Option<(Extra, &[u8])>, NoMemory>
    ensures ok { IfOk result (λ read. MatchOption read (StartsNoExtra (SENT ∷ bytes.now))
        (λ found. StartsExtra (SENT ∷ bytes.now) found.0 found.1.now)) }
    ensures err { OnErr result (StartsSomeExtra (SENT ∷ bytes.now)) }
{
    let Some((device, taken, rest)) = split_device(bytes) else {
        return Ok(None);
    };
    let bytes = Bytes::from_slice(alloc, taken)?;
    Ok(Some((Extra::Sent { device, bytes }, rest)))
}

// What a call did, or None where its tag or the tag's fields are not there.
pub(crate) fn get_extra(alloc: Global, bytes: &[u8]) -> Result<Option<(Extra, &[u8])>, NoMemory>
    ensures ok { IfOk result (λ read. MatchOption read (StartsNoExtra bytes.now)
        (λ found. StartsExtra bytes.now found.0 found.1.now)) }
    ensures err { OnErr result (StartsSomeExtra bytes.now) }
{
    let Some((tag, fields)) = split_u8(bytes) else {
        return Ok(None);
    };
    match tag {
        NOTHING => Ok(Some((Extra::Nothing, fields))),
        GIVE => get_given(alloc, fields),
        START => get_start(alloc, fields),
        PUT => get_put(alloc, fields),
        CONSOLE => get_console(alloc, fields),
        REPLY => get_reply(alloc, fields),
        FAULT => Ok(Some((Extra::Fault, fields))),
        ABSENT => Ok(Some((Extra::Absent, fields))),
        NAME => get_name(alloc, fields),
        SENT => get_sent(alloc, fields),
        _ => Ok(None),
    }
}
