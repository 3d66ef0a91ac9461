// A record's spelling, written. The clauses `fits` say that the numbers of a record are of the sizes
// of their types.
ghost use Rattle.std.specs.Prelude.{◌≡◌, ◌++◌, length, All, OnOk, OnErr};
ghost use Rattle.arn_base.specs.declared.records.Record.TheVariants as kind;
ghost use Rattle.schedule_log.specs.Fields.{IsCounted, IsName, LeavesFront};
ghost use Rattle.exchange_log.specs.Gives.{FitsOrigin, GiveHasSpelling};
ghost use Rattle.result_log.specs.Pieces.{call_head};
ghost use Rattle.result_log.specs.Reading.{Reads};
ghost use Rattle.result_log.specs.Spelling.{spelling, ExtraHasSpelling, FitsFields, HasSpelling};

use crate::kinds::{BOOT, CALL, END, FILE, TYPED, UNPLUG};
use crate::put_extras::{put_extra, put_kind};
use arn_base::{Extra, Give, NoMemory, Record};
use exchange_log::put_give;
use schedule_log::fields::{put_bytes, put_name, put_u8, put_u64};
use schedule_log::{Delivery, put_signal, put_slice};

fn put_file(out: &mut Vec<u8>, name: &[u8], bytes: &[u8]) -> Result<(), NoMemory>
    requires name { IsName name.now }
    requires bytes { IsCounted bytes.now }
    ensures ok { OnOk result
        (out.new.items ≡ out.old.items ++ spelling (kind.File name.now bytes.now)) }
    ensures err { OnErr result (LeavesFront out.old.items out.new.items) }
{
    put_u8(out, FILE)?;
    put_name(out, name)?;
    put_bytes(out, bytes)
}

fn put_boot(out: &mut Vec<u8>, name: &[u8], give: &Give) -> Result<(), NoMemory>
    requires name { IsName name.now }
    requires give { GiveHasSpelling give.now }
    ensures ok { OnOk result
        (out.new.items ≡ out.old.items ++ spelling (kind.Boot name.now give.now)) }
    ensures fits { OnOk result (All FitsOrigin give.now.origins) }
    ensures err { OnErr result (LeavesFront out.old.items out.new.items) }
{
    put_u8(out, BOOT)?;
    put_name(out, name)?;
    put_give(out, give)
}

fn put_typed(out: &mut Vec<u8>, bytes: &[u8]) -> Result<(), NoMemory>
    requires { IsCounted bytes.now }
    ensures ok { OnOk result (out.new.items ≡ out.old.items ++ spelling (kind.Typed bytes.now)) }
    ensures err { OnErr result (LeavesFront out.old.items out.new.items) }
{
    put_u8(out, TYPED)?;
    put_bytes(out, bytes)
}

fn put_unplug(out: &mut Vec<u8>, device: u32) -> Result<(), NoMemory>
    ensures ok { OnOk result (out.new.items ≡ out.old.items ++ spelling (kind.Unplug device)) }
    ensures err { OnErr result (LeavesFront out.old.items out.new.items) }
{
    put_kind(out, UNPLUG, device)
}

// Appends what stands before the tag of a call.
fn put_call_head(out: &mut Vec<u8>, pid: u32, number: u64, answer: u64) -> Result<(), NoMemory>
    ensures ok { OnOk result
        (out.new.items ≡ out.old.items ++ call_head pid number answer) }
    ensures err { OnErr result (LeavesFront out.old.items out.new.items) }
{
    put_kind(out, CALL, pid)?;
    put_u64(out, number)?;
    put_u64(out, answer)
}

fn put_call(
    out: &mut Vec<u8>,
    pid: u32,
    number: u64,
    answer: u64,
    did: &Extra,
) -> Result<(), NoMemory>
    requires { ExtraHasSpelling did.now }
    ensures ok { OnOk result
        (out.new.items ≡ out.old.items ++ spelling (kind.Call pid number answer did.now)) }
    ensures fits { OnOk result (FitsFields (kind.Call pid number answer did.now)) }
    ensures err { OnErr result (LeavesFront out.old.items out.new.items) }
{
    put_call_head(out, pid, number, answer)?;
    put_extra(out, did)
}

fn put_end(out: &mut Vec<u8>, pid: u32, status: u8) -> Result<(), NoMemory>
    ensures ok { OnOk result (out.new.items ≡ out.old.items ++ spelling (kind.End pid status)) }
    ensures err { OnErr result (LeavesFront out.old.items out.new.items) }
{
    put_kind(out, END, pid)?;
    put_u8(out, status)
}

// Appends the spelling. An error leaves some of that behind the bytes.
fn put_parts(out: &mut Vec<u8>, entry: &Record) -> Result<(), NoMemory>
    requires { HasSpelling entry.now }
    ensures ok { OnOk result (out.new.items ≡ out.old.items ++ spelling entry.now) }
    ensures fits { OnOk result (FitsFields entry.now) }
    ensures err { OnErr result (LeavesFront out.old.items out.new.items) }
{
    match entry {
        Record::File { name, bytes } => put_file(out, name.as_slice(), bytes.as_slice()),
        Record::Boot { name, give } => put_boot(out, name.as_slice(), give),
        Record::Typed { bytes } => put_typed(out, bytes.as_slice()),
        Record::Unplug { device } => put_unplug(out, *device),
        Record::Slice { pid, ran } => put_slice(out, *pid, *ran),
        Record::Signal {
            pid,
            signal,
            cut,
            handler,
        } => {
            let delivery = Delivery {
                pid: *pid,
                signal: *signal,
                cut: *cut,
                handler: *handler,
            };
            put_signal(out, delivery)
        }
        Record::Call {
            pid,
            number,
            result,
            extra,
        } => put_call(out, *pid, *number, *result, extra),
        Record::End { pid, status } => put_end(out, *pid, *status),
    }
}

/// Appends the spelling of a record: a byte for its kind, then its fields, with numbers in
/// little-endian order and each list behind its length. Names have 1 to 64 bytes, signals are 1 to
/// 31, lists have fewer than 2^32 items, and there are fewer than 65,536 blocks.
pub fn put_record(out: &mut Vec<u8>, entry: &Record) -> Result<(), NoMemory>
    requires { HasSpelling entry.now }
    ensures ok { OnOk result (out.new.items ≡ out.old.items ++ spelling entry.now) }
    ensures reads { OnOk result
        (Reads out.new.items (length out.old.items) entry.now (length out.new.items)) }
    ensures err { OnErr result (out.new.items ≡ out.old.items) }
{
    let before = out.len();
    let put = put_parts(out, entry);
    if put.is_err() {
        out.truncate(before);
    }
    put
}
