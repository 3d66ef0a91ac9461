// What a call did, written. The clauses `fits` say that numbers are of the sizes of their types.
ghost use Rattle.std.specs.Prelude.{◌≡◌, ◌++◌, OnOk, OnErr};
ghost use Rattle.arn_base.specs.declared.records.Extra.TheVariants as did;
ghost use Rattle.schedule_log.specs.Fields.{counted, field, IsCounted, IsName, LeavesFront};
ghost use Rattle.result_log.specs.Spelling.{extra_fields, ExtraHasSpelling, FitsExtra};

use crate::kinds::{ABSENT, CONSOLE, FAULT, GIVE, NAME, NOTHING, PUT, REPLY, SENT, START};
use crate::starts::put_start;
use arn_base::{Extra, NoMemory};
use exchange_log::put_give;
use schedule_log::fields::{put_bytes, put_name, put_u8, put_u32};

// Appends the byte of a kind, and the number behind it.
pub(crate) fn put_kind(out: &mut Vec<u8>, kind: u8, number: u32) -> Result<(), NoMemory>
    ensures ok { OnOk result (out.new.items ≡ out.old.items ++ field 1 kind ++ field 4 number) }
    ensures err { OnErr result (LeavesFront out.old.items out.new.items) }
{
    put_u8(out, kind)?;
    put_u32(out, number)
}

fn put_put(out: &mut Vec<u8>, file: u32, at: u32, bytes: &[u8]) -> Result<(), NoMemory>
    requires { IsCounted bytes.now }
    ensures ok { OnOk result
        (out.new.items ≡ out.old.items ++ extra_fields (did.Put file at bytes.now)) }
    ensures err { OnErr result (LeavesFront out.old.items out.new.items) }
{
    put_kind(out, PUT, file)?;
    put_u32(out, at)?;
    put_bytes(out, bytes)
}

// Bytes that a device gave or took, behind their tag.
fn put_device(out: &mut Vec<u8>, tag: u8, device: u32, bytes: &[u8]) -> Result<(), NoMemory>
    requires { IsCounted bytes.now }
    ensures ok { OnOk result
        (out.new.items ≡ out.old.items ++ field 1 tag ++ field 4 device ++ counted bytes.now) }
    ensures err { OnErr result (LeavesFront out.old.items out.new.items) }
{
    put_kind(out, tag, device)?;
    put_bytes(out, bytes)
}

fn put_path(out: &mut Vec<u8>, file: u32, path: &[u8]) -> Result<(), NoMemory>
    requires { IsName path.now }
    ensures ok { OnOk result
        (out.new.items ≡ out.old.items ++ extra_fields (did.Name file path.now)) }
    ensures err { OnErr result (LeavesFront out.old.items out.new.items) }
{
    put_kind(out, NAME, file)?;
    put_name(out, path)
}

pub(crate) fn put_extra(out: &mut Vec<u8>, did: &Extra) -> Result<(), NoMemory>
    requires { ExtraHasSpelling did.now }
    ensures ok { OnOk result (out.new.items ≡ out.old.items ++ extra_fields did.now) }
    ensures fits { OnOk result (FitsExtra did.now) }
    ensures err { OnErr result (LeavesFront out.old.items out.new.items) }
{
    match did {
        Extra::Nothing => put_u8(out, NOTHING),
        Extra::Give(give) => {
            put_u8(out, GIVE)?;
            put_give(out, give)
        }
        Extra::Start(start) => {
            put_u8(out, START)?;
            put_start(out, start.get())
        }
        Extra::Put { file, at, bytes } => put_put(out, *file, *at, bytes.as_slice()),
        Extra::Console { bytes } => {
            put_u8(out, CONSOLE)?;
            put_bytes(out, bytes.as_slice())
        }
        Extra::Reply { device, bytes } => put_device(out, REPLY, *device, bytes.as_slice()),
        Extra::Fault => put_u8(out, FAULT),
        Extra::Absent => put_u8(out, ABSENT),
        Extra::Name { file, path } => put_path(out, *file, path.as_slice()),
        Extra::Sent { device, bytes } => put_device(out, SENT, *device, bytes.as_slice()),
    }
}
