//! Fields, appended to bytes. Numbers stand in little-endian order.
ghost use Rattle.std.specs.Prelude.{◌≡◌, ◌++◌, OnOk, OnErr};
ghost use Rattle.schedule_log.specs.Fields.{counted, field, flag_field, named, IsCounted, IsName, LeavesFront};

use arn_base::NoMemory;
use byteorder::{ByteOrder, LittleEndian};

pub fn put_u8(out: &mut Vec<u8>, number: u8) -> Result<(), NoMemory>
    ensures ok { OnOk result (out.new.items ≡ out.old.items ++ field 1 number) }
    ensures err { OnErr result (out.new.items ≡ out.old.items) }
{
    out.push(number)?;
    Ok(())
}

pub fn put_u16(out: &mut Vec<u8>, number: u16) -> Result<(), NoMemory>
    ensures ok { OnOk result (out.new.items ≡ out.old.items ++ field 2 number) }
    ensures err { OnErr result (out.new.items ≡ out.old.items) }
{
    let mut spelled = [0; 2];
    LittleEndian::write_u16(&mut spelled, number);
    Ok(out.extend_from_slice(&spelled)?)
}

pub fn put_u32(out: &mut Vec<u8>, number: u32) -> Result<(), NoMemory>
    ensures ok { OnOk result (out.new.items ≡ out.old.items ++ field 4 number) }
    ensures err { OnErr result (out.new.items ≡ out.old.items) }
{
    let mut spelled = [0; 4];
    LittleEndian::write_u32(&mut spelled, number);
    Ok(out.extend_from_slice(&spelled)?)
}

pub fn put_u64(out: &mut Vec<u8>, number: u64) -> Result<(), NoMemory>
    ensures ok { OnOk result (out.new.items ≡ out.old.items ++ field 8 number) }
    ensures err { OnErr result (out.new.items ≡ out.old.items) }
{
    let mut spelled = [0; 8];
    LittleEndian::write_u64(&mut spelled, number);
    Ok(out.extend_from_slice(&spelled)?)
}

/// Appends 1 for true, and 0 for false.
pub fn put_flag(out: &mut Vec<u8>, flag: bool) -> Result<(), NoMemory>
    ensures ok { OnOk result (out.new.items ≡ out.old.items ++ flag_field flag) }
    ensures err { OnErr result (out.new.items ≡ out.old.items) }
{
    if flag { put_u8(out, 1) } else { put_u8(out, 0) }
}

/// Appends a list of bytes behind its length in four bytes. An error may leave a part of it.
pub fn put_bytes(out: &mut Vec<u8>, bytes: &[u8]) -> Result<(), NoMemory>
    requires { IsCounted bytes.now }
    ensures ok { OnOk result (out.new.items ≡ out.old.items ++ counted bytes.now) }
    ensures err { OnErr result (LeavesFront out.old.items out.new.items) }
{
    put_u32(out, bytes.len() as u32)?;
    Ok(out.extend_from_slice(bytes)?)
}

/// Appends a name of 1 to 64 bytes behind its length in one byte. An error may leave a part of it.
pub fn put_name(out: &mut Vec<u8>, name: &[u8]) -> Result<(), NoMemory>
    requires { IsName name.now }
    ensures ok { OnOk result (out.new.items ≡ out.old.items ++ named name.now) }
    ensures err { OnErr result (LeavesFront out.old.items out.new.items) }
{
    put_u8(out, name.len() as u8)?;
    Ok(out.extend_from_slice(name)?)
}
