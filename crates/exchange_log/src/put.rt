// A give's spelling, written. The clauses `fits` say that the numbers of an origin are of the sizes
// of their types.
ghost use Rattle.std.specs.Prelude.{◌≡◌, ◌++◌, All, OnOk, OnErr};
ghost use Rattle.schedule_log.specs.Fields.{IsCounted, LeavesFront};
ghost use Rattle.exchange_log.specs.Gives.{give_fields, origin_fields, origins_fields, FitsOrigin, GiveHasSpelling};

use arn_base::{Give, NoMemory, Origin};
use schedule_log::fields::{put_bytes, put_u32, put_u64};

fn put_origin(out: &mut Vec<u8>, origin: &Origin) -> Result<(), NoMemory>
    ensures ok { OnOk result (out.new.items ≡ out.old.items ++ origin_fields origin.now) }
    ensures fits { FitsOrigin origin.now }
    ensures err { OnErr result (LeavesFront out.old.items out.new.items) }
{
    let Origin { event, at, len } = *origin;
    put_u64(out, event)?;
    put_u32(out, at)?;
    put_u32(out, len)
}

fn put_origins(out: &mut Vec<u8>, origins: &[Origin]) -> Result<(), NoMemory>
    requires { IsCounted origins.now }
    ensures ok { OnOk result (out.new.items ≡ out.old.items ++ origins_fields origins.now) }
    ensures fits { OnOk result (All FitsOrigin origins.now) }
    ensures err { OnErr result (LeavesFront out.old.items out.new.items) }
{
    put_u32(out, origins.len() as u32)?;
    for origin in origins {
        put_origin(out, origin)?;
    }
    Ok(())
}

// An error leaves some of the spelling behind the bytes.
fn put_parts(out: &mut Vec<u8>, give: &Give) -> Result<(), NoMemory>
    requires { GiveHasSpelling give.now }
    ensures ok { OnOk result (out.new.items ≡ out.old.items ++ give_fields give.now) }
    ensures fits { OnOk result (All FitsOrigin give.now.origins) }
    ensures err { OnErr result (LeavesFront out.old.items out.new.items) }
{
    put_bytes(out, give.bytes.as_slice())?;
    put_origins(out, give.origins.as_slice())
}

/// Appends the spelling of given bytes: the bytes behind their number, and their origins behind
/// theirs, numbers in little-endian order. There are fewer than 2^32 bytes, and as few origins.
pub fn put_give(out: &mut Vec<u8>, give: &Give) -> Result<(), NoMemory>
    requires { GiveHasSpelling give.now }
    ensures ok { OnOk result (out.new.items ≡ out.old.items ++ give_fields give.now) }
    ensures fits { OnOk result (All FitsOrigin give.now.origins) }
    ensures err { OnErr result (out.new.items ≡ out.old.items) }
{
    let before = out.len();
    let put = put_parts(out, give);
    if put.is_err() {
        out.truncate(before);
    }
    put
}
