// The bytes of a commit, and their way to the disk.
ghost use Rattle.std.specs.Prelude.{◌≡◌, ◌+◌, ◌<◌, ◌≤◌, ◌++◌, ◌∷◌, [], ℕ, All, length, drop, IfSome, IfOk, OnOk, OnErr, IsErrOf, IsTrue, option_map};
ghost use Rattle.arn_base.specs.Disk.{Only};
ghost use Rattle.arn_base.specs.Faults.{Rose};
ghost use Rattle.result_log.specs.Spelling.{counted, HasSpelling};
ghost use Rattle.log_store.specs.Log.{spellings, IsCommit, IsSpellable};
ghost use Rattle.log_store.specs.Pieces.{with_frame, IsTorn};
ghost use Rattle.log_store.specs.Stops.{NothingPending, LeavesOnly, MayStayShut, GoesOn};

use crate::errors::CommitError;
use crate::format::{CLOSED, LENGTH_LEN, OPEN};
use crate::size::{MOST_LOG, frame_end};
use crate::steps::write_through;
use arn_base::{Disk, NoMemory, Record, Stop};
use byteorder::{ByteOrder, LittleEndian};
use result_log::put_record;
use std::alloc::Global;

// What a commit writes behind the end of a log of `log_len` bytes: how long the spellings are, the
// spellings, and a closed gate.
pub fn commit_bytes(alloc: Global, log_len: u64, entries: &[Record]) -> Result<Vec<u8>, CommitError>
    requires { All HasSpelling entries.now }

    ensures bytes { IfOk result (λ bytes. bytes.items ≡ counted (spellings entries.now) ++ 0 ∷ []) }
    ensures commit { OnOk result (IsCommit entries.now) }
    ensures fits { OnOk result (log_len + 5 + length (spellings entries.now) ≤ MOST_LOG) }
    ensures full { (log payload : ℕ) → IsErrOf result (CommitError.Full log payload) →
        (log ≡ log_len) × (payload ≡ length (spellings entries.now))
        × (MOST_LOG < log + 5 + payload) }
    ensures no_disk { ¬ IsErrOf result CommitError.Disk }
{
    let mut bytes = Vec::from_slice(alloc, &[0; LENGTH_LEN])?;
    put_records(&mut bytes, entries)?;
    let payload = (bytes.len() - LENGTH_LEN) as u64;
    if frame_end(log_len, payload).is_none() {
        return Err(CommitError::Full {
            log: log_len,
            payload,
        });
    }
    LittleEndian::write_u32(&mut bytes, payload as u32);
    bytes.push(CLOSED)?;
    Ok(bytes)
}

// Appends the spellings.
fn put_records(out: &mut Vec<u8>, entries: &[Record]) -> Result<(), NoMemory>
    requires { All HasSpelling entries.now }
    ensures ok { OnOk result (out.new.items ≡ out.old.items ++ spellings entries.now) }
    ensures spellable { OnOk result (All IsSpellable entries.now) }
{
    for entry in entries {
        put_record(out, entry)?;
    }
    Ok(())
}

// Writes bytes behind a log of `log_len` bytes, which ends with a closed gate, and opens the gate
// once they are on the disk.
pub fn add_frame<D: Disk>(disk: &mut D, log_len: u64, bytes: &[u8]) -> Result<(), Stop>
    requires len { 0 < log_len }
    requires told { IfSome (D.image disk.old) (λ old. length old ≡ log_len) }

    ensures written { OnOk result (D.image disk.new ≡
        option_map (λ old. with_frame old bytes.now) (D.image disk.old)) }
    ensures durable { OnOk result (NothingPending D.image D.may_leave disk.new) }

    ensures any_moment { IfSome (D.image disk.old) (λ old. Only old (D.may_leave disk.old) →
        LeavesOnly D.moment D.left_since disk.old disk.new (IsTorn old bytes.now)) }
    ensures shut { OnErr result (IfSome (D.image disk.old) (MayStayShut (D.may_leave disk.new))) }

    ensures cause { IsErrOf result Stop.Failed → Rose (D.faults disk.old) (D.faults disk.new) }
    ensures wanted { IsErrOf result Stop.NoMemory → IsTrue (D.wants_memory disk.old) }
    ensures memory { D.wants_memory disk.new ≡ D.wants_memory disk.old }
    ensures later { GoesOn D.image D.faults disk.old disk.new }
{
    write_through(disk, log_len, bytes)?;
    write_through(disk, log_len - 1, &[OPEN])
}
