// The parts of a spelling, split off at the front of bytes. Each function gives what it found and
// the bytes behind that.
ghost use Rattle.std.specs.Prelude.{◌≡◌, ◌<◌, ◌++◌, List, ℕ, length, IfSome, IfNone, ◌∷◌, ◌^◌};
ghost use Rattle.result_log.specs.Pieces.{call_head, BeginsDevice, BeginsPath, BeginsPut};

use crate::kinds::CALL;
use schedule_log::split::{split_counted, split_named, split_u32, split_u64};

// How many bytes stand between the kind of a call and the tag of what it did.
const CALL_HEAD_LEN: usize = 20;

// What stands between the kind of a call and the tag of what it did.
#[derive(Clone, Copy)]
pub(crate) struct CallHead {
    pub(crate) pid: u32,
    pub(crate) number: u64,
    pub(crate) result: u64,
}

pub(crate) fn split_call_head(bytes: &[u8]) -> Option<(CallHead, &[u8])>
    ensures some { IfSome result (λ found. CALL ∷ bytes.now ≡
        call_head found.0.pid found.0.number found.0.result ++ found.1.now) }
    ensures fits { IfSome result (λ found. (found.0.pid < 2 ^ 32) ×
        (found.0.number < 2 ^ 64) × (found.0.result < 2 ^ 64)) }
    ensures none { IfNone result (length bytes.now < CALL_HEAD_LEN) }
{
    let (pid, behind) = split_u32(bytes)?;
    let (number, behind) = split_u64(behind)?;
    let (result, rest) = split_u64(behind)?;
    let head = CallHead {
        pid,
        number,
        result,
    };
    Some((head, rest))
}

// The number of a device, and a list of bytes.
pub(crate) fn split_device(bytes: &[u8]) -> Option<(u32, &[u8], &[u8])>
    ensures some { IfSome result (λ found.
        BeginsDevice bytes.now found.0 found.1.now found.2.now) }
    ensures none { IfNone result ((device : ℕ) (found rest : List ℕ) →
        ¬ BeginsDevice bytes.now device found rest) }
{
    let (device, behind) = split_u32(bytes)?;
    let (found, rest) = split_counted(behind)?;
    Some((device, found, rest))
}

// Bytes that were written to a file.
#[derive(Clone, Copy)]
pub(crate) struct PutParts<'a> {
    pub(crate) file: u32,
    pub(crate) at: u32,
    pub(crate) written: &'a [u8],
    pub(crate) rest: &'a [u8],
}

pub(crate) fn split_put(bytes: &[u8]) -> Option<PutParts<'_>>
    ensures some { IfSome result (λ found.
        BeginsPut bytes.now found.file found.at found.written.now found.rest.now) }
    ensures none { IfNone result ((file at : ℕ) (found rest : List ℕ) →
        ¬ BeginsPut bytes.now file at found rest) }
{
    let (file, behind) = split_u32(bytes)?;
    let (at, behind) = split_u32(behind)?;
    let (written, rest) = split_counted(behind)?;
    Some(PutParts {
        file,
        at,
        written,
        rest,
    })
}

// The number of a file, and a name.
pub(crate) fn split_path(bytes: &[u8]) -> Option<(u32, &[u8], &[u8])>
    ensures some { IfSome result (λ found. BeginsPath bytes.now found.0 found.1.now found.2.now) }
    ensures none { IfNone result ((file : ℕ) (path rest : List ℕ) →
        ¬ BeginsPath bytes.now file path rest) }
{
    let (file, behind) = split_u32(bytes)?;
    let (path, rest) = split_named(behind)?;
    Some((file, path, rest))
}
