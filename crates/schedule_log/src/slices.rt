// A turn of a process: how many instructions it ran.
ghost use Rattle.std.specs.Prelude.{◌≡◌, ◌∷◌, ◌++◌, ◌↔◌, ℕ, List, IfOk, IfSome, IfNone, IsErrOf, IfErr, OnOk, OnErr};
ghost use Rattle.schedule_log.specs.Fields.{LeavesFront};
ghost use Rattle.schedule_log.specs.Schedule.{slice_spelling, BeginsSlice, IsNoSlice, ReadsSlice};

use crate::GetError;
use crate::fields::{put_u8, put_u32};
use crate::split::{split_u8, split_u32};
use arn_base::NoMemory;

/// The byte that begins a slice.
pub const SLICE: u8 = 5;

fn put_parts(out: &mut Vec<u8>, pid: u32, ran: u32) -> Result<(), NoMemory>
    ensures ok { OnOk result (out.new.items ≡ out.old.items ++ slice_spelling pid ran) }
    ensures err { OnErr result (LeavesFront out.old.items out.new.items) }
{
    put_u8(out, SLICE)?;
    put_u32(out, pid)?;
    put_u32(out, ran)
}

/// Appends the spelling of a slice: process `pid` ran so many instructions.
pub fn put_slice(out: &mut Vec<u8>, pid: u32, ran: u32) -> Result<(), NoMemory>
    ensures ok { OnOk result (out.new.items ≡ out.old.items ++ slice_spelling pid ran) }
    ensures err { OnErr result (out.new.items ≡ out.old.items) }
{
    let before = out.len();
    let put = put_parts(out, pid, ran);
    if put.is_err() {
        out.truncate(before);
    }
    put
}

/// The process, how many instructions it ran, and what stands behind that. The bytes are those
/// behind the byte that begins a slice.
pub fn split_slice(bytes: &[u8]) -> Option<(u32, u32, &[u8])>
    ensures some { IfSome result (λ found.
        BeginsSlice (SLICE ∷ bytes.now) found.0 found.1 found.2.now) }
    ensures none { IfNone result ((pid ran : ℕ) (rest : List ℕ) →
        ¬ BeginsSlice (SLICE ∷ bytes.now) pid ran rest) }
{
    let (pid, behind) = split_u32(bytes)?;
    let (ran, rest) = split_u32(behind)?;
    Some((pid, ran, rest))
}

// The slice that the bytes begin with.
fn front_slice(bytes: &[u8]) -> Option<(u32, u32, &[u8])>
    ensures some { IfSome result (λ found. BeginsSlice bytes.now found.0 found.1 found.2.now) }
    ensures none { IfNone result ((pid ran : ℕ) (rest : List ℕ) →
        ¬ BeginsSlice bytes.now pid ran rest) }
{
    let (kind, fields) = split_u8(bytes)?;
    if kind != SLICE {
        return None;
    }
    split_slice(fields)
}

/// Reads the slice that is spelled at the place `at` of the bytes: the process, how many
/// instructions it ran, and the place behind.
pub fn get_slice(bytes: &[u8], at: usize) -> Result<(u32, u32, usize), GetError>
    ensures ok { IfOk result (λ found. ReadsSlice bytes.now at found.0 found.1 found.2) }
    ensures malformed { IsErrOf result (GetError.Malformed at) ↔ IsNoSlice bytes.now at }
    ensures err { IfErr result (λ e. e ≡ GetError.Malformed at) }
{
    let malformed = GetError::Malformed { at: at as u64 };
    let Some(behind) = bytes.get(at..) else {
        return Err(malformed);
    };
    let Some((pid, ran, rest)) = front_slice(behind) else {
        return Err(malformed);
    };
    Ok((pid, ran, bytes.len() - rest.len()))
}
