// Ranges of addresses of a process, and the bytes there.
ghost use Rattle.std.specs.Prelude.{◌≡◌, ◌<◌, ◌≤◌, ◌&&◌, IfOk, IfSome, IsSome, length, nat_lt, not, take};
ghost use Rattle.parts_model.specs.declared.limits.TheConstants.{MOST_TRANSFER};
ghost use Rattle.acts_model.specs.Views.{bytes_in, can_reach, read};
ghost use Rattle.arn_model.specs.Doing.{Request};
ghost use Rattle.arn_model.specs.Kernel.{Machine};
ghost use Rattle.arn_model.specs.TransferCalls.{cut, if_moving};
ghost use Rattle.guest_bodies.specs.Shown.{IsLive, seen_in};
ghost use Rattle.guest_requests.specs.Transfers.{moved_by};

use crate::arguments::error;
use arn_base::{Bytes, NoMemory};
use guest_bodies::Bodies;
use parts_model::limits::MOST_TRANSFER;
use parts_model::refusals::BAD_ADDRESS;

/// How many bytes a transfer moves at most, or its result where it moves none.
pub(crate) fn moving(bodies: &Bodies, pid: u32, at: u64, count: u64) -> Result<u64, u64>
    requires { IsLive bodies.now pid }
    ensures most { IfOk result (λ most. (most ≡ cut count) × (most ≤ MOST_TRANSFER)) }
    ensures some { IfOk result (λ most. 0 < most) }
    ensures reach { IfOk result (λ most.
        IfSome (seen_in bodies.now pid) (λ v. IsSome (bytes_in v at most))) }
    ensures moved { IfSome (seen_in bodies.now pid) (λ v. (m : Machine) → (goes_on : Request) →
        if_moving m v at count goes_on ≡ moved_by result m goes_on) }
{
    if count == 0 {
        return Err(0);
    }
    let most = count.min(MOST_TRANSFER);
    if !bodies.can_reach(pid, at, most) {
        return Err(error(BAD_ADDRESS));
    }
    Ok(most)
}

/// Whether a process lacks the bytes of an argument block. One of no bytes isn't looked at.
pub fn lacks_block(bodies: &Bodies, pid: u32, block: u64, len: u64) -> bool
    requires { IsLive bodies.now pid }
    ensures { IfSome (seen_in bodies.now pid) (λ v.
        result ≡ (nat_lt 0 len && not (can_reach v block len))) }
{
    len > 0 && !bodies.can_reach(pid, block, len)
}

/// The bytes of a process, where they lie whole in one window.
pub fn copy_of(bodies: &Bodies, pid: u32, at: u64, count: u64) -> Result<Bytes, NoMemory>
    requires live { IsLive bodies.now pid }
    requires reach { IfSome (seen_in bodies.now pid) (λ v. IsSome (bytes_in v at count)) }
    ensures read { IfOk result (λ bytes.
        IfSome (seen_in bodies.now pid) (λ v. bytes ≡ read v at count)) }
    ensures count { IfOk result (λ bytes. length bytes ≡ count) }
{
    match bodies.copy(pid, at, count)? {
        Some(bytes) => Ok(bytes),
        None => unreachable!(),
    }
}

/// The first bytes of a range of a process.
pub fn first_of(
    bodies: &Bodies,
    pid: u32,
    at: u64,
    count: u64,
    first: u64,
) -> Result<Bytes, NoMemory>
    requires live { IsLive bodies.now pid }
    requires reach { IfSome (seen_in bodies.now pid) (λ v. IsSome (bytes_in v at count)) }
    requires few { first ≤ count }
    ensures read { IfOk result (λ bytes.
        IfSome (seen_in bodies.now pid) (λ v. bytes ≡ take first (read v at count))) }
    ensures count { IfOk result (λ bytes. length bytes ≡ first) }
    ensures whole { IfSome (seen_in bodies.now pid) (λ v. length (read v at count) ≡ count) }
{
    match bodies.first_of(pid, at, count, first)? {
        Some(bytes) => Ok(bytes),
        None => unreachable!(),
    }
}
