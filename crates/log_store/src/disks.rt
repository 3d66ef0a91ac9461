// What opening a log does to a disk.
ghost use Rattle.std.specs.Prelude.{◌≡◌, ◌+◌, ◌≤◌, ◌<◌, ◌++◌, ◌∷◌, [], ℕ, List, length, take, drop, IfSome, IfOk, IfErr, OnOk, IsErrOf, option_map};
ghost use Rattle.arn_base.specs.Disk.{Only};
ghost use Rattle.arn_base.specs.Faults.{Rose};
ghost use Rattle.log_store.specs.Causes.{IsCauseOf};
ghost use Rattle.log_store.specs.Log.{log_name, IsEnd};
ghost use Rattle.log_store.specs.Pieces.{EndsWith, IsSameFront};
ghost use Rattle.log_store.specs.Stops.{NothingPending, LeavesOnly, IsOnlyRead, GoesOn};

use crate::errors::OpenError;
use crate::format::{CLOSED, FRESH};
use crate::size::MOST_LOG;
use crate::steps::{cut_through, write_through};
use arn_base::{Disk, Stop};
use std::alloc::Global;

// The bytes of a disk that isn't too long.
pub fn load<D: Disk>(alloc: Global, disk: &mut D) -> Result<Vec<u8>, OpenError>
    ensures bytes { IfOk result (λ bytes. IfSome (D.image disk.old) (λ told. told ≡ bytes.items)) }
    ensures short { IfOk result (λ bytes. length bytes.items ≤ MOST_LOG) }
    ensures refused { IfErr result (λ error.
        IfSome (D.image disk.old) (λ told. IsCauseOf told error)) }
    ensures too_long { (len : ℕ) → IsErrOf result (OpenError.TooLong len) → MOST_LOG < len }
    ensures not_log { (at : ℕ) → ¬ IsErrOf result (OpenError.NotLog at) }
    ensures malformed { (at : ℕ) → ¬ IsErrOf result (OpenError.Malformed at) }
    ensures read { IsOnlyRead D.image D.may_leave D.moment D.left_since disk.old disk.new }
    ensures cause { IsErrOf result OpenError.Disk → Rose (D.faults disk.old) (D.faults disk.new) }
    ensures later { GoesOn D.image D.faults disk.old disk.new }
{
    let len = disk.len()?;
    if len > MOST_LOG {
        return Err(OpenError::TooLong { len });
    }
    let mut bytes = vec![in alloc; 0; len as usize]?;
    disk.read(0, &mut bytes)?;
    Ok(bytes)
}

// Makes a fresh log of at most nine bytes one without records.
pub fn make_fresh<D: Disk>(disk: &mut D, bytes: &[u8]) -> Result<(), Stop>
    requires short { length bytes.now ≤ 9 }
    requires told { IfSome (D.image disk.old) (λ told. told ≡ bytes.now) }

    ensures fresh { OnOk result (IfSome (D.image disk.new) (λ told. told ≡ log_name ++ 0 ∷ [])) }
    ensures durable { OnOk result (NothingPending D.image D.may_leave disk.old →
        NothingPending D.image D.may_leave disk.new) }

    ensures any_moment { IfSome (D.image disk.old) (λ told. Only told (D.may_leave disk.old) →
        LeavesOnly D.moment D.left_since disk.old disk.new (λ left. length left ≤ 9)) }

    ensures unmoved { bytes.now ≡ log_name ++ 0 ∷ [] → disk.new ≡ disk.old }
    ensures cause { IsErrOf result Stop.Failed → Rose (D.faults disk.old) (D.faults disk.new) }
    ensures later { GoesOn D.image D.faults disk.old disk.new }
{
    if bytes != FRESH.as_slice() {
        write_through(disk, 0, &FRESH)?;
    }
    Ok(())
}

// Makes the gate that ends a log closed, and the last byte.
pub fn close_end<D: Disk>(disk: &mut D, gate: u64, end: &[u8]) -> Result<(), Stop>
    requires gate { gate < MOST_LOG }
    requires end { IsEnd end.now }
    requires told { IfSome (D.image disk.old) (EndsWith gate end.now) }

    ensures closed { OnOk result (D.image disk.new ≡
        option_map (λ told. take gate told ++ 0 ∷ []) (D.image disk.old)) }
    ensures durable { OnOk result (NothingPending D.image D.may_leave disk.old →
        NothingPending D.image D.may_leave disk.new) }

    ensures any_moment { IfSome (D.image disk.old) (λ told. Only told (D.may_leave disk.old) →
        LeavesOnly D.moment D.left_since disk.old disk.new (IsSameFront gate told)) }

    ensures unmoved { end.now ≡ 0 ∷ [] → disk.new ≡ disk.old }
    ensures cause { IsErrOf result Stop.Failed → Rose (D.faults disk.old) (D.faults disk.new) }
    ensures later { GoesOn D.image D.faults disk.old disk.new }
{
    cut_behind(disk, gate, end)?;
    shut_gate(disk, gate, end[0])
}

// Cuts the log behind the gate that ends it.
fn cut_behind<D: Disk>(disk: &mut D, gate: u64, end: &[u8]) -> Result<(), Stop>
    requires gate { gate < MOST_LOG }
    requires end { IsEnd end.now }
    requires told { IfSome (D.image disk.old) (EndsWith gate end.now) }

    ensures cut { OnOk result (D.image disk.new ≡
        option_map (take (gate + 1)) (D.image disk.old)) }
    ensures durable { OnOk result (NothingPending D.image D.may_leave disk.old →
        NothingPending D.image D.may_leave disk.new) }

    ensures any_moment { IfSome (D.image disk.old) (λ told. Only told (D.may_leave disk.old) →
        LeavesOnly D.moment D.left_since disk.old disk.new (IsSameFront gate told)) }

    ensures unmoved { length end.now ≤ 1 → disk.new ≡ disk.old }
    ensures cause { IsErrOf result Stop.Failed → Rose (D.faults disk.old) (D.faults disk.new) }
    ensures later { GoesOn D.image D.faults disk.old disk.new }
{
    if end.len() > 1 {
        return cut_through(disk, gate + 1);
    }
    Ok(())
}

// Closes the gate of this value, which is the last byte of a log.
fn shut_gate<D: Disk>(disk: &mut D, gate: u64, value: u8) -> Result<(), Stop>
    requires { IfSome (D.image disk.old) (EndsWith gate (value ∷ [])) }

    ensures closed { OnOk result (D.image disk.new ≡
        option_map (λ told. take gate told ++ 0 ∷ []) (D.image disk.old)) }
    ensures durable { OnOk result (NothingPending D.image D.may_leave disk.old →
        NothingPending D.image D.may_leave disk.new) }

    ensures any_moment { IfSome (D.image disk.old) (λ told. Only told (D.may_leave disk.old) →
        LeavesOnly D.moment D.left_since disk.old disk.new (IsSameFront gate told)) }

    ensures unmoved { value ≡ 0 → disk.new ≡ disk.old }
    ensures cause { IsErrOf result Stop.Failed → Rose (D.faults disk.old) (D.faults disk.new) }
    ensures later { GoesOn D.image D.faults disk.old disk.new }
{
    if value != CLOSED {
        return write_through(disk, gate, &[CLOSED]);
    }
    Ok(())
}
