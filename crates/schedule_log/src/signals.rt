// A signal that was delivered to a process.
ghost use Rattle.std.specs.Prelude.{◌≡◌, ◌∷◌, ◌++◌, ◌↔◌, List, ℕ, IfOk, IfSome, IfNone, IsErrOf, IfErr, OnOk, OnErr};
ghost use Rattle.schedule_log.specs.Fields.{LeavesFront};
ghost use Rattle.schedule_log.specs.Schedule.{signal_spelling, BeginsNumber, BeginsSignal, IsNoSignal, IsSignal, ReadsSignal};

use crate::GetError;
use crate::fields::{put_flag, put_u8, put_u32, put_u64};
use crate::split::{split_flag, split_u8, split_u32, split_u64};
use arn_base::NoMemory;

/// The byte that begins a signal.
pub const SIGNAL: u8 = 6;

/// The highest number of a signal. The lowest is 1.
pub const MOST_SIGNAL: u8 = 31;

/// A signal that was delivered. It ended a call that wasn't ready where `cut` says so, and the
/// process where the handler is 0.
#[derive(Clone, Copy, Debug, PartialEq, Eq)]
pub struct Delivery {
    pub pid: u32,
    pub signal: u8,
    pub cut: bool,
    pub handler: u64,
}

fn put_parts(out: &mut Vec<u8>, delivery: Delivery) -> Result<(), NoMemory>
    ensures ok { OnOk result (out.new.items ≡ out.old.items ++ signal_spelling delivery) }
    ensures err { OnErr result (LeavesFront out.old.items out.new.items) }
{
    put_u8(out, SIGNAL)?;
    put_u32(out, delivery.pid)?;
    put_u8(out, delivery.signal)?;
    put_flag(out, delivery.cut)?;
    put_u64(out, delivery.handler)
}

/// Appends the spelling of a delivery. The signal is 1 to 31.
pub fn put_signal(out: &mut Vec<u8>, delivery: Delivery) -> Result<(), NoMemory>
    requires { IsSignal delivery.signal }
    ensures ok { OnOk result (out.new.items ≡ out.old.items ++ signal_spelling delivery) }
    ensures err { OnErr result (out.new.items ≡ out.old.items) }
{
    let before = out.len();
    let put = put_parts(out, delivery);
    if put.is_err() {
        out.truncate(before);
    }
    put
}

fn split_number(bytes: &[u8]) -> Option<(u8, &[u8])>
    ensures some { IfSome result (λ found. BeginsNumber bytes.now found.0 found.1.now) }
    ensures none { IfNone result ((signal : ℕ) (rest : List ℕ) →
        ¬ BeginsNumber bytes.now signal rest) }
{
    let (signal, rest) = split_u8(bytes)?;
    if signal == 0 || signal > MOST_SIGNAL {
        return None;
    }
    Some((signal, rest))
}

/// The delivery, and what stands behind it. The bytes are those behind the byte that begins a
/// signal.
pub fn split_signal(bytes: &[u8]) -> Option<(Delivery, &[u8])>
    ensures some { IfSome result (λ found. BeginsSignal (SIGNAL ∷ bytes.now) found.0 found.1.now) }
    ensures none { IfNone result ((delivery : Delivery) (rest : List ℕ) →
        ¬ BeginsSignal (SIGNAL ∷ bytes.now) delivery rest) }
{
    let (pid, behind) = split_u32(bytes)?;
    let (signal, behind) = split_number(behind)?;
    let (cut, behind) = split_flag(behind)?;
    let (handler, rest) = split_u64(behind)?;
    let delivery = Delivery {
        pid,
        signal,
        cut,
        handler,
    };
    Some((delivery, rest))
}

// The delivery that the bytes begin with.
fn front_signal(bytes: &[u8]) -> Option<(Delivery, &[u8])>
    ensures some { IfSome result (λ found. BeginsSignal bytes.now found.0 found.1.now) }
    ensures none { IfNone result ((delivery : Delivery) (rest : List ℕ) →
        ¬ BeginsSignal bytes.now delivery rest) }
{
    let (kind, fields) = split_u8(bytes)?;
    if kind != SIGNAL {
        return None;
    }
    split_signal(fields)
}

/// Reads the delivery that is spelled at the place `at` of the bytes. Answers it with the place
/// behind its spelling.
pub fn get_signal(bytes: &[u8], at: usize) -> Result<(Delivery, usize), GetError>
    ensures ok { IfOk result (λ found. ReadsSignal bytes.now at found.0 found.1) }
    ensures malformed { IsErrOf result (GetError.Malformed at) ↔ IsNoSignal bytes.now at }
    ensures err { IfErr result (λ e. e ≡ GetError.Malformed at) }
{
    let malformed = GetError::Malformed { at: at as u64 };
    let Some(behind) = bytes.get(at..) else {
        return Err(malformed);
    };
    let Some((delivery, rest)) = front_signal(behind) else {
        return Err(malformed);
    };
    Ok((delivery, bytes.len() - rest.len()))
}
