// Pending signals as the digits of a number.
ghost use Rattle.std.specs.Prelude.{◌≡◌, ◌<◌, IfSome, IsTrue, false, slice_get, slice_set, true, unwrap_or};
ghost use Rattle.parts_model.specs.Signals.{is_signal, lowest_from};
ghost use Rattle.parts_model.specs.declared.limits.TheConstants.{GREATEST_SIGNAL};
ghost use Rattle.guest_signals.specs.Pending.{pending_in};

use parts_model::limits::GREATEST_SIGNAL;

/// With the signal at a place.
#[tactic(auto, using(crate::proofs::Digits::seen))]
pub fn with(pending: u32, place: usize) -> u32
    requires { place < GREATEST_SIGNAL }
    ensures { pending_in result ≡ slice_set (pending_in pending) place true }
{
    pending | 1 << place
}

/// Without it.
#[tactic(auto, using(crate::proofs::Digits::seen))]
pub fn without(pending: u32, place: usize) -> u32
    requires { place < GREATEST_SIGNAL }
    ensures { pending_in result ≡ slice_set (pending_in pending) place false }
{
    pending & !(1 << place)
}

/// Whether it is pending.
#[tactic(auto, using(crate::proofs::Digits::seen))]
pub fn has(pending: u32, place: usize) -> bool
    requires { place < GREATEST_SIGNAL }
    ensures { result ≡ unwrap_or (slice_get (pending_in pending) place) false }
{
    pending >> place & 1 == 1
}

/// The lowest signal that is pending.
#[tactic(auto, using(crate::proofs::Digits::seen))]
pub fn lowest(pending: u32) -> Option<u8>
    ensures lowest { result ≡ lowest_from 1 (pending_in pending) }
    ensures signal { IfSome result (λ signal. IsTrue (is_signal signal)) }
{
    let place = pending.trailing_zeros();
    if u64::from(place) < GREATEST_SIGNAL {
        Some(place as u8 + 1)
    } else {
        None
    }
}
