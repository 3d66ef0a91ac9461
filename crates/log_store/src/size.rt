// How long a log may be.
ghost use Rattle.std.specs.Prelude.{◌≡◌, ◌+◌, ◌<◌, ◌≤◌, IfSome, IfNone};

use crate::format::FRAME_HEAD;

/// How many bytes a log has at most.
pub const MOST_LOG: u64 = 268_435_456;

/// How long a log of `log` bytes is with one more frame, whose payload has `payload` bytes, where
/// that isn't more than a log may have.
pub fn frame_end(log: u64, payload: u64) -> Option<u64>
    ensures end { IfSome result (λ end. end ≡ log + 5 + payload) }
    ensures within { IfSome result (λ end. end ≤ MOST_LOG) }
    ensures none { IfNone result (MOST_LOG < log + 5 + payload) }
{
    // The last gate becomes the frame's, and the next one is new.
    let end = log.checked_add(FRAME_HEAD)?.checked_add(payload)?;
    if end > MOST_LOG {
        return None;
    }
    Some(end)
}
