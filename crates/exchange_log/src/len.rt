// How long a give's spelling is.
ghost use Rattle.std.specs.Prelude.{◌≡◌, ◌≤◌, length};
ghost use Rattle.exchange_log.specs.Gives.{give_fields, GiveHasSpelling};

use crate::origins::ORIGIN_LEN;
use arn_base::Give;

// How many bytes tell how many items a list has.
const COUNT_LEN: u64 = 4;

/// How many bytes a give takes at most.
pub const MOST_GIVE: u64 = 2 * COUNT_LEN + (1 + ORIGIN_LEN as u64) * u32::MAX as u64;

/// How many bytes a give's spelling has.
pub fn give_len(give: &Give) -> u64
    requires { GiveHasSpelling give.now }
    ensures len { result ≡ length (give_fields give.now) }
    ensures most { result ≤ MOST_GIVE }
{
    let bytes = give.bytes.as_slice().len();
    let origins = ORIGIN_LEN * give.origins.as_slice().len();
    COUNT_LEN + bytes as u64 + COUNT_LEN + origins as u64
}
