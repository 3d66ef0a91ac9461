ghost use Rattle.std.specs.Prelude.{◌≡◌, suc, ◌+◌, ◌-◌, ◌*◌, ◌^◌, ◌<◌, ◌≤◌, nat_lt, if◌then◌else◌};
ghost use Rattle.rv64_isa.specs.Bits.{bits_of};
ghost use Rattle.rv64_isa.specs.Signed.{signed_of, unsigned_of, FitsIn};

// The bits from `high` down to `low`, as a number.
#[inline(always)]
pub(crate) fn bits(word: u32, high: u32, low: u32) -> u32
    requires ordered { low ≤ high }
    requires within { high < 32 }
    ensures { result ≡ bits_of word high low }
{
    let width = high - low + 1;
    (word >> low) & (u32::MAX >> (32 - width))
}

// The bits `high` above the `width` bits `low`.
#[inline(always)]
pub(crate) fn join(high: u32, low: u32, width: u32) -> u32
    requires within { width < 32 }
    requires fits { low < 2 ^ width }
    requires in_word { high * 2 ^ width + low < 2 ^ 32 }
    ensures { result ≡ high * 2 ^ width + low }
{
    high << width | low
}

// The bits with bit `sign`, the highest, flipped: what they spell is 2^sign above the signed number.
#[inline(always)]
fn flip_sign(bits: u32, sign: u32) -> u64
    requires within { sign < 32 }
    requires fits { bits < 2 ^ suc sign }
    ensures { result ≡ (if nat_lt bits (2 ^ sign) then bits + 2 ^ sign else bits - 2 ^ sign) }
{
    u64::from(bits) ^ (1 << sign)
}

// The signed number that `width` bits spell.
#[inline(always)]
pub(crate) fn sign_extend(bits: u32, width: u32) -> i64
    requires some { 0 < width }
    requires within { width ≤ 32 }
    requires fits { bits < 2 ^ width }
    ensures { result ≡ signed_of width bits }
{
    let sign = width - 1;
    flip_sign(bits, sign).cast_signed() - (1 << sign)
}

// The `width` bits that spell a signed number.
pub(crate) fn low_bits(number: i64, width: u32) -> u32
    requires some { 0 < width }
    requires within { width ≤ 32 }
    requires fits { FitsIn width number }
    ensures { result ≡ unsigned_of width number }
{
    (number.cast_unsigned() & (u64::MAX >> (64 - width))) as u32
}
