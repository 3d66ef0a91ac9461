// Sets with received bytes in a row besides.
ghost use Rattle.std.specs.Prelude.{IsTrue, IfSome};
ghost use Rattle.taint_spans.specs.Spans.{HasBytes, IsWithin, Lengthens};

/// A set, and so many received bytes besides, from one on.
#[derive(Clone, Copy, PartialEq, Eq)]
pub struct Span {
    /// The set's number.
    pub base: u32,
    /// The number of the first byte.
    pub first: u32,
    /// How many bytes there are.
    pub len: u32,
}

/// How many received bytes a span has at most.
const MOST: u32 = 64;

/// The number of the empty set.
pub const EMPTY: u32 = 0;

/// Whether all bytes of a span are among those of another one.
#[inline(always)]
fn has_bytes(span: Span, other: Span) -> bool
    ensures { IsTrue result → HasBytes other span }
{
    other.len == 0
        || span.first <= other.first
            && u64::from(other.first) + u64::from(other.len)
                <= u64::from(span.first) + u64::from(span.len)
}

/// Whether a span's numbers tell that all members of another one are its own.
#[inline(always)]
pub fn has_all(span: Span, other: Span) -> bool
    ensures { IsTrue result → IsWithin other span }
{
    (other.base == EMPTY || other.base == span.base) && has_bytes(span, other)
}

/// The span with one byte more, if that is its first or comes behind its last one, and there is room for it.
#[inline(always)]
pub fn longer(span: Span, byte: u32) -> Option<Span>
    ensures { IfSome result (Lengthens span byte) }
{
    if span.len == 0 {
        return Some(Span {
            base: span.base,
            first: byte,
            len: 1,
        });
    }
    if span.len < MOST && byte > span.first && byte - span.first == span.len {
        return Some(Span {
            len: span.len + 1,
            ..span
        });
    }
    None
}
