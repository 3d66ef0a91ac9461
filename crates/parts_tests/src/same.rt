// One place for what compares and prints, since each body that does both has a long proof.
use arn_base::{Give, Origin};
use std::fmt::Debug;
use std::process::Abort;

/// The value that was found is the one that is wanted.
pub fn assert_same<T: PartialEq + Debug + Drop>(rt: &impl Abort, found: T, wanted: T) {
    assert_eq!(rt; found, wanted);
}

/// The give has these bytes and these origins.
pub fn assert_gives(rt: &impl Abort, give: &Give, bytes: &[u8], origins: &[Origin]) {
    assert_same(rt, give.bytes.as_slice(), bytes);
    assert_same(rt, give.origins.as_slice(), origins);
}

/// So many bytes of an event, from a place on.
pub fn origin(event: u64, at: u32, len: u32) -> Origin {
    Origin { event, at, len }
}
