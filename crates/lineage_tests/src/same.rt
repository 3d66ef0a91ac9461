// One place for what compares and prints, since each body that does both has a long proof.
use std::fmt::Debug;
use std::process::Abort;

/// The value that was found is the one that is wanted.
pub fn assert_same<T: PartialEq + Debug + Drop>(rt: &impl Abort, found: T, wanted: T) {
    assert_eq!(rt; found, wanted);
}
