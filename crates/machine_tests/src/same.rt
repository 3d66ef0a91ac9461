// What was found is what is wanted.
use std::fmt::Debug;
use std::process::Abort;

pub(crate) fn assert_same<T: PartialEq + Debug + Drop>(rt: &impl Abort, found: T, wanted: T) {
    assert_eq!(rt; found, wanted);
}
