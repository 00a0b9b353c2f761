// Asserts that two values are equal. A call of this is proved in a third of the time of `assert_eq!`, which is used with a
// message, or if a later line depends on what it asserts.

use std::fmt::Debug;
use std::process::Abort;

pub(crate) fn equal<T: PartialEq + Debug + Drop>(rt: &impl Abort, left: T, right: T) {
    assert!(rt; left == right, "{left:?} is not {right:?}");
}
