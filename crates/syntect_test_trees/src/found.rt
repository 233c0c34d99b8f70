//! What a test asks of what it found.
use std::fmt::Debug;
use std::process::Abort;

/// Ends the test where this does not hold.
pub fn holds(rt: &impl Abort, held: bool) {
    assert!(rt; held);
}

/// Ends the test where something else was found than is wanted.
pub fn equal<T: PartialEq + Debug + Drop>(rt: &impl Abort, found: T, wanted: T) {
    assert_eq!(rt; found, wanted);
}
