//! What a test asks. An assertion is a branch in the proof of the function that it stands in, and a call of these is none.

use std::fmt::Debug;
use std::process::Abort;

/// Ends the test, and prints the case and both values, unless `found` is `wanted`.
pub fn same<C: Debug + Drop, T: PartialEq + Debug + Drop>(
    rt: &impl Abort,
    case: C,
    found: T,
    wanted: T,
) {
    assert_eq!(rt; found, wanted, "{case:?}");
}

/// Ends the test, and prints the case, unless it `holds`.
pub fn holds<C: Debug + Drop>(rt: &impl Abort, case: C, holds: bool) {
    assert!(rt; holds, "{case:?}");
}
