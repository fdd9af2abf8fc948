//! What a test asks: an assertion is a branch in the proof of what it stands in, and a call of these is none.

use std::fmt::Debug;
use std::process::Abort;

/// Ends the test, and prints `case` and both values, unless `found` is `wanted`.
pub fn same<C: Debug + Drop, T: PartialEq + Debug + Drop>(
    rt: &impl Abort,
    case: C,
    found: T,
    wanted: T,
) {
    assert_eq!(rt; found, wanted, "{case:?}");
}
