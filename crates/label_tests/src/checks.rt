//! What a test asks. An assertion is a branch in the proof of the function that it stands in, and a call of these is none.

use std::alloc::Global;
use std::fmt::Debug;
use std::process::Abort;
use worked_values::octets_of;

/// Ends the test, and prints the case and both values, unless `found` is `wanted`.
pub fn same<C: Debug + Drop, T: PartialEq + Debug + Drop>(
    rt: &impl Abort,
    case: C,
    found: T,
    wanted: T,
) {
    assert_eq!(rt; found, wanted, "{case:?}");
}

/// Ends the test, and prints the case, unless it `holds`.
pub fn holds<C: Debug + Drop>(rt: &impl Abort, case: C, holds: bool) {
    assert!(rt; holds, "{case:?}");
}

/// The octets of a packet in hexadecimal digits.
pub fn octets(rt: &impl Abort, alloc: Global, text: &str) -> Vec<u8> {
    octets_of(alloc, text).expect(rt, "memory")
}

/// Ends the test unless these octets are those of a text.
pub fn are_octets(rt: &impl Abort, alloc: Global, case: &str, found: &[u8], text: &str) {
    let wanted = octets(rt, alloc, text);
    same(rt, case, found, wanted.as_slice());
}
