//! The first level that means two things.

ghost use Rattle.std.specs.Prelude.{true};
ghost use Rattle.label_flow.specs.node_agreement.Meanings.{wire_meaning};
ghost use Rattle.label_flow.specs.node_agreement.inside.Found.{IsLeast};

use crate::node_agreement::difference::{Difference, level_difference};
use crate::node_agreement::ends::Ends;

/// The lowest level on the wire that has two meanings.
pub fn first_level(ends: &Ends<'_>) -> Option<Difference>
    ensures { IsLeast
        (wire_meaning true ends.now.left.now ends.now.left_reading.now)
        (wire_meaning true ends.now.right.now ends.now.right_reading.now) 256 result }
{
    for wire in 0..256u16 {
        let found = level_difference(ends, wire as u8);
        if found.is_some() {
            return found;
        }
    }
    None
}
