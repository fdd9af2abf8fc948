//! Whether one hop covers the next.

ghost use Rattle.std.specs.Prelude.{IfNone, IfSome};
ghost use Rattle.static_law.specs.Covered.{Covered};
ghost use Rattle.static_law.specs.Uncovered.{IsUncovered};

use crate::entries::Entries;
use crate::uncovered::Uncovered;
use domain_map::Name;
use label_commands::Reading;
use label_flow::agrees;
use node_tables::Tables;

/// `None` where what goes from one node to the next over these interfaces, without a label, gets one that means at least as much: the nodes
/// agree and the right one accepts nothing without a label, or sets no label for it at this interface, or the left one has a range for its
/// interface and each entry in question means at least as much as the range's high end. Else the first reason. It takes no memory.
pub fn covers(
    left: &Tables,
    out_interface: &Name,
    right: &Tables,
    in_interface: &Name,
    left_reading: &Reading,
    right_reading: &Reading,
) -> Option<Uncovered>
    ensures covered { IfNone result
        (Covered left.now out_interface.now right.now in_interface.now
        left_reading.now right_reading.now) }
    ensures reason { IfSome result
        (IsUncovered left.now out_interface.now right.now in_interface.now
        left_reading.now right_reading.now) }
{
    if let Some(difference) = agrees(left, right, left_reading, right_reading) {
        return Some(Uncovered::Differ(difference));
    }
    if !right.accepts() {
        return None;
    }
    let entries = Entries::counting(right.statics(), in_interface);
    if entries.is_empty() {
        return None;
    }
    let Some(range) = left.find_range(out_interface) else {
        return Some(Uncovered::NoRange);
    };
    match entries.first_low(right_reading, range.high(), left_reading) {
        Some(index) => Some(Uncovered::Entry { index }),
        None => None,
    }
}
