//! Two meanings of one number.

ghost use Rattle.std.specs.Prelude.{◌≡◌, ◌<◌, true, false, IfSome, IfNone};
ghost use Rattle.doi_table.specs.Definition.{IsDefinition};
ghost use Rattle.label_flow.specs.node_agreement.Meanings.{wire_meaning};
ghost use Rattle.label_flow.specs.node_agreement.inside.Found.{IsSame, Differ};

use crate::node_agreement::ends::Ends;
use doi_table::DoiDef;
use label_commands::Reading;

/// A number on the wire, and what it means to the left and to the right node.
#[derive(Clone, Copy)]
pub struct Difference {
    pub wire: u16,
    pub left: u32,
    pub right: u32,
}

/// The meanings of a level on the wire, where both nodes know it and they differ.
pub fn level_difference(ends: &Ends<'_>, wire: u8) -> Option<Difference>
    ensures some { IfSome result (λ d. (d.wire ≡ wire) × Differ
        (wire_meaning true ends.now.left.now ends.now.left_reading.now wire)
        (wire_meaning true ends.now.right.now ends.now.right_reading.now wire) d) }
    ensures none { IfNone result (IsSame
        (wire_meaning true ends.now.left.now ends.now.left_reading.now wire)
        (wire_meaning true ends.now.right.now ends.now.right_reading.now wire)) }
{
    let left = level_meaning(ends.left, ends.left_reading, wire);
    let right = level_meaning(ends.right, ends.right_reading, wire);
    apart(u16::from(wire), left, right)
}

/// The meanings of a category on the wire, where both nodes know it and they differ.
pub fn category_difference(ends: &Ends<'_>, wire: u16) -> Option<Difference>
    requires wire { wire < 65535 }
    requires left { IsDefinition ends.now.left.now }
    requires right { IsDefinition ends.now.right.now }
    ensures some { IfSome result (λ d. (d.wire ≡ wire) × Differ
        (wire_meaning false ends.now.left.now ends.now.left_reading.now wire)
        (wire_meaning false ends.now.right.now ends.now.right_reading.now wire) d) }
    ensures none { IfNone result (IsSame
        (wire_meaning false ends.now.left.now ends.now.left_reading.now wire)
        (wire_meaning false ends.now.right.now ends.now.right_reading.now wire)) }
{
    let left = category_meaning(ends.left, ends.left_reading, wire);
    let right = category_meaning(ends.right, ends.right_reading, wire);
    apart(wire, left, right)
}

// What a level on the wire means at a node.
fn level_meaning(def: &DoiDef, reading: &Reading, wire: u8) -> Option<u32>
    ensures { result ≡ wire_meaning true def.now reading.now wire }
{
    match def.local_level(wire) {
        Some(level) => Some(reading.level(level)),
        None => None,
    }
}

// What a category on the wire means at a node.
fn category_meaning(def: &DoiDef, reading: &Reading, wire: u16) -> Option<u32>
    requires wire { wire < 65535 }
    requires definition { IsDefinition def.now }
    ensures { result ≡ wire_meaning false def.now reading.now wire }
{
    match def.local_category(wire) {
        Some(category) => Some(reading.category(category)),
        None => None,
    }
}

// The number with its meanings, where both are there and differ.
fn apart(wire: u16, left: Option<u32>, right: Option<u32>) -> Option<Difference>
    ensures some { IfSome result (λ d. (d.wire ≡ wire) × Differ left right d) }
    ensures none { IfNone result (IsSame left right) }
{
    let Some(left) = left else {
        return None;
    };
    let Some(right) = right else {
        return None;
    };
    if left == right {
        return None;
    }
    Some(Difference { wire, left, right })
}
