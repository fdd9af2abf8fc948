//! The first category that means two things. Where a definition has pairs, only their numbers are looked at, and where both pass all
//! numbers only those that a reading names: a number that neither names means itself at both nodes.

ghost use Rattle.std.specs.Prelude.{◌≡◌, ◌<◌, ◌≤◌, false};
ghost use Rattle.std.specs.List.{All};
ghost use Rattle.doi_table.specs.Definition.{IsDefinition};
ghost use Rattle.label_flow.specs.node_agreement.Meanings.{wire_meaning, carried_below};
ghost use Rattle.label_flow.specs.node_agreement.inside.Found.{IsSound, IsSettled, IsLeast, reach};

use crate::node_agreement::difference::{Difference, category_difference};
use crate::node_agreement::ends::Ends;
use label_commands::Reading;
use mls_label::Proto;

/// The lowest category on the wire that the protocol can carry and that has two meanings.
pub fn first_category(ends: &Ends<'_>, proto: Proto) -> Option<Difference>
    ensures { IsLeast
        (wire_meaning false ends.now.left.now ends.now.left_reading.now)
        (wire_meaning false ends.now.right.now ends.now.right_reading.now)
        (carried_below proto false) result }
{
    let limit = categories_of(proto);
    let left = ends.left.plan();
    let right = ends.right.plan();
    if left.trans {
        return least_of_pairs(ends, limit, ends.left.cats_by_wire());
    }
    if right.trans {
        return least_of_pairs(ends, limit, ends.right.cats_by_wire());
    }
    let found = least_of_named(ends, limit, ends.left_reading, None);
    least_of_named(ends, limit, ends.right_reading, found)
}

// The categories that a protocol can carry are those below.
fn categories_of(proto: Proto) -> u16
    ensures { result ≡ carried_below proto false }
{
    match proto {
        Proto::Cipso => 65535,
        Proto::Calipso => 1952,
    }
}

// The least difference among the first numbers of the pairs.
fn least_of_pairs(ends: &Ends<'_>, limit: u16, pairs: &[(u16, u16)]) -> Option<Difference>
    requires left { IsDefinition ends.now.left.now }
    requires right { IsDefinition ends.now.right.now }
    ensures sound { IsSound
        (wire_meaning false ends.now.left.now ends.now.left_reading.now)
        (wire_meaning false ends.now.right.now ends.now.right_reading.now) limit result }
    ensures settled { All (λ p. IsSettled
        (wire_meaning false ends.now.left.now ends.now.left_reading.now)
        (wire_meaning false ends.now.right.now ends.now.right_reading.now) limit result p.0)
        pairs.now }
{
    let mut found = None;
    for (wire, _) in pairs {
        found = nearer(ends, limit, found, *wire);
    }
    found
}

// The least difference among what was found and the categories that the reading names.
fn least_of_named(
    ends: &Ends<'_>,
    limit: u16,
    reading: &Reading,
    before: Option<Difference>,
) -> Option<Difference>
    requires left { IsDefinition ends.now.left.now }
    requires right { IsDefinition ends.now.right.now }
    requires before { IsSound
        (wire_meaning false ends.now.left.now ends.now.left_reading.now)
        (wire_meaning false ends.now.right.now ends.now.right_reading.now) limit before }
    ensures sound { IsSound
        (wire_meaning false ends.now.left.now ends.now.left_reading.now)
        (wire_meaning false ends.now.right.now ends.now.right_reading.now) limit result }
    ensures lower { reach limit result ≤ reach limit before }
    ensures settled { All (λ p. IsSettled
        (wire_meaning false ends.now.left.now ends.now.left_reading.now)
        (wire_meaning false ends.now.right.now ends.now.right_reading.now) limit result p.0)
        reading.now.cats }
{
    let mut found = before;
    for i in 0..reading.named_categories() {
        let (category, _) = reading.named_category(i);
        found = nearer(ends, limit, found, category);
    }
    found
}

// The lesser of what was found and a category, where that has two meanings too.
fn nearer(ends: &Ends<'_>, limit: u16, found: Option<Difference>, wire: u16) -> Option<Difference>
    requires left { IsDefinition ends.now.left.now }
    requires right { IsDefinition ends.now.right.now }
    requires found { IsSound
        (wire_meaning false ends.now.left.now ends.now.left_reading.now)
        (wire_meaning false ends.now.right.now ends.now.right_reading.now) limit found }
    ensures sound { IsSound
        (wire_meaning false ends.now.left.now ends.now.left_reading.now)
        (wire_meaning false ends.now.right.now ends.now.right_reading.now) limit result }
    ensures lower { reach limit result ≤ reach limit found }
    ensures settled { IsSettled
        (wire_meaning false ends.now.left.now ends.now.left_reading.now)
        (wire_meaning false ends.now.right.now ends.now.right_reading.now) limit result wire }
{
    if wire >= end_of(limit, found) {
        return found;
    }
    match category_difference(ends, wire) {
        Some(nearest) => Some(nearest),
        None => found,
    }
}

// Where a lesser one would have to lie below.
fn end_of(limit: u16, found: Option<Difference>) -> u16
    ensures { result ≡ reach limit found }
{
    match found {
        Some(found) => found.wire,
        None => limit,
    }
}
