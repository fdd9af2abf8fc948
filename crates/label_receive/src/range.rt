//! The range of labels that an interface takes.

ghost use Rattle.std.specs.Prelude.{◌≡◌};
ghost use Rattle.mls_range.specs.Computed.{dominates};
ghost use Rattle.label_receive.specs.Arrival.{incoming_with};
ghost use Rattle.label_receive.specs.Range.{in_range, is_outside};

use crate::incoming::Arrival;
use domain_map::Name;
use mls_label::Label;
use mls_range::Range;
use node_tables::Tables;

/// Whether the interface has a range, its own or else the default one, that doesn't hold both labels.
#[tactic(auto, unfolding(crate::specs::Range::is_outside))]
#[inline(always)]
pub fn is_outside(tables: &Tables, interface: &Name, low: &Label, high: &Label) -> bool
    ensures { result ≡ is_outside tables.now.ranges interface.now low.now high.now }
{
    match tables.find_range(interface) {
        Some(range) => !(in_range(range, low) && in_range(range, high)),
        None => false,
    }
}

/// The same of one label, which is tested once.
#[tactic(auto, unfolding(crate::specs::Range::is_outside))]
#[inline(always)]
pub fn label_is_outside(tables: &Tables, interface: &Name, label: &Label) -> bool
    ensures { result ≡ is_outside tables.now.ranges interface.now label.now label.now }
{
    match tables.find_range(interface) {
        Some(range) => !in_range(range, label),
        None => false,
    }
}

/// The same of the labels of a packet that comes in, by what is told of it and its high one.
// Always inlined: it only chooses between two calls.
#[inline(always)]
pub fn arrival_is_outside(
    tables: &Tables,
    interface: &Name,
    arrival: &Arrival<'_>,
    high: &Label,
) -> bool
    ensures { result ≡ is_outside tables.now.ranges interface.now
        (incoming_with arrival.now high.now).low high.now }
{
    match arrival.low {
        Some(low) => is_outside(tables, interface, low, high),
        None => label_is_outside(tables, interface, high),
    }
}

#[inline(always)]
fn in_range(range: &Range, label: &Label) -> bool
    ensures { result ≡ in_range range.now label.now }
{
    dominates(label, range.low()) && dominates(range.high(), label)
}

/// Whether a label dominates another.
pub(crate) fn dominates(a: &Label, b: &Label) -> bool
    ensures { result ≡ dominates a.now b.now }
{
    a.dominates(b)
}
