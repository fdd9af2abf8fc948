//! The static entries that count for an interface, one place after another.

ghost use Rattle.std.specs.Prelude.{◌≡◌, ◌≢◌, ℕ, ◌<◌, [], Contains, Some, IfSome, MatchBool, MatchOption, option_copied};
ghost use Rattle.domain_map.specs.Domains.{same_domain};
ghost use Rattle.domain_map.specs.declared.static_map.StaticEntry.{StaticEntry};
ghost use Rattle.domain_map.specs.Statics.{entries_for};
ghost use Rattle.label_commands.specs.node_readings.Meaning.{meaning_of};
ghost use Rattle.static_law.specs.Covered.{MeansNoLess};
ghost use Rattle.static_law.specs.Uncovered.{IsFirstLow};

use domain_map::{Name, StaticMap};
use label_commands::{Reading, meaning_dominates};
use mls_label::Label;
use std::marker::Model;

/// The entries of an interface, `None` being the default one. Contracts see them, each with its place among all of the node.
#[derive(Drop)]
pub struct Entries<'a> {
    statics: &'a StaticMap,
    interface: Option<&'a Name>,
}

impl<'a> Model for Entries<'a> {
    ghost use Rattle.std.specs.Prelude.{List, ℕ, option_copied};
    ghost use Rattle.domain_map.specs.declared.static_map.StaticEntry.{StaticEntry};
    ghost use Rattle.domain_map.specs.Statics.{entries_of};

    ghost Value = { List (ℕ × StaticEntry) };

    ghost view = { λ e. entries_of e.statics.now (option_copied e.interface) };
}

impl<'a> Entries<'a> {
    /// Those that count for what comes in at an interface.
    pub fn counting(statics: &'a StaticMap, interface: &'a Name) -> Entries<'a>
        ensures { result ≡ entries_for statics.now interface.now }
    {
        Entries {
            statics,
            interface: statics.counting(interface),
        }
    }

    /// Whether there are none.
    pub fn is_empty(&self) -> bool
        ensures { MatchBool result (self.now ≡ []) (self.now ≢ []) }
    {
        for place in 0..self.statics.count() {
            if self.high_at(place).is_some() {
                return false;
            }
        }
        true
    }

    /// The place of the first one whose high label doesn't mean as much as a label, by the readings of both nodes.
    pub fn first_low(
        &self,
        reading: &Reading,
        least: &Label,
        least_reading: &Reading,
    ) -> Option<usize>
        ensures { MatchOption result
            ((place : ℕ) (entry : StaticEntry) → Contains self.now (place, entry)
            → MeansNoLess reading.now (meaning_of least_reading.now least.now) entry)
            (IsFirstLow self.now reading.now (meaning_of least_reading.now least.now)) }
    {
        for place in 0..self.statics.count() {
            if self.is_low(place, reading, least, least_reading) {
                return Some(place);
            }
        }
        None
    }

    /// Whether one stands at this place whose high label doesn't mean as much as a label.
    fn is_low(
        &self,
        place: usize,
        reading: &Reading,
        least: &Label,
        least_reading: &Reading,
    ) -> bool
        ensures { MatchBool result
            ((entry : StaticEntry) × Contains self.now (place, entry)
            × (MeansNoLess reading.now (meaning_of least_reading.now least.now) entry → ⊥))
            ((entry : StaticEntry) → Contains self.now (place, entry)
            → MeansNoLess reading.now (meaning_of least_reading.now least.now) entry) }
    {
        match self.high_at(place) {
            Some(high) => !meaning_dominates(reading, high, least_reading, least),
            None => false,
        }
    }

    /// The high label of the one at this place.
    fn high_at(&self, place: usize) -> Option<&'a Label>
        ensures there { MatchOption result
            ((entry : StaticEntry) → Contains self.now (place, entry) → ⊥)
            (λ high. (entry : StaticEntry) × Contains self.now (place, entry)
            × (entry.high ≡ high.now)) }
        ensures one { IfSome result (λ high. (entry : StaticEntry)
            → Contains self.now (place, entry) → entry.high ≡ high.now) }
    {
        if place >= self.statics.count() {
            return None;
        }
        let (own, _, _, high) = self.statics.entry(place);
        if !are_one(own, self.interface) {
            return None;
        }
        Some(high)
    }
}

/// Whether two interfaces are one.
fn are_one(a: Option<&Name>, b: Option<&Name>) -> bool
    ensures { result ≡ same_domain (option_copied b.entry) (option_copied a.entry) }
{
    match (a, b) {
        (Some(a), Some(b)) => b == a,
        (None, None) => true,
        _ => false,
    }
}
