//! Dominance of what labels mean, each under the reading of its own node.

ghost use Rattle.std.specs.Prelude.{◌↔◌, ℕ, ◌≤◌, ◌<◌, IsTrue, MatchBool};
ghost use Rattle.mls_label.specs.Cats.{has, IsCats};
ghost use Rattle.label_commands.specs.node_readings.Reading.{meaning_in};
ghost use Rattle.label_commands.specs.node_readings.Meaning.{meaning_of, MeansDominates};
ghost use Rattle.label_commands.specs.node_readings.inside.Meant.{IsMeant, AreMeant};

use crate::node_readings::reading::Reading;
use mls_label::{CatSet, Label};

/// Whether what a label means at one node dominates what another one means at the other: its level means at least as much, and each category
/// of the other means what one of its categories means. It takes no memory, and some steps for each category of the other label.
pub fn meaning_dominates(
    reading: &Reading,
    label: &Label,
    other_reading: &Reading,
    other: &Label,
) -> bool
    ensures { IsTrue result ↔ MeansDominates
        (meaning_of reading.now label.now) (meaning_of other_reading.now other.now) }
{
    other_reading.level(other.level) <= reading.level(label.level)
        && are_meant(&label.cats, reading, &other.cats, other_reading)
}

// Whether each category of the other set means what one of these means.
fn are_meant(cats: &CatSet, reading: &Reading, other: &CatSet, other_reading: &Reading) -> bool
    ensures { IsTrue result ↔ AreMeant cats.now reading.now.cats
        (λ c. IsTrue (has other.now c)) other_reading.now.cats }
{
    let _runs = cats.runs();
    for i in 0..other.runs() {
        let (first, last) = other.run(i);
        if !is_run_meant(cats, reading, first, last, other_reading) {
            return false;
        }
    }
    true
}

// Whether each category of a run means what one of these means.
fn is_run_meant(
    cats: &CatSet,
    reading: &Reading,
    first: u16,
    last: u16,
    other_reading: &Reading,
) -> bool
    requires cats { IsCats cats.now }
    requires last { last < 65535 }
    ensures { IsTrue result ↔ AreMeant cats.now reading.now.cats
        (λ c. (first ≤ c) × (c ≤ last)) other_reading.now.cats }
{
    for category in first..last + 1 {
        if !is_meant(cats, reading, other_reading.category(category)) {
            return false;
        }
    }
    true
}

// Whether one of the categories means this.
fn is_meant(cats: &CatSet, reading: &Reading, meaning: u32) -> bool
    requires { IsCats cats.now }
    ensures { IsTrue result ↔ IsMeant cats.now reading.now.cats meaning }
{
    match reading.find_category(meaning) {
        Some(category) => cats.contains(category),
        None => false,
    }
}
