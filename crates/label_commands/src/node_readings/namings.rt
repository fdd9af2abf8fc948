//! Pairs of a number and its meaning, looked up by the number.

ghost use Rattle.std.specs.Prelude.{◌≡◌, ◌↔◌, ℕ, ◌+◌, ◌<◌, ◌||◌, not, nat_le, [], ◌∷◌, ◌++◌, is_some, IsTrue, IfOk, if◌then◌else◌};
ghost use Rattle.std.specs.List.{list_all};
ghost use Rattle.doi_table.specs.Pairs.{number_by};
ghost use Rattle.label_commands.specs.node_readings.Reading.{meaning_in};
ghost use Rattle.label_commands.specs.node_readings.inside.Namings.{AreNamings};

use indexmap::IndexMap;
use mls_label::OutOfMemory;
use std::alloc::Global;

/// A number and what it means.
pub type Naming = (u32, u32);

/// The first naming of each number, in order, and whether it is the only one.
#[derive(Drop)]
pub struct Namings {
    pub first: IndexMap<u32, u32>,
    pub once: bool,
}

/// The namings that count.
pub fn namings_of(alloc: Global, pairs: &[Naming]) -> Result<Namings, OutOfMemory>
    ensures { IfOk result (λ n. AreNamings pairs.now n.first.entries n.once) }
{
    let mut first = IndexMap::new(alloc);
    let mut once = true;
    for (number, meaning) in pairs {
        let new = name_first(&mut first, *number, *meaning)?;
        once = once && new;
    }
    Ok(Namings { first, once })
}

// Names a number that isn't named yet, and tells whether it wasn't.
fn name_first(
    first: &mut IndexMap<u32, u32>,
    number: u32,
    meaning: u32,
) -> Result<bool, OutOfMemory>
    ensures new { IfOk result (λ new. new ≡ not (is_some (number_by first.old.entries number))) }
    ensures entries { IfOk result (λ new. first.new.entries
        ≡ (if new then first.old.entries ++ (number, meaning) ∷ [] else first.old.entries)) }
{
    if first.contains_key(&number) {
        return Ok(false);
    }
    first.insert(number, meaning)?;
    Ok(true)
}

/// What a number means: what is named, else itself.
pub fn meaning(first: &IndexMap<u32, u32>, n: u32) -> u32
    ensures { result ≡ meaning_in first.now.entries n }
{
    match first.get(&n) {
        Some(meaning) => *meaning,
        None => n,
    }
}

/// Whether the meanings of the numbers from 0 to 255 strictly increase.
pub fn is_increasing(first: &IndexMap<u32, u32>) -> bool
    ensures { IsTrue result ↔
        ((n : ℕ) → n < 255
        → meaning_in first.now.entries n < meaning_in first.now.entries (n + 1)) }
{
    for n in 0..255u32 {
        if meaning(first, n + 1) <= meaning(first, n) {
            return false;
        }
    }
    true
}

/// Whether each meaning below 65,535 is a number that is named itself.
pub fn are_closed(pairs: &[Naming], first: &IndexMap<u32, u32>) -> bool
    ensures { result ≡ list_all
        (λ p. nat_le 65535 p.1 || is_some (number_by first.now.entries p.1)) pairs.now }
{
    pairs
        .iter()
        .all(|pair| 65535 <= pair.1 || first.contains_key(&pair.1))
}
