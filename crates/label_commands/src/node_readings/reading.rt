//! A reading: what each level and each category of a node means.

ghost use Rattle.std.specs.Prelude.{◌≡◌, ℕ, ◌<◌, [], length, slice_get, true, None, Some, IfOk, IfErr, OnOk, MatchOption};
ghost use Rattle.std.specs.List.{All};
ghost use Rattle.doi_table.specs.Pairs.{number_by, flipped, seconds, are_distinct};
ghost use Rattle.label_commands.specs.node_readings.Reading.{meaning_in, names_once, is_distinct, reading_fault, IsReading, IsReadingFault};

use crate::node_readings::fault::ReadingFault;
use crate::node_readings::namings::{
    Naming, Namings, are_closed, is_increasing, meaning, namings_of,
};
use indexmap::IndexMap;
use mls_label::OutOfMemory;
use std::alloc::Global;
use std::marker::Model;

/// What each of a node's levels and categories means, where a number that isn't named means itself. The meanings of levels
/// strictly increase, and those of categories differ: its type keeps that. A category is found by its meaning too.
#[derive(Drop)]
pub struct Reading {
    levels: IndexMap<u32, u32>,
    cats: IndexMap<u32, u32>,
    by_meaning: IndexMap<u32, u32>,
}

impl Model for Reading {
    ghost use Rattle.label_commands.specs.node_readings.Reading.{NamedMeanings};
    ghost use Rattle.label_commands.specs.node_readings.inside.Kept.{IsKept};

    ghost Value = { NamedMeanings };

    ghost view = { λ r. record { levels = r.levels.entries; cats = r.cats.entries } };

    ghost invariant = { λ r. IsKept r.levels.entries r.cats.entries r.by_meaning.entries };
}

impl Reading {
    /// The reading that names these meanings, each pair with the local number first.
    pub fn of(
        alloc: Global,
        levels: &[(u8, u32)],
        categories: &[(u16, u32)],
    ) -> Result<Reading, ReadingFault>
        requires { All (λ p. p.0 < 65535) categories.now }
        ensures ok { IfOk result
            (λ reading. reading ≡ record { levels = levels.now; cats = categories.now }) }
        ensures allowed { OnOk result (reading_fault levels.now categories.now ≡ None) }
        ensures err { IfErr result (IsReadingFault levels.now categories.now) }
    {
        let wide = widened_levels(alloc, levels)?;
        let Namings { first, once } = namings_of(alloc, &wide)?;
        if !is_increasing(&first) {
            return Err(ReadingFault::NotIncreasing);
        }
        let named = category_namings(alloc, categories)?;
        if !once {
            return Err(ReadingFault::NotDistinct);
        }
        if !named.distinct {
            return Err(ReadingFault::NotDistinct);
        }
        Ok(Reading {
            levels: first,
            cats: named.first,
            by_meaning: named.by_meaning,
        })
    }

    /// The reading that names nothing: each number means itself.
    pub fn identity(alloc: Global) -> Result<Reading, OutOfMemory>
        ensures { IfOk result (λ reading. reading ≡ record { levels = []; cats = [] }) }
    {
        Ok(Reading {
            levels: IndexMap::new(alloc),
            cats: IndexMap::new(alloc),
            by_meaning: IndexMap::new(alloc),
        })
    }

    /// What a level means.
    pub fn level(&self, n: u8) -> u32
        ensures value { result ≡ meaning_in self.now.levels n }
        ensures reading { IsReading self.now }
    {
        meaning(&self.levels, u32::from(n))
    }

    /// What a category means.
    pub fn category(&self, c: u16) -> u32
        requires { c < 65535 }
        ensures value { result ≡ meaning_in self.now.cats c }
        ensures reading { IsReading self.now }
    {
        meaning(&self.cats, u32::from(c))
    }

    /// The category that has a meaning, or `None` where no category has it.
    pub fn find_category(&self, meaning: u32) -> Option<u16>
        ensures category { MatchOption result
            ((c : ℕ) → c < 65535 → meaning_in self.now.cats c ≡ meaning → ⊥)
            (λ c. (c < 65535) × (meaning_in self.now.cats c ≡ meaning)) }
        ensures reading { IsReading self.now }
    {
        match self.by_meaning.get(&meaning) {
            Some(category) => Some(*category as u16),
            None => self.unnamed_category(meaning),
        }
    }

    // The category with this number, unless it is named.
    fn unnamed_category(&self, number: u32) -> Option<u16>
        ensures { MatchOption result
            (number < 65535 → number_by self.now.cats number ≡ None → ⊥)
            (λ c. (c ≡ number) × (c < 65535) × (number_by self.now.cats number ≡ None)) }
    {
        if number >= 65535 {
            return None;
        }
        if self.cats.contains_key(&number) {
            return None;
        }
        Some(number as u16)
    }

    /// How many categories are named.
    pub fn named_categories(&self) -> usize
        ensures { result ≡ length self.now.cats }
    {
        self.cats.len()
    }

    /// A named category with its meaning, counted from 0 in the order of naming.
    pub fn named_category(&self, i: usize) -> (u16, u32)
        requires { i < length self.now.cats }
        ensures named { slice_get self.now.cats i ≡ Some result }
        ensures category { result.0 < 65535 }
    {
        match self.cats.get_index(i) {
            Some((category, meaning)) => (*category as u16, *meaning),
            None => unreachable!(),
        }
    }
}

// The namings of categories, by the category and by the meaning, and whether they are distinct.
#[derive(Drop)]
struct CategoryNamings {
    first: IndexMap<u32, u32>,
    by_meaning: IndexMap<u32, u32>,
    distinct: bool,
}

fn category_namings(alloc: Global, cats: &[(u16, u32)]) -> Result<CategoryNamings, OutOfMemory>
    ensures distinct { IfOk result (λ n. n.distinct ≡ is_distinct cats.now) }
    ensures whole { IfOk result (λ n. n.distinct ≡ true → n.first.entries ≡ cats.now) }
    ensures turned { IfOk result
        (λ n. n.distinct ≡ true → n.by_meaning.entries ≡ flipped cats.now) }
{
    let pairs = widened_categories(alloc, cats)?;
    let Namings { first, once } = namings_of(alloc, &pairs)?;
    let Namings {
        first: by_meaning,
        once: differ,
    } = meanings_of(alloc, cats)?;
    let distinct = are_distinct(&pairs, &first, once, differ);
    Ok(CategoryNamings {
        first,
        by_meaning,
        distinct,
    })
}

// Whether the categories of pairs are distinct, where the first namings of them and what was learned of numbers and of meanings are given.
fn are_distinct(pairs: &[Naming], first: &IndexMap<u32, u32>, once: bool, differ: bool) -> bool
    requires once { once ≡ names_once pairs.now }
    requires differ { differ ≡ are_distinct (seconds pairs.now) }
    requires first { once ≡ true → first.now.entries ≡ pairs.now }
    ensures { result ≡ is_distinct pairs.now }
{
    once && differ && are_closed(pairs, first)
}

// The namings of categories, each with the meaning in front.
fn meanings_of(alloc: Global, cats: &[(u16, u32)]) -> Result<Namings, OutOfMemory>
    ensures once { IfOk result (λ n. n.once ≡ are_distinct (seconds cats.now)) }
    ensures turned { IfOk result (λ n. n.once ≡ true → n.first.entries ≡ flipped cats.now) }
{
    let turned = turned_categories(alloc, cats)?;
    let namings = namings_of(alloc, &turned)?;
    Ok(namings)
}

fn widened_levels(alloc: Global, levels: &[(u8, u32)]) -> Result<Vec<Naming>, OutOfMemory>
    ensures { IfOk result (λ wide. wide.items ≡ levels.now) }
{
    let mut wide = Vec::with_capacity(alloc, levels.len())?;
    for (level, meaning) in levels {
        wide.push((u32::from(*level), *meaning))?;
    }
    Ok(wide)
}

fn widened_categories(alloc: Global, cats: &[(u16, u32)]) -> Result<Vec<Naming>, OutOfMemory>
    ensures { IfOk result (λ wide. wide.items ≡ cats.now) }
{
    let mut wide = Vec::with_capacity(alloc, cats.len())?;
    for (category, meaning) in cats {
        wide.push((u32::from(*category), *meaning))?;
    }
    Ok(wide)
}

fn turned_categories(alloc: Global, cats: &[(u16, u32)]) -> Result<Vec<Naming>, OutOfMemory>
    ensures { IfOk result (λ turned. turned.items ≡ flipped cats.now) }
{
    let mut turned = Vec::with_capacity(alloc, cats.len())?;
    for (category, meaning) in cats {
        turned.push((*meaning, u32::from(*category)))?;
    }
    Ok(turned)
}
