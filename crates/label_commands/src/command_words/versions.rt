//! Numbers that words name: a flow, and versions of the tables.

ghost use Rattle.std.specs.Prelude.{◌≡◌, ◌<◌, ◌==◌, [], ◌∷◌, length, is_some, option_map, IfOk, IfSome, MatchOption};
ghost use Rattle.std.specs.List.{slice_split};
ghost use Rattle.label_commands.specs.command_words.Numbers.{number_named, versions_named};

use mls_label::{OutOfMemory, read_decimal};
use std::alloc::Global;
use std::marker::Model;

/// The versions that a word lists, as that word. Contracts see the list.
#[derive(Debug, Drop)]
pub struct NamedVersions<'a> {
    word: &'a str,
}

impl<'a> Model for NamedVersions<'a> {
    ghost use Rattle.std.specs.Prelude.{List, ℕ, [], unwrap_or};
    ghost use Rattle.label_commands.specs.command_words.Numbers.{versions_named};

    ghost Value = { List ℕ };

    ghost view = { λ v. unwrap_or (versions_named v.word.now) [] };
}

impl<'a> NamedVersions<'a> {
    ghost use Rattle.std.specs.Prelude.{◌≡◌, IfOk};
    ghost use Rattle.label_commands.specs.command_words.Numbers.{versions_named};

    /// Those that a word lists.
    pub fn named(word: &'a str) -> Option<NamedVersions<'a>>
        ensures { result ≡ versions_named word.now }
    {
        if !lists_numbers(word) {
            return None;
        }
        Some(NamedVersions { word })
    }

    /// The versions in a vector.
    pub fn read(&self, alloc: Global) -> Result<Vec<u32>, OutOfMemory>
        ensures { IfOk result (λ read. read.items ≡ self.now) }
    {
        match read_list(alloc, self.word)? {
            Some(versions) => Ok(versions),
            None => Ok(Vec::new(alloc)),
        }
    }
}

/// The number below 2^32 that a word names.
pub fn read_number(word: &str) -> Option<u32>
    ensures { result ≡ number_named word.now }
{
    let number = read_decimal(word.as_bytes())?;
    if number > u64::from(u32::MAX) {
        return None;
    }
    Some(number as u32)
}

/// Whether a word lists numbers below 2^32 with commas between.
fn lists_numbers(word: &str) -> bool
    ensures { result ≡ is_some (versions_named word.now) }
{
    let mut rest = word;
    while let Some((number, behind)) = split_at_comma(rest) {
        if read_number(number).is_none() {
            return false;
        }
        rest = behind;
    }
    read_number(rest).is_some()
}

/// The numbers that a word lists.
fn read_list(alloc: Global, word: &str) -> Result<Option<Vec<u32>>, OutOfMemory>
    ensures { IfOk result (λ read. option_map (λ v. v.items) read ≡ versions_named word.now) }
{
    let mut numbers = Vec::new(alloc);
    let mut rest = word;
    while let Some((part, behind)) = split_at_comma(rest) {
        let Some(number) = read_number(part) else {
            return Ok(None);
        };
        numbers.push(number)?;
        rest = behind;
    }
    let Some(number) = read_number(rest) else {
        return Ok(None);
    };
    numbers.push(number)?;
    Ok(Some(numbers))
}

/// What stands in front of the first comma and what stands behind it, where there is one.
fn split_at_comma(text: &str) -> Option<(&str, &str)>
    ensures parts { MatchOption result (slice_split (λ c. c == 44) text.now ≡ text.now ∷ [])
        (λ parts. slice_split (λ c. c == 44) text.now ≡ parts.0.now ∷ slice_split
        (λ c. c == 44) parts.1.now) }
    ensures shorter { IfSome result (λ parts. length parts.1.now < length text.now) }
{
    text.split_once(',')
}
