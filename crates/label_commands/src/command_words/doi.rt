//! A DOI that a word names.

use script_lines::{Doi, read_doi};
use std::marker::Model;

/// A DOI, which isn't 0. Contracts see its number.
#[derive(Debug, Drop)]
pub struct NamedDoi {
    number: u32,
}

impl Model for NamedDoi {
    ghost use Rattle.std.specs.Prelude.{ℕ, ◌<◌};

    ghost Value = { ℕ };

    ghost view = { λ d. d.number };

    ghost invariant = { λ d. 0 < d.number };
}

impl NamedDoi {
    ghost use Rattle.std.specs.Prelude.{◌≡◌};
    ghost use Rattle.script_lines.specs.command_values.Doi.{doi_of_text};

    /// The DOI that a word names: a number from 1 to 4294967295 without leading zeros.
    pub fn named(word: &str) -> Option<NamedDoi>
        ensures { result ≡ doi_of_text word.now }
    {
        let doi = read_doi(word.as_bytes())?;
        Some(NamedDoi { number: doi.get() })
    }

    /// The same as the value of a command's word.
    pub fn doi(&self) -> Doi
        ensures { result ≡ self.now }
    {
        Doi::of(self.number)
    }
}
