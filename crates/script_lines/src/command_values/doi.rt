//! DOIs.

ghost use Rattle.std.specs.Prelude.{◌≡◌, ◌<◌, IsTrue};
ghost use Rattle.script_lines.specs.command_values.Doi.{doi_of_text, is_doi};

use crate::command_values::number::read_number;
use std::marker::Model;

/// The number of a domain of interpretation, from 1 to 4294967295.
#[derive(Clone, Copy, Debug, PartialEq, Eq)]
pub struct Doi {
    number: u32,
}

impl Model for Doi {
    ghost use Rattle.std.specs.Prelude.{ℕ, IsTrue};
    ghost use Rattle.script_lines.specs.command_values.Doi.{is_doi};

    ghost Value = { ℕ };

    ghost view = { λ d. d.number };

    ghost invariant = { λ d. IsTrue (is_doi d.number) };

    ghost inverse = { λ n. record { number = n } };
}

impl Doi {
    /// The DOI of this number.
    pub fn of(number: u32) -> Doi
        requires { 0 < number }
        ensures { result ≡ number }
    {
        Doi { number }
    }

    /// Its number.
    pub fn get(&self) -> u32
        ensures number { result ≡ self.now }
        ensures doi { IsTrue (is_doi self.now) }
        ensures positive { 0 < self.now }
    {
        self.number
    }
}

/// Reads a whole text as a DOI: a decimal number without leading zeros.
pub fn read_doi(text: &[u8]) -> Option<Doi>
    ensures { result ≡ doi_of_text text.now }
{
    let number = read_number(text, u32::MAX)?;
    if number == 0 {
        return None;
    }
    Some(Doi { number })
}
