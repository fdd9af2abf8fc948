//! A number of workers that a word names.

use mls_label::read_decimal;
use std::marker::Model;

/// How many workers judge packets beside each other, 1 to 16. Contracts see the number.
#[derive(Debug, Drop)]
pub struct Workers {
    number: usize,
}

impl Model for Workers {
    ghost use Rattle.std.specs.Prelude.{ℕ, ◌<◌, ◌≤◌};

    ghost Value = { ℕ };

    ghost view = { λ w. w.number };

    ghost invariant = { λ w. (0 < w.number) × (w.number ≤ 16) };
}

impl Workers {
    ghost use Rattle.std.specs.Prelude.{◌≡◌, ◌<◌, ◌≤◌, ℕ, IfSome, IfNone};
    ghost use Rattle.label_commands.specs.command_words.Words.{NamesWorkers};

    /// So many as there are where the words name no number.
    pub fn usual() -> Workers
        ensures { result ≡ 4 }
    {
        Workers { number: 4 }
    }

    /// So many as a word names: a number from 1 to 16 without leading zeros.
    pub fn named(word: &str) -> Option<Workers>
        ensures some { IfSome result (λ workers. NamesWorkers word.now workers) }
        ensures none { IfNone result ((workers : ℕ) → NamesWorkers word.now workers → ⊥) }
    {
        let number = read_decimal(word.as_bytes())?;
        if number == 0 || number > 16 {
            return None;
        }
        Some(Workers {
            number: number as usize,
        })
    }

    /// The number.
    pub fn number(&self) -> usize
        ensures number { result ≡ self.now }
        ensures some { (0 < result) × (result ≤ 16) }
    {
        self.number
    }
}
