//! What the definitions are worth, whatever the code does.

ghost use Rattle.std.specs.Prelude.{◌≡◌, ◌↔◌, ℕ, ◌<◌, List, IsTrue};
ghost use Rattle.std.specs.List.{All};
ghost use Rattle.std.specs.FinSet as set;
ghost use Rattle.mls_label.specs.declared.label.Label.{Label};
ghost use Rattle.mls_label.specs.Cats.{has, IsCats};
ghost use Rattle.mls_label.specs.Label.{Dominates};
ghost use Rattle.label_commands.specs.node_readings.Reading.{NamedMeanings, meaning_in, names_once, is_increasing, is_distinct, IsReading};
ghost use Rattle.label_commands.specs.node_readings.Meaning.{Meaning, meaning_of, MeansDominates};

/// Categories are distinct exactly where each is named once and no two of the 65,535 mean the same.
pub fn distinct_categories_differ()
    ensures { (cats : List (ℕ × ℕ)) → All (λ (p : ℕ × ℕ). p.0 < 65535) cats
        → (IsTrue (is_distinct cats) ↔ (IsTrue (names_once cats)
        × ((a b : ℕ) → a < 65535 → b < 65535 → meaning_in cats a ≡ meaning_in cats b → a ≡ b))) }
{}

/// Levels increase exactly where a higher level means more.
pub fn increasing_levels_keep_their_order()
    ensures { (levels : List (ℕ × ℕ)) → (IsTrue (is_increasing levels)
        ↔ ((a b : ℕ) → a < b → b < 256 → meaning_in levels a < meaning_in levels b)) }
{}

/// A label dominates another exactly where its meaning does.
pub fn meaning_follows_dominance()
    ensures { (named : NamedMeanings) (a b : Label) → IsReading named
        → a.level < 256 → IsCats a.cats → b.level < 256 → IsCats b.cats
        → (Dominates a b ↔ MeansDominates (meaning_of named a) (meaning_of named b)) }
{}

/// A meaning dominates itself.
pub fn meanings_dominate_themselves()
    ensures { (a : Meaning) → MeansDominates a a }
{}

/// What dominates a meaning dominates what that one dominates.
pub fn dominance_of_meanings_goes_on()
    ensures { (a b c : Meaning) → MeansDominates a b → MeansDominates b c → MeansDominates a c }
{}

/// A label's meaning has a number exactly where one of the label's categories means it.
pub fn meanings_have_what_categories_mean()
    ensures { (named : NamedMeanings) (label : Label) (n : ℕ)
        → (IsTrue (set.contains (meaning_of named label).cats n)
        ↔ ((c : ℕ) × IsTrue (has label.cats c) × (meaning_in named.cats c ≡ n))) }
{}
