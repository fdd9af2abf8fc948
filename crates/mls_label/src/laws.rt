//! What the definitions are worth, whatever the code does.

ghost use Rattle.std.specs.Prelude.{◌≡◌, ℕ, ◌+◌, ◌<◌, ◌≤◌, Bool, List, length, IsTrue};
ghost use Rattle.std.specs.List.{list_any, range_with_len};
ghost use Rattle.mls_label.specs.declared.label.Label.{Label};
ghost use Rattle.mls_label.specs.Cats.{has, is_within, cats_where, Ascends, IsCats};
ghost use Rattle.mls_label.specs.Runs.{runs_of, numbers_of, AreRunsOf};
ghost use Rattle.mls_label.specs.Label.{Dominates};

/// The categories that pass a test are a set.
pub fn tests_give_sets()
    ensures { (passes : ℕ → Bool) → IsCats (cats_where passes) }
{}

/// The set of a test has just the categories that pass it.
pub fn sets_of_a_test_have_what_passes()
    ensures { (passes : ℕ → Bool) (c : ℕ) → c < 65535 → has (cats_where passes) c ≡ passes c }
{}

/// A set that has just the categories that pass a test is the set of that test.
pub fn sets_are_what_they_have()
    ensures { (cats : List ℕ) (passes : ℕ → Bool) → IsCats cats
        → ((c : ℕ) → c < 65535 → has cats c ≡ passes c) → cats ≡ cats_where passes }
{}

/// Tests that the same categories pass give one set.
pub fn equal_tests_give_equal_sets()
    ensures { (p q : ℕ → Bool) → ((c : ℕ) → c < 65535 → p c ≡ q c) → cats_where p ≡ cats_where q }
{}

/// What a set has is a category: a number below 65535.
pub fn sets_have_categories()
    ensures { (cats : List ℕ) (c : ℕ) → IsCats cats → IsTrue (has cats c) → c < 65535 }
{}

/// Numbers that follow one another ascend.
pub fn ranges_ascend()
    ensures { (low high first count : ℕ) → low ≤ first → first + count ≤ high
        → Ascends low high (range_with_len first count) }
{}

/// The runs of a list have its numbers, in its order.
pub fn runs_have_their_numbers()
    ensures { (cats : List ℕ) → numbers_of (runs_of cats) ≡ cats }
{}

/// The runs of a set have its numbers, and they are maximal.
pub fn sets_have_their_runs()
    ensures { (cats : List ℕ) → IsCats cats → AreRunsOf (runs_of cats) cats }
{}

/// Runs have a number just where one of them has it.
pub fn runs_have_what_each_has()
    ensures { (runs : List (ℕ × ℕ)) (c : ℕ)
        → has (numbers_of runs) c ≡ list_any (λ (r : ℕ × ℕ). is_within r.0 r.1 c) runs }
{}

/// There are no more runs than numbers.
pub fn runs_are_no_more_than_numbers()
    ensures { (cats : List ℕ) → length (runs_of cats) ≤ length cats }
{}

/// Each label dominates itself.
pub fn dominance_is_reflexive()
    ensures { (a : Label) → Dominates a a }
{}

/// What dominates a label dominates all that the label dominates.
pub fn dominance_is_transitive()
    ensures { (a b c : Label) → Dominates a b → Dominates b c → Dominates a c }
{}

/// Labels that dominate each other are one.
pub fn dominance_is_antisymmetric()
    ensures { (a b : Label) → IsCats a.cats → IsCats b.cats → Dominates a b → Dominates b a
        → a ≡ b }
{}
