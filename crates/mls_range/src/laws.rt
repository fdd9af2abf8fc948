//! What the definitions say of each other, for all labels and all texts.

ghost use Rattle.std.specs.Prelude.{◌≡◌, ◌↔◌, ◌==◌, List, ◌∷◌, ◌++◌, ℕ, ◌<◌, ◌≤◌, All, length, count_by, Some, IsTrue};
ghost use Rattle.mls_label.specs.Cats.{IsCats};
ghost use Rattle.mls_label.specs.Runs.{runs_of};
ghost use Rattle.mls_label.specs.declared.label.Label.{Label};
ghost use Rattle.mls_label.specs.Label.{Dominates};
ghost use Rattle.mls_range.specs.declared.fault.TextFault.{TextFault};
ghost use Rattle.mls_range.specs.LabelText.{colon, hyphen, is_label_octet, IsLabelText, label_text};
ghost use Rattle.mls_range.specs.TextFault.{IsRoomyLabel, StopsLabel};
ghost use Rattle.mls_range.specs.Range.{LabelRange};
ghost use Rattle.mls_range.specs.RangeText.{IsRangeText, range_text, IsRoomyRange, StopsRange};
ghost use Rattle.mls_range.specs.Computed.{label_of_text, range_of_text, dominates, lone_range};

use mls_label::MOST_RUNS;

/// A label's written form is a text of that label.
pub fn written_label_reads_back()
    ensures { (label : Label) → label.level < 256 → IsCats label.cats
        → IsLabelText (label_text label) label }
{}

/// A text is the text of one label at most.
pub fn a_text_has_one_label()
    ensures { (text : List ℕ) (a b : Label) → IsLabelText text a → IsLabelText text b → a ≡ b }
{}

/// A text that is refused as a label is none, or somewhere in it are too many runs.
pub fn a_refused_text_is_no_label()
    ensures { (text : List ℕ) (fault : TextFault) (label : Label) → StopsLabel text fault
        → IsLabelText text label → IsRoomyLabel text → ⊥ }
{}

/// A range's written form is a text of that range.
pub fn written_range_reads_back()
    ensures { (range : LabelRange) → range.low.level < 256 → range.high.level < 256
        → IsCats range.low.cats → IsCats range.high.cats
        → IsRangeText (range_text range) range }
{}

/// A text is the text of one range at most.
pub fn a_text_has_one_range()
    ensures { (text : List ℕ) (a b : LabelRange) → IsRangeText text a → IsRangeText text b → a ≡ b }
{}

/// A text that is refused as a range is none, or its ends aren't in order, or somewhere in it are too many runs.
pub fn a_refused_text_is_no_range()
    ensures { (text : List ℕ) (fault : TextFault) (range : LabelRange) → StopsRange text fault
        → IsRangeText text range → Dominates range.high range.low → IsRoomyRange text → ⊥ }
{}

/// Of a label's text, nowhere with too many runs, that label is what is computed.
pub fn label_texts_compute()
    ensures { (text : List ℕ) (label : Label) → IsLabelText text label → IsRoomyLabel text
        → label_of_text text ≡ Some label }
{}

/// What is computed of a text is its label, and nowhere in it are too many runs.
pub fn computed_labels_are_of_the_text()
    ensures { (text : List ℕ) (label : Label) → label_of_text text ≡ Some label
        → IsLabelText text label × IsRoomyLabel text }
{}

/// What is computed of a text as a label or a range has no more runs than a set of categories may have.
pub fn computed_labels_have_few_runs()
    ensures label { (text : List ℕ) (label : Label) → label_of_text text ≡ Some label
        → length (runs_of label.cats) ≤ MOST_RUNS }
    ensures range { (text : List ℕ) (range : LabelRange) → range_of_text text ≡ Some range
        → (length (runs_of range.low.cats) ≤ MOST_RUNS)
        × (length (runs_of range.high.cats) ≤ MOST_RUNS) }
{}

/// Of a label's written form, that label is what is computed.
pub fn written_label_computes()
    ensures { (label : Label) → label.level < 256 → IsCats label.cats
        → length (runs_of label.cats) ≤ MOST_RUNS → label_of_text (label_text label) ≡ Some label }
{}

/// Of a range's text, nowhere with too many runs and its ends in order, that range is what is computed.
pub fn range_texts_compute()
    ensures { (text : List ℕ) (range : LabelRange) → IsRangeText text range → IsRoomyRange text
        → Dominates range.high range.low → range_of_text text ≡ Some range }
{}

/// What is computed of a text is its range, nowhere in it are too many runs, and its ends are in order.
pub fn computed_ranges_are_of_the_text()
    ensures { (text : List ℕ) (range : LabelRange) → range_of_text text ≡ Some range
        → IsRangeText text range × IsRoomyRange text × Dominates range.high range.low }
{}

/// Of a range's written form, that range is what is computed.
pub fn written_range_computes()
    ensures { (range : LabelRange) → range.low.level < 256 → range.high.level < 256
        → IsCats range.low.cats → IsCats range.high.cats
        → length (runs_of range.low.cats) ≤ MOST_RUNS → length (runs_of range.high.cats) ≤ MOST_RUNS
        → Dominates range.high range.low → range_of_text (range_text range) ≡ Some range }
{}

/// The test of dominance passes exactly where one label dominates the other.
pub fn dominance_computes()
    ensures { (a b : Label) → IsTrue (dominates a b) ↔ Dominates a b }
{}

/// A text that is a label's is the range of that label alone.
pub fn labels_are_ranges()
    ensures { (text : List ℕ) (label : Label) → label_of_text text ≡ Some label
        → range_of_text text ≡ Some (lone_range label) }
{}

/// Texts of two labels with a dash between are the range of these, where the second dominates the first.
pub fn two_labels_make_a_range()
    ensures { (low_text high_text : List ℕ) (low high : Label) → label_of_text low_text ≡ Some low
        → label_of_text high_text ≡ Some high → Dominates high low
        → range_of_text (low_text ++ hyphen ∷ high_text) ≡ Some
        (record { low = low; high = high }) }
{}

/// Beside digits, a label's text has only `s`, `c`, `:`, `,` and `.`.
pub fn label_texts_have_few_octets()
    ensures { (text : List ℕ) (label : Label) → IsLabelText text label
        → All (λ c. IsTrue (is_label_octet c)) text }
{}

/// A label's text has one colon at most.
pub fn label_texts_have_one_colon()
    ensures { (text : List ℕ) (label : Label) → IsLabelText text label
        → count_by (λ c. c == colon) text ≤ 1 }
{}
