//! Laws over the definitions of options.

ghost use Rattle.std.specs.Prelude.{◌≡◌, ◌<◌, ◌≤◌, ◌^◌, ℕ, List, length, slice_index};
ghost use Rattle.mls_label.specs.octet_grammar.Front.{IsPrefixFree};
ghost use Rattle.mls_label.specs.declared.label.Tag.{Tag};
ghost use Rattle.mls_label.specs.declared.label.Label.{Label};
ghost use Rattle.mls_label.specs.Cats.{IsCats};
ghost use Rattle.cipso_tags.specs.Text.{Fits};
ghost use Rattle.cipso_option.specs.declared.cipso.Cipso.{Cipso};
ghost use Rattle.cipso_option.specs.Cipso.{IsCipso};
ghost use Rattle.cipso_option.specs.Text.{cipso_text};

/// No option begins another, and each octet string is an option with one DOI, tag and label.
pub fn one_value_for_each_option()
    ensures { IsPrefixFree IsCipso }
{}

/// A written option is an option with the DOI, tag and label that it was written from, where that tag can express the label.
pub fn written_option_reads_back()
    ensures { (doi : ℕ) (tag : Tag) (label : Label)
        → 0 < doi
        → doi < 2 ^ 32
        → label.level < 256
        → IsCats label.cats
        → Fits tag label
        → IsCipso (cipso_text doi tag label) (record { doi = doi; tag = tag; label = label }) }
{}

/// An option has from 10 to 40 octets.
pub fn options_have_10_to_40_octets()
    ensures { (bytes : List ℕ) (value : Cipso) → IsCipso bytes value → (10 ≤ length bytes)
        × (length bytes ≤ 40) }
{}

/// An option's second octet is its length.
pub fn second_octet_is_the_length()
    ensures { (bytes : List ℕ) (value : Cipso) → IsCipso bytes value
        → slice_index bytes 1 ≡ length bytes }
{}
