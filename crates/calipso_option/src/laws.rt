//! Laws over the definitions of options.

ghost use Rattle.std.specs.Prelude.{◌≡◌, ◌<◌, ◌≤◌, ◌+◌, ◌^◌, ℕ, List, length, slice_index};
ghost use Rattle.mls_label.specs.octet_grammar.Front.{IsPrefixFree};
ghost use Rattle.mls_label.specs.declared.label.Label.{Label};
ghost use Rattle.mls_label.specs.Cats.{IsCats};
ghost use Rattle.calipso_option.specs.declared.calipso.Calipso.{Calipso};
ghost use Rattle.calipso_option.specs.Calipso.{IsCalipso, IsCalipsoShape};
ghost use Rattle.calipso_option.specs.Text.{IsExpressible, calipso_text};

/// No option begins another, and each octet string is an option with one DOI and label.
pub fn one_value_for_each_option()
    ensures { IsPrefixFree IsCalipso }
{}

/// The same without regard to the checksum, of which each option has one.
pub fn one_value_for_each_shape()
    ensures { IsPrefixFree IsCalipsoShape }
{}

/// A written option is an option with the DOI and label that it was written from, where an option can express the label.
pub fn written_option_reads_back()
    ensures { (doi : ℕ) (label : Label)
        → 0 < doi
        → doi < 2 ^ 32
        → label.level < 256
        → IsCats label.cats
        → IsExpressible label
        → IsCalipso (calipso_text doi label) (record { doi = doi; label = label }) }
{}

/// An option has from 10 to 254 octets, whatever its checksum.
pub fn shapes_have_10_to_254_octets()
    ensures { (bytes : List ℕ) (value : Calipso × ℕ)
        → IsCalipsoShape bytes value
        → (10 ≤ length bytes) × (length bytes ≤ 254) }
{}

/// An option's second octet counts the octets behind it.
pub fn second_octet_counts_those_behind_it()
    ensures { (bytes : List ℕ) (value : Calipso × ℕ)
        → IsCalipsoShape bytes value
        → length bytes ≡ 2 + slice_index bytes 1 }
{}
