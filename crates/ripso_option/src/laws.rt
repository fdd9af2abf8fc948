//! Laws over the definitions of options.

ghost use Rattle.std.specs.Prelude.{ℕ, ◌≡◌, ◌≤◌, List, [], ◌∷◌, length, slice_index, Ok, Err, MatchResult};
ghost use Rattle.mls_label.specs.declared.octet_grammar.fault.WireKind.TheVariants.{Octet, End};
ghost use Rattle.mls_label.specs.octet_grammar.Octets.{IsOctets};
ghost use Rattle.mls_label.specs.octet_grammar.Front.{IsPrefixFree, ReadsFront};
ghost use Rattle.mls_label.specs.octet_grammar.Fault.{FailsFront};
ghost use Rattle.mls_label.specs.declared.label.Label.{Label};
ghost use Rattle.mls_label.specs.Label.{IsLabel};
ghost use Rattle.mls_label.specs.Cats.{IsCats};
ghost use Rattle.ripso_option.specs.Ripso.{IsRipso};
ghost use Rattle.ripso_option.specs.Reading.{ripso_of};
ghost use Rattle.ripso_option.specs.Text.{FitsRipso, ripso_text};

/// No option begins another, and each octet string is an option with one label.
pub fn one_value_for_each_option()
    ensures { IsPrefixFree IsRipso }
{}

/// Octet by octet the rules give the option at the front, or else the first octet that no option has there.
pub fn rules_give_the_first_fault()
    ensures { (s : List ℕ) → IsOctets s → MatchResult (ripso_of s)
        (λ read. ReadsFront IsRipso s read.0 read.1)
        (λ fault. FailsFront IsRipso s fault) }
{}

/// By these rules each option is read as itself.
pub fn each_option_is_read()
    ensures { (bytes : List ℕ) (label : Label) → IsRipso bytes label
        → ripso_of bytes ≡ Ok (label, length bytes) }
{}

/// A written option is an option with the label that it was written from, where an option can express it.
pub fn written_option_reads_back()
    ensures { (label : Label) → IsCats label.cats → FitsRipso label
        → IsRipso (ripso_text label) label }
{}

/// What an option says is a label.
pub fn options_say_labels()
    ensures { (bytes : List ℕ) (label : Label) → IsRipso bytes label → IsLabel label }
{}

/// What an option says can be expressed by one.
pub fn what_was_read_can_be_written()
    ensures { (bytes : List ℕ) (label : Label) → IsRipso bytes label → FitsRipso label }
{}

/// No option with a label has fewer octets than the written one.
pub fn written_form_is_the_shortest()
    ensures { (bytes : List ℕ) (label : Label) → IsRipso bytes label
        → length (ripso_text label) ≤ length bytes }
{}

/// An option holds octets.
pub fn options_hold_octets()
    ensures { (bytes : List ℕ) (label : Label) → IsRipso bytes label → IsOctets bytes }
{}

/// An option has from 3 to 7 octets.
pub fn options_have_3_to_7_octets()
    ensures { (bytes : List ℕ) (label : Label) → IsRipso bytes label
        → (3 ≤ length bytes) × (length bytes ≤ 7) }
{}

/// An option's second octet is its length.
pub fn second_octet_is_the_length()
    ensures { (bytes : List ℕ) (label : Label) → IsRipso bytes label
        → slice_index bytes 1 ≡ length bytes }
{}

/// Options and faults worked by hand from the layout: what the rules give of Secret with flag 0 and an octet without flags behind
/// it, how that is written, and the first faults of four octet strings.
#[tactic(auto, unfolding(crate::specs::Flags::flags_of))]
pub fn rules_give_what_was_worked_by_hand()
    ensures reads { ripso_of (130 ∷ 5 ∷ 90 ∷ 129 ∷ 0 ∷ [])
        ≡ Ok (record { level = 90; cats = 0 ∷ [] }, 5) }
    ensures writes { ripso_text (record { level = 90; cats = 0 ∷ [] }) ≡ 130 ∷ 4 ∷ 90 ∷ 128 ∷ [] }
    ensures indicator { ripso_of (130 ∷ 4 ∷ 90 ∷ 129 ∷ [])
        ≡ Err (record { octet = 3; kind = Octet }) }
    ensures class { ripso_of (130 ∷ 3 ∷ 2 ∷ []) ≡ Err (record { octet = 2; kind = Octet }) }
    ensures size { ripso_of (130 ∷ 2 ∷ []) ≡ Err (record { octet = 1; kind = Octet }) }
    ensures end { ripso_of (130 ∷ 3 ∷ []) ≡ Err (record { octet = 2; kind = End }) }
{}
