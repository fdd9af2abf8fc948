//! Laws over the definitions of tags.

ghost use Rattle.std.specs.Prelude.{ℕ, ◌≡◌, ◌<◌, ◌≤◌};
ghost use Rattle.mls_label.specs.octet_grammar.Front.{IsPrefixFree};
ghost use Rattle.mls_label.specs.declared.label.Tag.{Tag};
ghost use Rattle.mls_label.specs.declared.label.Tag.TheVariants.{One};
ghost use Rattle.mls_label.specs.declared.label.Label.{Label};
ghost use Rattle.mls_label.specs.Cats.{IsCats};
ghost use Rattle.cipso_tags.specs.Tag.{tag_type, IsTag, HasLength};
ghost use Rattle.cipso_tags.specs.Text.{Fits, tag_text};

/// No tag begins another, and each octet string is a tag of one type with one label.
pub fn one_value_for_each_tag()
    ensures { IsPrefixFree IsTag }
{}

/// A written tag is a tag of its type with the label that it was written from, where that label fits.
pub fn written_tag_reads_back()
    ensures { (tag : Tag) (label : Label)
        → label.level < 256
        → IsCats label.cats
        → Fits tag label
        → IsTag (tag_text tag label) (tag, label) }
{}

/// A tag has from 4 to 34 octets.
pub fn tags_have_4_to_34_octets()
    ensures { (tag : Tag) (n : ℕ) → HasLength tag n → (4 ≤ n) × (n ≤ 34) }
{}

/// A bitmap may have any length that tags have.
pub fn bitmaps_have_each_length()
    ensures { (n : ℕ) → 4 ≤ n → n ≤ 34 → HasLength One n }
{}

/// Two tags of one type number are of one type.
pub fn each_tag_has_its_type()
    ensures { (a b : Tag) → tag_type a ≡ tag_type b → a ≡ b }
{}
