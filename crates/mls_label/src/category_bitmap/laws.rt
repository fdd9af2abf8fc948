//! Laws over the definitions of bitmaps.

ghost use Rattle.std.specs.Prelude.{◌≡◌, ◌↔◌, ◌/◌, ◌<◌, ◌≤◌, ℕ, List, IsTrue};
ghost use Rattle.mls_label.specs.octet_grammar.Octets.{IsOctets};
ghost use Rattle.mls_label.specs.Cats.{has, IsCats};
ghost use Rattle.mls_label.specs.category_bitmap.Bitmap.{bitmap_cats, octets_needed, bitmap_of};

/// A written bitmap reads back as the set that it was written from, in as many octets as that needs or more.
pub fn written_bitmap_reads_back()
    ensures { (cats : List ℕ) (n : ℕ) → IsCats cats → octets_needed cats ≤ n
        → bitmap_cats (bitmap_of cats n) ≡ cats }
{}

/// A written bitmap holds octets.
pub fn written_bitmaps_hold_octets()
    ensures { (cats : List ℕ) (n : ℕ) → IsOctets (bitmap_of cats n) }
{}

/// So many octets suffice for a set just where each of its categories stands in one of them.
pub fn octets_suffice_for_low_categories()
    ensures { (cats : List ℕ) (n : ℕ)
        → (octets_needed cats ≤ n) ↔ ((c : ℕ) → IsTrue (has cats c) → c / 8 < n) }
{}
