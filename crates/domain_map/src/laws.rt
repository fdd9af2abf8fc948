//! What the definitions are worth, whatever the code does.

ghost use Rattle.std.specs.Prelude.{◌≡◌, ◌↔◌, ℕ, List, Contains, Some, IsTrue, slice_get};
ghost use Rattle.mls_label.specs.declared.label.Label.{Label};
ghost use Rattle.domain_map.specs.declared.address_text.address.Address.{Address};
ghost use Rattle.domain_map.specs.address_text.Prefix.{holds};
ghost use Rattle.domain_map.specs.declared.static_map.StaticEntry.{StaticEntry};
ghost use Rattle.domain_map.specs.Domains.{Domain, same_domain};
ghost use Rattle.domain_map.specs.Statics.{Statics, entries_of, entries_for, find_static_of};

/// An entry is among those of an interface exactly where it stands at its place among all and is of that interface.
pub fn entries_stand_at_their_places()
    ensures { (statics : Statics) (interface : Domain) (place : ℕ) (entry : StaticEntry)
        → (Contains (entries_of statics interface) (place, entry)
        ↔ ((slice_get statics place ≡ Some entry)
        × IsTrue (same_domain interface entry.interface))) }
{}

/// The labels that are found are those of an entry that counts for the interface and whose prefix holds the address.
pub fn found_labels_are_those_of_an_entry()
    ensures { (statics : Statics) (interface : List ℕ) (address : Address) (labels : Label × Label)
        → find_static_of statics interface address ≡ Some labels
        → ((place : ℕ) × (entry : StaticEntry)
        × Contains (entries_for statics interface) (place, entry)
        × IsTrue (holds entry.prefix address) × (labels ≡ (entry.low, entry.high))) }
{}
