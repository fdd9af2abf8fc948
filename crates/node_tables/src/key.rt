//! Keys of tables, and entries by their places.

ghost use Rattle.std.specs.Prelude.{◌≡◌, ◌<◌, Some, length, slice_get, option_copied};

use domain_map::Name;
use indexmap::IndexMap;
use std::hash::Hash;

/// The key of a domain or an interface; `None` is the default one.
pub fn key_of(name: Option<&Name>) -> Option<Name>
    ensures { result ≡ option_copied name.entry }
{
    match name {
        Some(name) => Some(name.copy()),
        None => None,
    }
}

/// The entry at a place.
pub fn entry_at<K: Eq + Hash, V>(map: &IndexMap<K, V>, place: usize) -> (&K, &V)
    requires { place < length map.now.entries }
    ensures { slice_get map.now.entries place ≡ Some (result.0.now, result.1.now) }
{
    match map.get_index(place) {
        Some(entry) => entry,
        None => unreachable!(),
    }
}
