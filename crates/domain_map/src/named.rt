//! Values by names, where no name stands for the default.

ghost use Rattle.std.specs.Prelude.{◌≡◌, ◌≤◌, length, Some, None, option_copied};
ghost use Rattle.std.specs.Option.{option_or};
ghost use Rattle.std.specs.Map.{lookup};
ghost use Rattle.domain_map.specs.Domains.{same_domain};

use crate::address_text::Name;
use crate::map::{entry_at, key_of};
use indexmap::IndexMap;

/// So many entries are gone over, which costs less than a hash.
const FEW: usize = 8;

/// The value of a name; `None` is the default one.
#[inline(always)]
pub fn value_of<'a, V>(entries: &'a IndexMap<Option<Name>, V>, name: Option<&Name>) -> Option<&'a V>
    ensures { option_copied result ≡ lookup
        (same_domain (option_copied name.entry)) entries.now.entries }
{
    if entries.len() <= FEW {
        first_named(entries, name)
    } else {
        entries.get(&key_of(name))
    }
}

/// The value of a name, or else the default one.
#[inline(always)]
pub fn value_or_default<'a, V>(entries: &'a IndexMap<Option<Name>, V>, name: &Name) -> Option<&'a V>
    ensures { option_copied result ≡ option_or
        (lookup (same_domain (Some name.now)) entries.now.entries)
        (lookup (same_domain None) entries.now.entries) }
{
    if entries.len() <= FEW {
        return first_or_default(entries, name);
    }
    match value_of(entries, Some(name)) {
        Some(value) => Some(value),
        None => value_of(entries, None),
    }
}

// The same from the front, once over all entries.
fn first_or_default<'a, V>(entries: &'a IndexMap<Option<Name>, V>, name: &Name) -> Option<&'a V>
    ensures { option_copied result ≡ option_or
        (lookup (same_domain (Some name.now)) entries.now.entries)
        (lookup (same_domain None) entries.now.entries) }
{
    let mut default = None;
    for place in 0..entries.len() {
        let (key, value) = entry_at(entries, place);
        match key {
            Some(own) if own == name => return Some(value),
            Some(_) => {}
            None => default = Some(value),
        }
    }
    default
}

// The same from the front.
fn first_named<'a, V>(entries: &'a IndexMap<Option<Name>, V>, name: Option<&Name>) -> Option<&'a V>
    ensures { option_copied result ≡ lookup
        (same_domain (option_copied name.entry)) entries.now.entries }
{
    for place in 0..entries.len() {
        let (key, value) = entry_at(entries, place);
        if is_named(key, name) {
            return Some(value);
        }
    }
    None
}

// Whether a key is this name.
pub(crate) fn is_named(key: &Option<Name>, name: Option<&Name>) -> bool
    ensures { result ≡ same_domain (option_copied name.entry) key.now }
{
    match (name, key) {
        (Some(name), Some(own)) => name == own,
        (None, None) => true,
        _ => false,
    }
}
