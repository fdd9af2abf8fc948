//! Ranges by their interfaces.

ghost use Rattle.std.specs.Prelude.{◌≡◌, IfOk, option_copied};
ghost use Rattle.node_tables.specs.Tables.{find_range_of};
ghost use Rattle.node_tables.specs.Change.{range_added, range_deleted};
ghost use Rattle.node_tables.specs.inside.Turns.{Turns};

use crate::key::{entry_at, key_of};
use crate::reply::Refusal;
use crate::stop::Stop;
use domain_map::{Name, value_or_default};
use indexmap::IndexMap;
use mls_label::OutOfMemory;
use mls_range::{KeptRange, Range};

/// The most ranges of a node.
const MOST_RANGES: usize = 64;

/// The range of an interface, or else the default one.
pub fn find_range<'a>(
    ranges: &'a IndexMap<Option<Name>, KeptRange>,
    interface: &Name,
) -> Option<&'a KeptRange>
    ensures { option_copied result ≡ find_range_of ranges.now.entries interface.now }
{
    value_or_default(ranges, interface)
}

/// Adds the range of an interface that has none.
pub fn add_range(
    ranges: &mut IndexMap<Option<Name>, KeptRange>,
    interface: &Option<Name>,
    range: &Range,
) -> Result<(), Stop>
    ensures { Turns (range_added ranges.old.entries interface.now range.now)
        ranges.old.entries ranges.new.entries result }
{
    if ranges.contains_key(interface) {
        return Err(Stop::Refused(Refusal::RangeExists));
    }
    if ranges.len() >= MOST_RANGES {
        return Err(Stop::Refused(Refusal::TableFull));
    }
    let kept = KeptRange::of(*ranges.allocator(), range)?;
    match ranges.insert(key_of(interface.as_ref()), kept) {
        Ok(_) => Ok(()),
        Err(_) => Err(Stop::OutOfMemory),
    }
}

/// Takes out the range of an interface.
pub fn del_range(
    ranges: &mut IndexMap<Option<Name>, KeptRange>,
    interface: &Option<Name>,
) -> Result<(), Stop>
    ensures { Turns (range_deleted ranges.old.entries interface.now)
        ranges.old.entries ranges.new.entries result }
{
    match ranges.shift_remove(interface) {
        Some(_) => Ok(()),
        None => Err(Stop::Refused(Refusal::RangeUnknown)),
    }
}

/// The same ranges once more.
pub fn copy_ranges(
    ranges: &IndexMap<Option<Name>, KeptRange>,
) -> Result<IndexMap<Option<Name>, KeptRange>, OutOfMemory>
    ensures { IfOk result (λ copy. copy.entries ≡ ranges.now.entries) }
{
    let alloc = *ranges.allocator();
    let mut copy = IndexMap::new(alloc);
    for place in 0..ranges.len() {
        let (interface, range) = entry_at(ranges, place);
        copy.insert(key_of(interface.as_ref()), range.copy(alloc)?)?;
    }
    Ok(copy)
}
