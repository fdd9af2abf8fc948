//! Pairs sorted by their first numbers, found once when a plan is accepted.

ghost use Rattle.std.specs.Prelude.{◌≡◌, false, IfOk, IfSome, IfNone};
ghost use Rattle.doi_table.specs.Pairs.{firsts, flipped, are_distinct};
ghost use Rattle.doi_table.specs.Definition.{AreBelow};
ghost use Rattle.doi_table.specs.inside.Sorted.{IsSorted};

use crate::numbers::Pair;
use std::alloc::{AllocError, Global};

/// The pairs in ascending order of their first numbers, or `None` where two of these are equal.
pub fn sorted(mut pairs: Vec<Pair>) -> Option<Vec<Pair>>
    ensures some { IfSome result (λ sorted. IsSorted pairs.items sorted.items) }
    ensures none { IfNone result (are_distinct (firsts pairs.items) ≡ false) }
{
    pairs.sort_unstable_by_key(|pair| pair.0);
    if pairs.is_sorted_by(|a, b| a.0 < b.0) {
        Some(pairs)
    } else {
        None
    }
}

/// The pairs, each of two wider numbers.
pub fn widened(alloc: Global, pairs: &[(u8, u8)]) -> Result<Vec<Pair>, AllocError>
    ensures pairs { IfOk result (λ wide. wide.items ≡ pairs.now) }
    ensures below { IfOk result (λ wide. AreBelow 256 wide.items) }
{
    let mut wide = Vec::with_capacity(alloc, pairs.len())?;
    for (first, second) in pairs {
        wide.push((u16::from(*first), u16::from(*second)))?;
    }
    Ok(wide)
}

/// Each pair the other way round.
pub fn turned(alloc: Global, pairs: &[Pair]) -> Result<Vec<Pair>, AllocError>
    ensures { IfOk result (λ back. back.items ≡ flipped pairs.now) }
{
    let mut back = Vec::with_capacity(alloc, pairs.len())?;
    for (first, second) in pairs {
        back.push((*second, *first))?;
    }
    Ok(back)
}
