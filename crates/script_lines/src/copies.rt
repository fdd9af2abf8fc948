//! Copies of the values of parameters.

ghost use Rattle.std.specs.Prelude.{◌≡◌, IfOk, option_copied, option_map};

use crate::command_values::{CommaList, ListEntry, Tags};
use domain_map::Name;
use mls_label::OutOfMemory;
use mls_range::KeptRange;
use std::alloc::Global;

pub(crate) fn copied_tags(tags: Option<&Tags>) -> Result<Option<Tags>, OutOfMemory>
    ensures { IfOk result (λ copy. copy ≡ option_copied tags.entry) }
{
    match tags {
        Some(tags) => Ok(Some(tags.copy()?)),
        None => Ok(None),
    }
}

pub(crate) fn copied_list<E: ListEntry>(
    list: Option<&CommaList<E>>,
) -> Result<Option<CommaList<E>>, OutOfMemory>
    ensures { IfOk result (λ copy. copy ≡ option_copied list.entry) }
{
    match list {
        Some(list) => Ok(Some(list.copy()?)),
        None => Ok(None),
    }
}

pub(crate) fn copied_range(
    alloc: Global,
    range: Option<&KeptRange>,
) -> Result<Option<KeptRange>, OutOfMemory>
    ensures { IfOk result (λ copy. copy ≡ option_copied range.entry) }
{
    match range {
        Some(range) => Ok(Some(range.copy(alloc)?)),
        None => Ok(None),
    }
}

pub(crate) fn copied_name(name: Option<&Name>) -> Option<Name>
    ensures { result ≡ option_copied name.entry }
{
    match name {
        Some(name) => Some(name.copy()),
        None => None,
    }
}

pub(crate) fn copied_domain(domain: Option<Option<&Name>>) -> Option<Option<Name>>
    ensures { result ≡ option_map option_copied domain.entry }
{
    match domain {
        Some(name) => Some(copied_name(name)),
        None => None,
    }
}
