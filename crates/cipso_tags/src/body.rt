//! The body of a tag, as long as its header says.

ghost use Rattle.std.specs.Prelude.{◌≡◌, ◌+◌, ◌*◌, ◌≤◌, IsTrue, MatchBool, length, IfOk, IfErr, OnOk};
ghost use Rattle.mls_label.specs.octet_grammar.Front.{ReadsFront};
ghost use Rattle.mls_label.specs.octet_grammar.Fault.{FailsFront};
ghost use Rattle.mls_label.specs.declared.label.Tag.TheVariants.{One, Two, Five};
ghost use Rattle.cipso_tags.specs.Body.{IsBody};
ghost use Rattle.mls_label.specs.octet_grammar.Place.{FaultsInNumber, IsNumberAt};
ghost use Rattle.cipso_tags.specs.inside.Header.{IsSize, IsSized};

use crate::bounds::{MOST_CATEGORIES, MOST_OCTETS, MOST_RANGES};
use mls_label::{CatSet, HIGHEST_CATEGORY, Tag, WireFault, ended, number_in, read_bitmap};

/// Reads the categories that the first `size` octets carry, in place of those that the set has.
pub(crate) fn read_body(
    tag: Tag,
    bytes: &[u8],
    size: usize,
    cats: &mut CatSet,
) -> Result<(), WireFault>
    requires { IsSize tag size }
    ensures ok { OnOk result (ReadsFront (IsSized size (IsBody tag)) bytes.now cats.new size) }
    ensures err { IfErr result (λ e. FailsFront (IsSized size (IsBody tag)) bytes.now e) }
{
    match tag {
        Tag::One => read_bits(bytes, size, cats),
        Tag::Two => read_enumeration(bytes, size / 2, cats),
        Tag::Five => read_ranges(bytes, size / 2, cats),
    }
}

fn read_bits(bytes: &[u8], size: usize, cats: &mut CatSet) -> Result<(), WireFault>
    requires { size ≤ MOST_OCTETS }
    ensures ok { OnOk result (ReadsFront (IsSized size (IsBody One)) bytes.now cats.new size) }
    ensures err { IfErr result (λ e. FailsFront (IsSized size (IsBody One)) bytes.now e) }
{
    if bytes.len() < size {
        return Err(ended(bytes.len()));
    }
    read_bitmap(&bytes[..size], cats);
    Ok(())
}

fn read_enumeration(bytes: &[u8], count: usize, cats: &mut CatSet) -> Result<(), WireFault>
    requires { count ≤ MOST_CATEGORIES }
    ensures ok { OnOk result
        (ReadsFront (IsSized (2 * count) (IsBody Two)) bytes.now cats.new (2 * count)) }
    ensures err { IfErr result (λ e. FailsFront (IsSized (2 * count) (IsBody Two)) bytes.now e) }
{
    cats.clear();
    let mut low = 0;
    for read in 0..count {
        // The categories after this one need room above it.
        let later = (count - 1 - read) as u16;
        let category = number_in(bytes, 2 * read, low, HIGHEST_CATEGORY - later)?;
        cats.insert_run(category, category);
        low = category + 1;
    }
    Ok(())
}

fn read_ranges(bytes: &[u8], count: usize, cats: &mut CatSet) -> Result<(), WireFault>
    requires { count ≤ 2 * MOST_RANGES }
    ensures ok { OnOk result
        (ReadsFront (IsSized (2 * count) (IsBody Five)) bytes.now cats.new (2 * count)) }
    ensures err { IfErr result (λ e. FailsFront (IsSized (2 * count) (IsBody Five)) bytes.now e) }
{
    cats.clear();
    let mut upper = HIGHEST_CATEGORY + 1;
    let ranges = (count + 1) / 2;
    for read in 0..ranges {
        // Each of the ranges after this one needs a number of its own.
        let later = (ranges - 1 - read) as u16;
        let top = number_in(bytes, 4 * read, later, upper - 1)?;
        let bottom = bottom_in(bytes, 4 * read + 2, 2 * read + 1 < count, later, top)?;
        cats.insert_run(bottom, top);
        upper = bottom;
    }
    Ok(())
}

// The bottom at this place, where it is there; one that is left out is 0.
fn bottom_in(bytes: &[u8], at: usize, is_there: bool, low: u16, top: u16) -> Result<u16, WireFault>
    requires { at ≤ length bytes.now }
    ensures ok { IfOk result
        (λ bottom. MatchBool is_there (IsNumberAt bytes.now at low top bottom) (bottom ≡ 0)) }
    ensures err { IfErr result (λ e. IsTrue is_there × FaultsInNumber bytes.now at low top e) }
{
    if is_there {
        number_in(bytes, at, low, top)
    } else {
        Ok(0)
    }
}
