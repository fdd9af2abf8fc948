//! The first eight octets of an option: its type and length, the DOI, the type and length of its tag.

ghost use Rattle.std.specs.Prelude.{◌≡◌, ◌≤◌, ◌↔◌, IsTrue, IfOk, IfErr, OnOk};
ghost use Rattle.mls_label.specs.octet_grammar.Fault.{FailsFront};
ghost use Rattle.mls_label.specs.octet_grammar.Numbers.{u32_at};
ghost use Rattle.cipso_option.specs.Cipso.{IsCipso};
ghost use Rattle.cipso_option.specs.inside.Head.{IsStart, IsNamed, HasTagHead};

use crate::bounds::{FEWEST_OCTETS, HEAD_OCTETS, MOST_OCTETS, OPTION_TYPE};
use cipso_tags::{has_length, tag_of_type};
use mls_label::{WireFault, nonzero_at, octet_at, unfit};

/// Reads the option's type and its length, which is from 10 to 40.
pub(crate) fn read_start(bytes: &[u8]) -> Result<(), WireFault>
    ensures ok { OnOk result (IsStart bytes.now) }
    ensures err { IfErr result (λ e. FailsFront IsCipso bytes.now e) }
{
    let kind = octet_at(bytes, 0)?;
    if kind != OPTION_TYPE {
        return Err(unfit(0));
    }
    let length = octet_at(bytes, 1)?;
    if !is_length(length) {
        return Err(unfit(1));
    }
    Ok(())
}

// Whether an option may have this many octets.
fn is_length(octets: u8) -> bool
    ensures { IsTrue result ↔ (FEWEST_OCTETS ≤ octets) × (octets ≤ MOST_OCTETS) }
{
    let octets = usize::from(octets);
    octets >= FEWEST_OCTETS && octets <= MOST_OCTETS
}

/// Reads the DOI, which isn't 0.
pub(crate) fn read_doi(bytes: &[u8]) -> Result<u32, WireFault>
    requires { IsStart bytes.now }
    ensures ok { OnOk result (IsNamed bytes.now) }
    ensures doi { IfOk result (λ doi. doi ≡ u32_at bytes.now 2) }
    ensures err { IfErr result (λ e. FailsFront IsCipso bytes.now e) }
{
    nonzero_at(bytes, 2)
}

/// Reads the type of the tag, of which there is one that fills the option, and that tag's length.
pub(crate) fn read_tag_head(bytes: &[u8]) -> Result<(), WireFault>
    requires start { IsStart bytes.now }
    requires named { IsNamed bytes.now }
    ensures ok { OnOk result (HasTagHead bytes.now) }
    ensures err { IfErr result (λ e. FailsFront IsCipso bytes.now e) }
{
    let size = bytes[1] - HEAD_OCTETS as u8;
    let kind = octet_at(bytes, 6)?;
    let Some(tag) = tag_of_type(kind) else {
        return Err(unfit(6));
    };
    if !has_length(tag, size) {
        return Err(unfit(6));
    }
    let length = octet_at(bytes, 7)?;
    if length != size {
        return Err(unfit(7));
    }
    Ok(())
}
