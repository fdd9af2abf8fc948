//! The first four octets of a tag: type, length, alignment, level.

ghost use Rattle.std.specs.Prelude.{◌≡◌, ◌↔◌, IsTrue, MatchOption, IfOk, IfErr};
ghost use Rattle.mls_label.specs.octet_grammar.Fault.{FailsFront};
ghost use Rattle.mls_label.specs.declared.label.Tag.{Tag};
ghost use Rattle.cipso_tags.specs.Tag.{tag_type, IsTag, HasLength};
ghost use Rattle.cipso_tags.specs.inside.Header.{BeginsWith, IsSize};

use crate::bounds::{HEADER_OCTETS, MOST_CATEGORIES, MOST_OCTETS, MOST_RANGES};
use mls_label::{Tag, WireFault, octet_at, unfit};

/// What stands before a tag's body.
#[derive(Clone, Copy)]
pub(crate) struct Header {
    pub tag: Tag,
    /// The octets of the whole tag.
    pub length: u8,
    pub level: u8,
}

/// The tag with this type octet: 1, 2 or 5.
pub fn tag_of_type(octet: u8) -> Option<Tag>
    ensures { MatchOption result ((tag : Tag) → tag_type tag ≡ octet → ⊥)
        (λ tag. tag_type tag ≡ octet) }
{
    match octet {
        1 => Some(Tag::One),
        2 => Some(Tag::Two),
        5 => Some(Tag::Five),
        _ => None,
    }
}

/// Whether a tag of this type may have this many octets.
pub fn has_length(tag: Tag, length: u8) -> bool
    ensures { IsTrue result ↔ HasLength tag length }
{
    let length = usize::from(length);
    length >= HEADER_OCTETS && is_size(tag, length - HEADER_OCTETS)
}

fn is_size(tag: Tag, size: usize) -> bool
    ensures { IsTrue result ↔ IsSize tag size }
{
    match tag {
        Tag::One => size <= MOST_OCTETS,
        Tag::Two => size <= 2 * MOST_CATEGORIES && size % 2 == 0,
        Tag::Five => size <= 4 * MOST_RANGES && size % 2 == 0,
    }
}

/// The header at the front of the octets.
pub(crate) fn read_header(bytes: &[u8]) -> Result<Header, WireFault>
    ensures ok { IfOk result (λ header. BeginsWith bytes.now header) }
    ensures err { IfErr result (λ e. FailsFront IsTag bytes.now e) }
{
    let kind = octet_at(bytes, 0)?;
    let Some(tag) = tag_of_type(kind) else {
        return Err(unfit(0));
    };
    let length = octet_at(bytes, 1)?;
    if !has_length(tag, length) {
        return Err(unfit(1));
    }
    let alignment = octet_at(bytes, 2)?;
    if alignment != 0 {
        return Err(unfit(2));
    }
    let level = octet_at(bytes, 3)?;
    Ok(Header { tag, length, level })
}
