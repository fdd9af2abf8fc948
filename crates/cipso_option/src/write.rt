//! Written options, and the choice of a tag.

ghost use Rattle.std.specs.Prelude.{◌≡◌, ◌<◌, []};
ghost use Rattle.cipso_tags.specs.Text.{Fits, first_tag_of};
ghost use Rattle.cipso_option.specs.Text.{cipso_text};

use crate::bounds::{MOST_OCTETS, OPTION_TYPE};
use arrayvec::ArrayVec;
use cipso_tags::{append_tag, can_express};
use mls_label::{Label, Tag};

/// Writes a label as an option with a tag that can express it.
pub fn write_cipso(doi: u32, tag: Tag, label: &Label, out: &mut ArrayVec<u8, MOST_OCTETS>)
    requires named { 0 < doi }
    requires fits { Fits tag label.now }
    requires empty { out.old.items ≡ [] }
    ensures { out.new.items ≡ cipso_text doi tag label.now }
{
    let [first, second, third, fourth] = doi.to_be_bytes();
    match out.try_extend_from_slice(&[OPTION_TYPE, 0, first, second, third, fourth]) {
        Ok(()) => {}
        Err(_) => unreachable!(),
    }
    append_tag(tag, label, out);
    out[1] = out.len() as u8;
}

/// The first of the tags that can express the label; `None` where none can.
pub fn first_tag(tags: &[Tag], label: &Label) -> Option<Tag>
    ensures { result ≡ first_tag_of tags.now label.now }
{
    tags.iter().copied().find(|tag| can_express(*tag, label))
}
