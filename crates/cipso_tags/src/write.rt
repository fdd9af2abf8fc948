//! Written tags: each label has one written form in each tag that can express it.

ghost use Rattle.std.specs.Prelude.{◌≡◌, ◌↔◌, ◌+◌, ◌≤◌, ◌++◌, [], IsTrue};
ghost use Rattle.arrayvec.specs.ArrayVec.{array_vec_len};
ghost use Rattle.cipso_tags.specs.Tag.{tag_type};
ghost use Rattle.cipso_tags.specs.Text.{Fits, body_text, tag_text};

use crate::append::{append_enumeration, append_ranges};
use crate::bounds::{MOST_CATEGORIES, MOST_OCTETS, MOST_RANGES, TAG_OCTETS};
use arrayvec::ArrayVec;
use mls_label::{Label, Tag, octets_of, write_bitmap};

/// Whether a tag can express a label: type 1 where no category is above 239, type 2 where there are at most 15
/// categories, type 5 where there are at most 7 maximal runs.
pub fn can_express(tag: Tag, label: &Label) -> bool
    ensures { IsTrue result ↔ Fits tag label.now }
{
    match tag {
        Tag::One => octets_of(&label.cats) <= MOST_OCTETS,
        Tag::Two => label.cats.count() as usize <= MOST_CATEGORIES,
        Tag::Five => label.cats.runs() <= MOST_RANGES,
    }
}

/// Writes a label as a tag that can express it: a bitmap without trailing zero octets, all categories, or the maximal
/// runs from the highest down, whose last bottom is left out where it is 0.
pub fn write_tag(tag: Tag, label: &Label, out: &mut ArrayVec<u8, TAG_OCTETS>)
    requires fits { Fits tag label.now }
    requires empty { out.old.items ≡ [] }
    ensures { out.new.items ≡ tag_text tag label.now }
{
    append_tag(tag, label, out);
}

/// Appends the written form of a label to octets that stand before it.
pub fn append_tag<const N: usize>(tag: Tag, label: &Label, out: &mut ArrayVec<u8, N>)
    requires fits { Fits tag label.now }
    requires room { array_vec_len out.old + TAG_OCTETS ≤ N }
    ensures { out.new.items ≡ out.old.items ++ tag_text tag label.now }
{
    let start = out.len();
    match out.try_extend_from_slice(&[type_octet(tag), 0, 0, label.level]) {
        Ok(()) => {}
        Err(_) => unreachable!(),
    }
    append_body(tag, label, out);
    // The length is known when the body is there.
    out[start + 1] = (out.len() - start) as u8;
}

fn append_body<const N: usize>(tag: Tag, label: &Label, out: &mut ArrayVec<u8, N>)
    requires fits { Fits tag label.now }
    requires room { array_vec_len out.old + MOST_OCTETS ≤ N }
    ensures { out.new.items ≡ out.old.items ++ body_text tag label.now.cats }
{
    match tag {
        Tag::One => write_bitmap(&label.cats, octets_of(&label.cats), out),
        Tag::Two => append_enumeration(&label.cats, out),
        Tag::Five => append_ranges(&label.cats, out),
    }
}

/// The octet of a tag's type: 1, 2 or 5.
pub fn type_octet(tag: Tag) -> u8
    ensures { result ≡ tag_type tag }
{
    match tag {
        Tag::One => 1,
        Tag::Two => 2,
        Tag::Five => 5,
    }
}
