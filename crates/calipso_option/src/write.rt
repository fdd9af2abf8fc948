//! Written options: each label has one written form.

ghost use Rattle.std.specs.Prelude.{◌≡◌, ◌↔◌, ◌<◌, ◌≤◌, [], IsTrue};
ghost use Rattle.calipso_option.specs.Text.{IsExpressible, calipso_text, text_with, words_needed};

use crate::bounds::{MOST_OCTETS, MOST_WORDS, OPTION_TYPE};
use crate::crc16;
use arrayvec::ArrayVec;
use mls_label::{Label, octets_of, write_bitmap};

/// Whether an option can express a label: no category is above 1951, the last one of 61 words.
pub fn can_express(label: &Label) -> bool
    ensures { IsTrue result ↔ IsExpressible label.now }
{
    octets_of(&label.cats) <= 4 * MOST_WORDS as usize
}

/// Writes a label as an option of the fewest words that hold it, with its checksum (RFC 5570, section 5.1).
pub fn write_calipso(doi: u32, label: &Label, out: &mut ArrayVec<u8, MOST_OCTETS>)
    requires named { 0 < doi }
    requires fits { IsExpressible label.now }
    requires empty { out.old.items ≡ [] }
    ensures { out.new.items ≡ calipso_text doi label.now }
{
    append_option(doi, label, out);
    let checksum = crc16(out);
    let [low, high] = checksum.to_le_bytes();
    out[8] = low;
    out[9] = high;
}

// The option with zeros in the place of the checksum.
fn append_option(doi: u32, label: &Label, out: &mut ArrayVec<u8, MOST_OCTETS>)
    requires fits { IsExpressible label.now }
    requires empty { out.old.items ≡ [] }
    ensures { out.new.items ≡ text_with doi label.now 0 }
{
    let words = words_of(label);
    out.push(OPTION_TYPE);
    out.push(8 + 4 * words);
    let [first, second, third, fourth] = doi.to_be_bytes();
    out.push(first);
    out.push(second);
    out.push(third);
    out.push(fourth);
    out.push(words);
    out.push(label.level);
    out.push(0);
    out.push(0);
    write_bitmap(&label.cats, 4 * words as usize, out);
}

// The words that hold a label's categories.
fn words_of(label: &Label) -> u8
    requires { IsExpressible label.now }
    ensures count { result ≡ words_needed label.now.cats }
    ensures few { result ≤ MOST_WORDS }
{
    octets_of(&label.cats).div_ceil(4) as u8
}
