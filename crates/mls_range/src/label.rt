//! Labels, read from their texts and written in their one form.

ghost use Rattle.std.specs.Prelude.{◌≡◌, [], ◌∷◌, ◌++◌, ◌+◌, ◌≤◌, length, flat_map, vec_len, vec_capacity, Some, None, IfOk, IfErr, OnOk, OnErr, MatchResult};
ghost use Rattle.std.specs.Fmt.{decimal};
ghost use Rattle.mls_range.specs.LabelText.{IsLabelText, label_text, letter_c, letter_s, terms_of_run, terms_text};
ghost use Rattle.mls_label.specs.Runs.{runs_of};
ghost use Rattle.mls_range.specs.inside.Rest.{Extends, separated};
ghost use Rattle.mls_range.specs.inside.Stops.{ReadsCats, ReadsPart, StopsCats, StopsPart};
ghost use Rattle.mls_range.specs.TextFault.{IsRoomyLabel, StopsLabel};
ghost use Rattle.mls_range.specs.Computed.{label_of_text};

use crate::fault::TextFault;
use crate::number::read_number;
use crate::octet::{is_label_end, read_octet};
use crate::terms::read_terms;
use mls_label::{CatSet, Label, OutOfMemory, push_decimal, write_decimal};

/// The greatest level.
const HIGHEST_LEVEL: u32 = 255;

/// How many octets a category takes at the most: a separator, a letter and five digits.
const LONGEST_TERM: usize = 7;

/// How many octets a run takes at the most: two terms.
const LONGEST_RUN: usize = 2 * LONGEST_TERM;

/// Reads a whole text as a label (SELinux MLS): `s<N>`, or `s<N>:` and terms `c<N>` or `c<M>.c<N>` separated by commas,
/// in any order. Levels end at 255 and categories at 65534; numbers have no leading zero.
pub fn read_label(text: &[u8]) -> Result<Label, TextFault>
    ensures ok { IfOk result (IsLabelText text.now) }
    ensures roomy { OnOk result (IsRoomyLabel text.now) }
    ensures err { IfErr result (StopsLabel text.now) }
    ensures value { MatchResult result
        (λ label. label_of_text text.now ≡ Some label) (λ _. label_of_text text.now ≡ None) }
{
    let mut label = Label::lowest();
    read_label_into(text, &mut label)?;
    Ok(label)
}

/// The same with the label in place of the one that is lent, which is any label after a fault.
pub fn read_label_into(text: &[u8], label: &mut Label) -> Result<(), TextFault>
    ensures ok { OnOk result (IsLabelText text.now label.new) }
    ensures roomy { OnOk result (IsRoomyLabel text.now) }
    ensures err { IfErr result (StopsLabel text.now) }
    ensures value { MatchResult result
        (λ _. label_of_text text.now ≡ Some label.new) (λ _. label_of_text text.now ≡ None) }
{
    let _end = read_part(text, 0, false, label)?;
    Ok(())
}

/// Reads a label that begins at `start`, up to the text's end or, with `dash`, up to a dash. Gives its end.
pub(crate) fn read_part(
    text: &[u8],
    start: usize,
    dash: bool,
    label: &mut Label,
) -> Result<usize, TextFault>
    requires { start ≤ length text.now }
    ensures ok { IfOk result (λ end. ReadsPart dash text.now start label.new end) }
    ensures err { IfErr result (StopsPart dash text.now start) }
{
    let number = read_octet(text, start, b's')?;
    let (level, behind) = read_number(text, number, 0, HIGHEST_LEVEL)?;
    label.level = level as u8;
    read_cats(text, behind, dash, &mut label.cats)
}

/// Reads what stands behind a level: a colon and terms, or nothing. Gives its end.
fn read_cats(text: &[u8], start: usize, dash: bool, cats: &mut CatSet) -> Result<usize, TextFault>
    requires { start ≤ length text.now }
    ensures ok { IfOk result (λ end. ReadsCats dash text.now start cats.new end) }
    ensures err { IfErr result (StopsCats dash text.now start) }
{
    cats.clear();
    if is_label_end(text, start, dash) {
        return Ok(start);
    }
    let terms = read_octet(text, start, b':')?;
    read_terms(text, terms, dash, cats)
}

/// Appends the label's one written form: its terms ascend by maximal runs, where a run of two categories is two terms
/// and each other run one (SELinux MLS). After an error `out` is as it was.
pub fn write_label(label: &Label, out: &mut Vec<u8>) -> Result<(), OutOfMemory>
    ensures ok { OnOk result (out.new.items ≡ out.old.items ++ label_text label.now) }
    ensures err { OnErr result (out.new.items ≡ out.old.items) }
{
    let before = out.len();
    let written = append_label(label, out);
    if written.is_err() {
        out.truncate(before);
    }
    written
}

/// Appends the label's text, or a part of it where memory runs out.
pub(crate) fn append_label(label: &Label, out: &mut Vec<u8>) -> Result<(), OutOfMemory>
    ensures ok { OnOk result (out.new.items ≡ out.old.items ++ label_text label.now) }
    ensures err { OnErr result (Extends out.old.items out.new.items) }
{
    append_level(label.level, out)?;
    push_cats(&label.cats, out)
}

/// Appends the terms of a set behind a colon, or nothing for no category. Room for all of them is asked for once.
fn push_cats(cats: &CatSet, out: &mut Vec<u8>) -> Result<(), OutOfMemory>
    ensures ok { OnOk result (out.new.items ≡ out.old.items
        ++ terms_text (flat_map terms_of_run (runs_of cats.now))) }
    ensures err { OnErr result (out.new.items ≡ out.old.items) }
{
    out.reserve(LONGEST_RUN * cats.runs())?;
    let mut separator = b':';
    for i in 0..cats.runs() {
        let (first, last) = cats.run(i);
        push_run(separator, first, last, out);
        separator = b',';
    }
    Ok(())
}

/// Appends a level, at once where it has one digit, or a part of that.
#[tactic(auto, using(std::proofs::lemmas::Fmt::decimal_digit))]
fn append_level(level: u8, out: &mut Vec<u8>) -> Result<(), OutOfMemory>
    ensures ok { OnOk result (out.new.items ≡ out.old.items ++ letter_s ∷ decimal level) }
    ensures err { OnErr result (Extends out.old.items out.new.items) }
{
    if level < 10 {
        out.extend_from_slice(&[b's', b'0' + level])?;
        return Ok(());
    }
    out.push(b's')?;
    write_decimal(u64::from(level), out)?;
    Ok(())
}

/// Appends a run as its terms, where there is room for two.
fn push_run(separator: u8, first: u16, last: u16, out: &mut Vec<u8>)
    requires order { first ≤ last }
    requires room { vec_len out.old + LONGEST_RUN ≤ vec_capacity out.old }
    ensures items { out.new.items ≡ out.old.items
        ++ separated separator (terms_of_run (first, last)) }
    ensures len { vec_len out.new ≤ vec_len out.old + LONGEST_RUN }
    ensures capacity { vec_capacity out.new ≡ vec_capacity out.old }
{
    push_category(separator, first, out);
    if first == last {
        return;
    }
    // Two categories are two terms, and more are one.
    let between = if last - first == 1 { b',' } else { b'.' };
    push_category(between, last, out);
}

/// Appends a category behind a separator, where there is room for its term.
fn push_category(separator: u8, category: u16, out: &mut Vec<u8>)
    requires room { vec_len out.old + LONGEST_TERM ≤ vec_capacity out.old }
    ensures items { out.new.items ≡ out.old.items ++ separator ∷ letter_c ∷ decimal category }
    ensures len { vec_len out.new ≤ vec_len out.old + LONGEST_TERM }
    ensures capacity { vec_capacity out.new ≡ vec_capacity out.old }
{
    out.push_reserved(separator);
    out.push_reserved(b'c');
    push_decimal(category, out);
}
