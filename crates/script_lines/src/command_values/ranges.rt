//! Ranges of labels, as static entries and receivers have them.

ghost use Rattle.std.specs.Prelude.{◌≡◌, ◌++◌, length, None, Some, IfOk, OnOk, OnErr, option_copied, if◌then◌else◌};
ghost use Rattle.script_lines.specs.command_values.Ranges.{behind_context, behind_name, receiver_range_of_text, receiver_range_text, static_range_of_text, IsMlsLabel, IsMlsRange};
ghost use Rattle.mls_label.specs.Runs.{runs_of};
ghost use Rattle.mls_range.specs.RangeText.{range_text};
ghost use Rattle.script_lines.specs.command_values.inside.Extends.{Extends};

use crate::command_values::parts::around;
use domain_map::read_name;
use mls_label::{Label, OutOfMemory};
use mls_range::{KeptRange, Range, read_label_into, read_range_into, write_label, write_range};
use std::alloc::Global;

/// Reads a whole text as the range of a static entry: a range, or a user, a role, a type and a range with colons between.
pub fn read_static_range(alloc: Global, text: &[u8]) -> Result<Option<KeptRange>, OutOfMemory>
    ensures { IfOk result (λ read. read ≡ static_range_of_text text.now) }
{
    let mut range = Range::lowest();
    if !read_static_into(text, &mut range) {
        return Ok(None);
    }
    let kept = KeptRange::of(alloc, &range)?;
    Ok(Some(kept))
}

/// Whether the text says a range, which is then the one that is lent.
fn read_static_into(text: &[u8], range: &mut Range) -> bool
    ensures { (if result then Some range.new else None) ≡ static_range_of_text text.now }
{
    if read_range_into(text, range).is_ok() {
        return true;
    }
    match behind_context(text) {
        Some(rest) => read_range_into(rest, range).is_ok(),
        None => false,
    }
}

/// What stands behind a user, a role and a type.
fn behind_context(text: &[u8]) -> Option<&[u8]>
    ensures { option_copied result ≡ behind_context text.now }
{
    behind_name(behind_name(behind_name(text)?)?)
}

/// What stands behind a name and a colon.
fn behind_name(text: &[u8]) -> Option<&[u8]>
    ensures { option_copied result ≡ behind_name text.now }
{
    let (name, rest) = around(text, b':');
    if read_name(name).is_none() {
        return None;
    }
    Some(rest)
}

/// Reads a whole text as a receiver's level: one label, whose low end is the lowest label, or a low and a high label joined by
/// a dash, of which the high one dominates.
pub fn read_receiver_range(alloc: Global, text: &[u8]) -> Result<Option<KeptRange>, OutOfMemory>
    ensures { IfOk result (λ read. read ≡ receiver_range_of_text text.now) }
{
    let mut range = Range::lowest();
    if !read_receiver_into(text, &mut range) {
        return Ok(None);
    }
    let kept = KeptRange::of(alloc, &range)?;
    Ok(Some(kept))
}

/// Whether the text says a receiver's level, which is then the range that is lent.
fn read_receiver_into(text: &[u8], range: &mut Range) -> bool
    ensures { (if result then Some range.new else None) ≡ receiver_range_of_text text.now }
{
    let mut label = Label::lowest();
    if read_label_into(text, &mut label).is_ok() {
        range.assign_ends(&Label::lowest(), &label);
        return true;
    }
    read_range_into(text, range).is_ok()
}

/// Appends the range of a static entry or of an interface: one label where both ends are the same, else the low one, a dash and
/// the high one. After an error `out` is as it was.
pub fn write_static_range(range: &Range, out: &mut Vec<u8>) -> Result<(), OutOfMemory>
    ensures ok { OnOk result (out.new.items ≡ out.old.items ++ range_text range.now) }
    ensures err { OnErr result (out.new.items ≡ out.old.items) }
    ensures range { IsMlsRange range.now }
{
    let _runs = (known_runs(range.low()), known_runs(range.high()));
    write_range(range, out)
}

/// How many runs the label's set has, which tells what every label is.
fn known_runs(label: &Label) -> usize
    ensures runs { result ≡ length (runs_of label.now.cats) }
    ensures label { IsMlsLabel label.now }
{
    let _level = label.level;
    label.cats.runs()
}

/// Appends a receiver's level: the high label alone where the low one is the lowest, else both. After an error `out` is as it was.
pub fn write_receiver_range(range: &Range, out: &mut Vec<u8>) -> Result<(), OutOfMemory>
    ensures ok { OnOk result (out.new.items ≡ out.old.items ++ receiver_range_text range.now) }
    ensures err { OnErr result (out.new.items ≡ out.old.items) }
    ensures range { IsMlsRange range.now }
{
    let _runs = (known_runs(range.low()), known_runs(range.high()));
    let before = out.len();
    let written = append_receiver_range(range, out);
    if written.is_err() {
        out.truncate(before);
    }
    written
}

/// Appends a receiver's level, or a part of it where memory runs out.
fn append_receiver_range(range: &Range, out: &mut Vec<u8>) -> Result<(), OutOfMemory>
    ensures ok { OnOk result (out.new.items ≡ out.old.items ++ receiver_range_text range.now) }
    ensures err { OnErr result (Extends out.old.items out.new.items) }
{
    if !range.low().same(&Label::lowest()) {
        write_label(range.low(), out)?;
        out.push(b'-')?;
    }
    write_label(range.high(), out)
}
