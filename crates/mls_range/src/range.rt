//! Ranges of labels, read from their texts and written in their one form.

ghost use Rattle.std.specs.Prelude.{◌≡◌, ◌↔◌, [], ◌++◌, IsTrue, Some, None, IfOk, IfErr, OnOk, OnErr, MatchResult};
ghost use Rattle.mls_label.specs.Label.{Dominates};
ghost use Rattle.mls_range.specs.Range.{LabelRange, RangeHolds};
ghost use Rattle.mls_range.specs.RangeText.{IsRangeText, IsRoomyRange, range_text, StopsRange};
ghost use Rattle.mls_range.specs.Computed.{range_of_text};
ghost use Rattle.mls_range.specs.inside.Rest.{Extends};

use crate::fault::{TextFault, TextKind};
use crate::label::{append_label, read_part};
use mls_label::{Label, OutOfMemory};
use std::marker::Model;

/// A range of labels, from a low one to a high one that dominates it (SELinux MLS).
#[derive(Debug, Drop)]
pub struct Range {
    low: Label,
    high: Label,
}

impl Model for Range {
    ghost use Rattle.mls_label.specs.Label.{Dominates};
    ghost use Rattle.mls_range.specs.Range.{LabelRange};

    ghost Value = { LabelRange };

    ghost view = { λ r. record { low = r.low; high = r.high } };

    ghost invariant = { λ r. Dominates r.high r.low };
}

impl Range {
    /// Whether the label is in the range: it dominates the low one, and the high one dominates it.
    pub fn holds(&self, label: &Label) -> bool
        ensures { IsTrue result ↔ RangeHolds self.now label.now }
    {
        label.dominates(&self.low) && self.high.dominates(label)
    }

    /// The low label.
    pub fn low(&self) -> &Label
        ensures low { result.now ≡ self.now.low }
        ensures ordered { Dominates self.now.high self.now.low }
    {
        &self.low
    }

    /// The high label.
    pub fn high(&self) -> &Label
        ensures high { result.now ≡ self.now.high }
        ensures ordered { Dominates self.now.high self.now.low }
    {
        &self.high
    }

    /// The range that holds the lowest label alone: level 0 without a category.
    pub fn lowest() -> Range
        ensures { result
            ≡ record {
              low = record { level = 0; cats = [] };
              high = record { level = 0; cats = [] };
            } }
    {
        Range {
            low: Label::lowest(),
            high: Label::lowest(),
        }
    }

    /// A copy.
    pub fn copy(&self) -> Range
        ensures { result ≡ self.now }
    {
        let mut copy = Range::lowest();
        copy.assign(self);
        copy
    }

    /// Becomes the other range. It costs what the other has, where a move costs all the room.
    pub fn assign(&mut self, from: &Range)
        ensures { self.new ≡ from.now }
    {
        self.low.assign(&from.low);
        self.high.assign(&from.high);
    }

    /// Becomes the range from one label to another that dominates it.
    pub fn assign_ends(&mut self, low: &Label, high: &Label)
        requires { Dominates high.now low.now }
        ensures { self.new ≡ record { low = low.now; high = high.now } }
    {
        self.low.assign(low);
        self.high.assign(high);
    }
}

/// Reads a whole text as a range: one label, which is both ends, or two labels joined by a dash. The high label has to
/// dominate the low one.
pub fn read_range(text: &[u8]) -> Result<Range, TextFault>
    ensures ok { IfOk result (IsRangeText text.now) }
    ensures ordered { IfOk result (λ range. Dominates range.high range.low) }
    ensures roomy { OnOk result (IsRoomyRange text.now) }
    ensures err { IfErr result (StopsRange text.now) }
    ensures value { MatchResult result
        (λ range. range_of_text text.now ≡ Some range) (λ _. range_of_text text.now ≡ None) }
{
    let mut range = Range::lowest();
    read_range_into(text, &mut range)?;
    Ok(range)
}

/// The same with the range in place of the one that is lent, which is any range after a fault.
pub fn read_range_into(text: &[u8], range: &mut Range) -> Result<(), TextFault>
    ensures ok { OnOk result (IsRangeText text.now range.new) }
    ensures ordered { OnOk result (Dominates range.new.high range.new.low) }
    ensures roomy { OnOk result (IsRoomyRange text.now) }
    ensures err { IfErr result (StopsRange text.now) }
    ensures value { MatchResult result
        (λ _. range_of_text text.now ≡ Some range.new) (λ _. range_of_text text.now ≡ None) }
{
    let read = read_ends(text, &mut range.low, &mut range.high);
    if read.is_err() {
        // Whatever was read, the lowest label is below it.
        range.low.level = 0;
        range.low.cats.clear();
    }
    read
}

/// Reads both ends of a range.
fn read_ends(text: &[u8], low: &mut Label, high: &mut Label) -> Result<(), TextFault>
    ensures ok { OnOk result (IsRangeText text.now (record { low = low.new; high = high.new })) }
    ensures ordered { OnOk result (Dominates high.new low.new) }
    ensures roomy { OnOk result (IsRoomyRange text.now) }
    ensures err { IfErr result (StopsRange text.now) }
{
    let end = read_part(text, 0, true, low)?;
    if end == text.len() {
        high.assign(low);
        return Ok(());
    }
    let start = end + 1;
    let _end = read_part(text, start, false, high)?;
    if !high.dominates(low) {
        return Err(TextFault {
            octet: start,
            kind: TextKind::NotOrdered,
        });
    }
    Ok(())
}

/// Appends the range's one written form: one label where both ends are the same, else the low one, a dash and the high
/// one. After an error `out` is as it was.
pub fn write_range(range: &Range, out: &mut Vec<u8>) -> Result<(), OutOfMemory>
    ensures ok { OnOk result (out.new.items ≡ out.old.items ++ range_text range.now) }
    ensures err { OnErr result (out.new.items ≡ out.old.items) }
{
    let before = out.len();
    let written = append_range(range, out);
    if written.is_err() {
        out.truncate(before);
    }
    written
}

/// Appends the range's text, or a part of it where memory runs out.
fn append_range(range: &Range, out: &mut Vec<u8>) -> Result<(), OutOfMemory>
    ensures ok { OnOk result (out.new.items ≡ out.old.items ++ range_text range.now) }
    ensures err { OnErr result (Extends out.old.items out.new.items) }
{
    append_label(range.low(), out)?;
    if !range.high().same(range.low()) {
        out.push(b'-')?;
        append_label(range.high(), out)?;
    }
    Ok(())
}
