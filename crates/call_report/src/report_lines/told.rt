//! What a line tells under the name of a field.

ghost use Rattle.std.specs.Prelude.{◌≡◌};
ghost use Rattle.std.specs.List.{list_any};
ghost use Rattle.call_report.specs.report_lines.Line.{line_words};
ghost use Rattle.call_report.specs.report_lines.Told.{is_field, tells, part_of, told_word};

use crate::report_lines::slot::{Field, Slot};
use crate::report_lines::texts::{first_word, parts_at};

/// What a line with these slots tells under a field, nothing where it tells nothing.
pub fn told_word<'a>(field: Field, slots: &[Slot], line: &'a [u8]) -> &'a [u8]
    ensures { result.now ≡ told_word field slots.now (line_words line.now) }
{
    if !has_field(slots, field) {
        return b"";
    }
    let mut slots = slots;
    let mut text = line;
    let mut more = true;
    while let [slot, others @ ..] = slots {
        if !more {
            return b"";
        }
        let word = first_word(text);
        if tells(*slot, field) {
            return part_of(*slot, field, word.text);
        }
        text = word.rest;
        more = word.more;
        slots = others;
    }
    b""
}

/// Whether a line with these slots tells something under a field. It is asked first, so that words are read for what they tell alone.
fn has_field(slots: &[Slot], field: Field) -> bool
    ensures { result ≡ list_any (λ slot. tells slot field) slots.now }
{
    slots.iter().any(|slot| tells(*slot, field))
}

/// Whether two fields are one.
pub fn is_field(a: Field, b: Field) -> bool
    ensures { result ≡ is_field a b }
{
    a.number() == b.number()
}

/// Whether a slot's word tells something under a field.
fn tells(slot: Slot, field: Field) -> bool
    ensures { result ≡ tells slot field }
{
    match slot {
        Slot::Fixed { .. } => false,
        Slot::Tag { field: own, .. } => is_field(own, field),
        Slot::Number { field: own } => is_field(own, field),
        Slot::Zero { field: own } => is_field(own, field),
        Slot::Text { field: own, .. } => is_field(own, field),
        Slot::Place => is_field(Field::Flow, field) || is_field(Field::Number, field),
        Slot::Versions => is_field(Field::Versions, field),
        Slot::NoVersions => is_field(Field::Versions, field),
    }
}

/// The part of a slot's word that tells it.
fn part_of<'a>(slot: Slot, field: Field, word: &'a [u8]) -> &'a [u8]
    ensures { result.now ≡ part_of slot field word.now }
{
    match slot {
        Slot::Place => {
            let (flow, number) = parts_at(word, b'.');
            if is_field(Field::Flow, field) {
                flow
            } else {
                number
            }
        }
        _ => word,
    }
}
