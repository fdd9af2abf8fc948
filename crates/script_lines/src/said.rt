//! What a line says, read word by word.

ghost use Rattle.std.specs.Prelude.{◌≡◌, ◌≤◌, ◌==◌, Bool, map, length, Ok, IfOk, IfErr, OnOk};
ghost use Rattle.std.specs.List.{after_first, common_prefix_len, list_any, position};
ghost use Rattle.script_lines.specs.Stop.{IsStopOf};
ghost use Rattle.script_lines.specs.Form.{with_translations, form_of, line_rows};
ghost use Rattle.script_lines.specs.Said.{begins_line, first_is, is_spelled, unfit_or_missing, read_row, key_of, slot_of, with_word, with_parameter, is_complete, read_fields, read_said};

use crate::command_values::is_word;
use crate::fields::Fields;
use crate::form::Slot;
use crate::parameter::Parameter;
use crate::row::{Row, line_rows};
use crate::stop::{LineStop, ScriptKind};
use crate::word::Word;
use std::alloc::Global;

/// A row of the table and what its parameters give.
#[derive(Drop)]
pub struct Said {
    pub row: Row,
    pub fields: Fields,
}

/// Reads a line's words: the fixed words of a row, then its parameters in whatever order they come. `led` says that `netlabelctl`
/// stands in front of them, where no reading line may stand; `end` is the line's length. The first fault is told at its place.
pub fn read_said(alloc: Global, led: bool, words: &[Word<'_>], end: usize) -> Result<Said, LineStop>
    ensures ok { IfOk result
        (λ said. read_said with_translations
        (line_rows led with_translations) end words.now ≡ Ok said) }
    ensures err { IfErr result
        (IsStopOf (read_said with_translations (line_rows led with_translations) end words.now)) }
{
    let row = read_row(line_rows(led), words, end)?;
    let form = row.form();
    let behind = &words[form.fixed.len()..];
    let fields = read_fields(alloc, form.slots, behind, end)?;
    Ok(Said { row, fields })
}

/// Whether a text begins a command or a reading line.
pub fn begins_line(text: &[u8]) -> bool
    ensures { result ≡ begins_line with_translations text.now }
{
    begins_one(line_rows(false), text)
}

/// Whether a text spells the first fixed word of one of the rows.
fn begins_one(rows: &[Row], text: &[u8]) -> bool
    ensures { result ≡ list_any
        (λ row. first_is (form_of with_translations row).fixed text.now) rows.now }
{
    let mut rest = rows;
    while let [row, others @ ..] = rest {
        if first_is(row.form().fixed, text) {
            return true;
        }
        rest = others;
    }
    false
}

/// Whether a text spells the first of the fixed words.
fn first_is(fixed: &[&str], text: &[u8]) -> bool
    ensures { result ≡ first_is (map (λ word. word.now) fixed.now) text.now }
{
    match fixed {
        [word, ..] => is_spelled(word, text),
        [] => false,
    }
}

/// Reads the fixed words.
fn read_row(rows: &[Row], words: &[Word<'_>], end: usize) -> Result<Row, LineStop>
    ensures value { result ≡ read_row with_translations rows.now end words.now }
    ensures fixed { IfOk result
        (λ row. length (form_of with_translations row).fixed ≤ length words.now) }
{
    let mut most = 0;
    let mut rest = rows;
    while let [row, others @ ..] = rest {
        let fixed = row.form().fixed;
        let count = shared_words(fixed, words);
        if count == fixed.len() {
            return Ok(*row);
        }
        most = most.max(count);
        rest = others;
    }
    Err(unfit_or_missing(&words[most..], end))
}

/// How many of the fixed words stand first among the words, up to the first that differs.
fn shared_words(mut fixed: &[&str], mut words: &[Word<'_>]) -> usize
    ensures shared { result ≡ common_prefix_len is_spelled (map (λ word. word.now) fixed.now)
        (map (λ word. word.text) words.now) }
    ensures within_fixed { result ≤ length fixed.now }
    ensures within_words { result ≤ length words.now }
{
    let mut count = 0;
    while let [first, others @ ..] = fixed {
        let [word, behind @ ..] = words else {
            return count;
        };
        if !is_spelled(first, word.text()) {
            return count;
        }
        count += 1;
        fixed = others;
        words = behind;
    }
    count
}

/// Whether a text spells a fixed word.
fn is_spelled(word: &str, text: &[u8]) -> bool
    ensures { result ≡ is_spelled word.now text.now }
{
    is_word(text, word) || (word == "cipsov4" && is_word(text, "cipso"))
}

/// The fault at the first of these words, or else at the line's end.
fn unfit_or_missing(words: &[Word<'_>], end: usize) -> LineStop
    ensures { result ≡ unfit_or_missing end words.now }
{
    match words {
        [word, ..] => LineStop::at(word.at(), ScriptKind::Word),
        [] => LineStop::at(end, ScriptKind::Missing),
    }
}

/// Reads the parameters.
fn read_fields(
    alloc: Global,
    slots: &[Slot],
    words: &[Word<'_>],
    end: usize,
) -> Result<Fields, LineStop>
    ensures ok { IfOk result
        (λ fields. read_fields with_translations slots.now end words.now ≡ Ok fields) }
    ensures err { IfErr result (IsStopOf (read_fields with_translations slots.now end words.now)) }
{
    let mut fields = Fields::none();
    let mut rest = words;
    while let [word, others @ ..] = rest {
        read_word(alloc, slots, word, &mut fields)?;
        rest = others;
    }
    if !is_complete(slots, &fields) {
        return Err(LineStop::at(end, ScriptKind::Missing));
    }
    Ok(fields)
}

/// Whether each parameter that must be there is.
fn is_complete(slots: &[Slot], fields: &Fields) -> bool
    ensures { result ≡ is_complete slots.now fields.now }
{
    slots
        .iter()
        .all(|slot| !slot.must || fields.has(slot.parameter))
}

/// Reads a word behind the fixed ones.
fn read_word(
    alloc: Global,
    slots: &[Slot],
    word: &Word<'_>,
    fields: &mut Fields,
) -> Result<(), LineStop>
    ensures ok { OnOk result
        (with_word with_translations slots.now word.now fields.old ≡ Ok fields.new) }
    ensures err { IfErr result
        (IsStopOf (with_word with_translations slots.now word.now fields.old)) }
{
    if slots.is_empty() {
        return Err(LineStop::at(word.at(), ScriptKind::Extra));
    }
    let (key, value) = parts_of(word.text());
    match slot_of(slots, key) {
        Some(slot) => read_parameter(alloc, slot.parameter, word, key, value, fields),
        None => Err(LineStop::at(word.at(), ScriptKind::Word)),
    }
}

/// A word up to and with its first colon, and what stands behind that.
fn parts_of(text: &[u8]) -> (&[u8], &[u8])
    ensures key { result.0.now ≡ key_of text.now }
    ensures value { result.1.now ≡ after_first (λ c. c == 58) text.now }
{
    match colon_in(text) {
        Some(colon) => (&text[..colon + 1], &text[colon + 1..]),
        None => (text, &[]),
    }
}

fn colon_in(text: &[u8]) -> Option<usize>
    ensures { result ≡ position (λ c. c == 58) text.now }
{
    text.iter().position(|octet| *octet == b':')
}

/// The parameter that a word begins.
fn slot_of(slots: &[Slot], key: &[u8]) -> Option<Slot>
    ensures { result ≡ slot_of slots.now key.now }
{
    slots
        .iter()
        .copied()
        .find(|slot| slot.parameter.is_key(key))
}

/// Reads a parameter's word, whose key and value are these.
fn read_parameter(
    alloc: Global,
    parameter: Parameter,
    word: &Word<'_>,
    key: &[u8],
    value: &[u8],
    fields: &mut Fields,
) -> Result<(), LineStop>
    requires key { key.now ≡ key_of word.now.text }
    requires value { value.now ≡ after_first (λ c. c == 58) word.now.text }
    ensures ok { OnOk result
        (with_parameter with_translations parameter word.now fields.old ≡ Ok fields.new) }
    ensures err { IfErr result
        (IsStopOf (with_parameter with_translations parameter word.now fields.old)) }
{
    if fields.has(parameter) {
        return Err(LineStop::at(word.at(), ScriptKind::Word));
    }
    if !fields.read(alloc, parameter, key, value)? {
        return Err(LineStop::at(word.at(), ScriptKind::Value));
    }
    Ok(())
}
