//! The form of a line.

ghost use Rattle.std.specs.Prelude.{◌≡◌, ◌+◌, ℕ, List, []};
ghost use Rattle.call_report.specs.report_lines.Form.{forms};
ghost use Rattle.call_report.specs.report_lines.Line.{line_words, misfit_of, first_form, line_form};

use crate::report_lines::fits::may_stand;
use crate::report_lines::form::{Form, forms};
use crate::report_lines::slot::Slot;
use crate::report_lines::texts::first_word;
use mls_label::Label;

/// The form of a line, or the octet of the first word that fits no form: octets are counted from 0, and where words are missing it is the
/// line's length. A label is read into the one that is lent.
#[tactic(auto, unfolding(crate::specs::report_lines::Line::line_form))]
pub fn read_line(line: &[u8], label: &mut Label) -> Result<Form, usize>
    ensures { result ≡ line_form line.now }
{
    let mut furthest = 0;
    let mut rest = forms();
    while let [form, others @ ..] = rest {
        match misfit_of(form.slots(), line, label) {
            None => return Ok(*form),
            Some(octet) => {
                if furthest < octet {
                    furthest = octet;
                }
            }
        }
        rest = others;
    }
    Err(furthest)
}

/// The octet at which the words of a line stop fitting slots.
fn misfit_of(slots: &[Slot], line: &[u8], label: &mut Label) -> Option<usize>
    ensures { result ≡ misfit_of 0 [] slots.now (line_words line.now) }
{
    let mut at = 0;
    let mut before: &[u8] = b"";
    let mut text = line;
    let mut rest = slots;
    while let [slot, others @ ..] = rest {
        let word = first_word(text);
        if !may_stand(*slot, before, word.text, label) {
            return Some(at);
        }
        if !word.more {
            return missing(others, line.len());
        }
        at += word.text.len() + 1;
        before = word.text;
        text = word.rest;
        rest = others;
    }
    Some(at)
}

/// Where a line ends too early, if it does.
fn missing(slots: &[Slot], end: usize) -> Option<usize>
    ensures { (before : List ℕ) → result ≡ misfit_of (end + 1) before slots.now [] }
{
    match slots {
        [] => None,
        [_, ..] => Some(end),
    }
}
