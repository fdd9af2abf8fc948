//! Whether a text is a label's one written form, read off the label's runs of categories.

ghost use Rattle.std.specs.Prelude.{◌≡◌, ◌+◌, ◌==◌, [], ◌∷◌, Some, None, MatchOption, if◌then◌else◌};
ghost use Rattle.std.specs.Fmt.{decimal};
ghost use Rattle.std.specs.Str.{bytes_eq};
ghost use Rattle.mls_label.specs.Runs.{runs_of};
ghost use Rattle.mls_range.specs.LabelText.{comma, dot, label_text};
ghost use Rattle.call_report.specs.report_lines.inside.Fronts.{after_text, category_text, run_text, runs_text};

use mls_label::{CatSet, Label};

/// Whether this is the label's text, as it is written.
pub(crate) fn is_written(label: &Label, text: &[u8]) -> bool
    ensures { result ≡ bytes_eq text.now (label_text label.now) }
{
    let Some(level) = after_octet(text, b's') else {
        return false;
    };
    let Some(terms) = after_number(level, u16::from(label.level)) else {
        return false;
    };
    are_terms_of(&label.cats, terms)
}

/// Whether these are the terms of a set as they are written, after a colon, or nothing for no category.
fn are_terms_of(cats: &CatSet, text: &[u8]) -> bool
    ensures { result ≡ bytes_eq text.now (runs_text 58 (runs_of cats.now)) }
{
    let mut separator = b':';
    let mut rest = text;
    for i in 0..cats.runs() {
        let (first, last) = cats.run(i);
        let Some(next) = after_run(rest, separator, first, last) else {
            return false;
        };
        rest = next;
        separator = b',';
    }
    rest.is_empty()
}

/// What follows a run after a separator.
fn after_run(text: &[u8], separator: u8, first: u16, last: u16) -> Option<&[u8]>
    ensures { MatchOption result (after_text (separator ∷ run_text (first, last)) text.now ≡ None)
        (λ rest. after_text (separator ∷ run_text (first, last)) text.now ≡ Some rest.now) }
{
    if first == last {
        return after_category(text, separator, first);
    }
    let Some(rest) = after_category(text, separator, first) else {
        return None;
    };
    after_category(rest, between(first, last), last)
}

/// What stands between the first and the last category of a run: two categories are two terms, and more are one.
fn between(first: u16, last: u16) -> u8
    ensures { result ≡ (if first + 1 == last then comma else dot) }
{
    if u32::from(first) + 1 == u32::from(last) {
        b','
    } else {
        b'.'
    }
}

/// What follows a category after a separator.
fn after_category(text: &[u8], separator: u8, category: u16) -> Option<&[u8]>
    ensures { MatchOption result
        (after_text (separator ∷ category_text category) text.now ≡ None)
        (λ rest. after_text (separator ∷ category_text category) text.now ≡ Some rest.now) }
{
    let Some(letter) = after_octet(text, separator) else {
        return None;
    };
    let Some(number) = after_octet(letter, b'c') else {
        return None;
    };
    after_number(number, category)
}

/// What follows a decimal number.
fn after_number(text: &[u8], number: u16) -> Option<&[u8]>
    ensures { MatchOption result (after_text (decimal number) text.now ≡ None)
        (λ rest. after_text (decimal number) text.now ≡ Some rest.now) }
{
    if number < 10 {
        return after_octet(text, b'0' + number as u8);
    }
    let Some(last) = after_number(text, number / 10) else {
        return None;
    };
    after_octet(last, b'0' + (number % 10) as u8)
}

/// What follows an octet.
fn after_octet(text: &[u8], octet: u8) -> Option<&[u8]>
    ensures { MatchOption result (after_text (octet ∷ []) text.now ≡ None)
        (λ rest. after_text (octet ∷ []) text.now ≡ Some rest.now) }
{
    let [first, rest @ ..] = text else {
        return None;
    };
    if *first != octet {
        return None;
    }
    Some(rest)
}
