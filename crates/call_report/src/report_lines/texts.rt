//! Words of a line, and parts of words.

ghost use Rattle.std.specs.Prelude.{◌≡◌, ◌+◌, ◌==◌, [], ◌∷◌, length, MatchBool};
ghost use Rattle.std.specs.List.{slice_split, position, before_first, after_first};
ghost use Rattle.call_report.specs.report_lines.Slot.{whole_number};
ghost use Rattle.call_report.specs.report_lines.Line.{line_words};

use mls_label::read_decimal;

/// The first word of a text, what stands behind the blank after it, and whether there is one.
#[derive(Clone, Copy)]
pub struct Word<'a> {
    pub text: &'a [u8],
    pub rest: &'a [u8],
    pub more: bool,
}

/// The first word of a text.
pub fn first_word(text: &[u8]) -> Word<'_>
    ensures words { MatchBool result.more
        (line_words text.now ≡ result.text.now ∷ line_words result.rest.now)
        (line_words text.now ≡ result.text.now ∷ []) }
    ensures length { MatchBool result.more
        (length text.now ≡ length result.text.now + 1 + length result.rest.now)
        (length text.now ≡ length result.text.now) }
{
    first_part(text, b' ')
}

/// The same of parts between such octets.
pub(crate) fn first_part(text: &[u8], octet: u8) -> Word<'_>
    ensures words { MatchBool result.more
        (slice_split (λ c. c == octet) text.now
        ≡ result.text.now ∷ slice_split (λ c. c == octet) result.rest.now)
        (slice_split (λ c. c == octet) text.now ≡ result.text.now ∷ []) }
    ensures length { MatchBool result.more
        (length text.now ≡ length result.text.now + 1 + length result.rest.now)
        (length text.now ≡ length result.text.now) }
{
    match place_of(text, octet) {
        Some(end) => Word {
            text: &text[..end],
            rest: &text[end + 1..],
            more: true,
        },
        None => Word {
            text,
            rest: &text[text.len()..],
            more: false,
        },
    }
}

/// What stands in front of the first such octet and behind it: all and nothing where there is none.
pub fn parts_at(text: &[u8], octet: u8) -> (&[u8], &[u8])
    ensures front { result.0.now ≡ before_first (λ c. c == octet) text.now }
    ensures behind { result.1.now ≡ after_first (λ c. c == octet) text.now }
{
    match place_of(text, octet) {
        Some(end) => (&text[..end], &text[end + 1..]),
        None => (text, &text[text.len()..]),
    }
}

fn place_of(text: &[u8], octet: u8) -> Option<usize>
    ensures { result ≡ position (λ c. c == octet) text.now }
{
    text.iter().position(|c| *c == octet)
}

/// The number below 2^64 whose decimal text this is.
pub fn whole_number(text: &[u8]) -> Option<u64>
    ensures { result ≡ whole_number text.now }
{
    match read_decimal(text) {
        Some(number) => Some(number),
        None => None,
    }
}
