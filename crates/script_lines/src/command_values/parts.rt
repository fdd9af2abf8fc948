//! Texts: the parts around an octet, and whole words.

ghost use Rattle.std.specs.Prelude.{◌≡◌, ◌<◌, ◌==◌, [], ◌∷◌, length, IfSome, MatchOption};
ghost use Rattle.std.specs.List.{after_first, before_first, position, slice_split};
ghost use Rattle.std.specs.Str.{bytes_eq};

/// What stands in front of the first such octet and what stands behind it; all of the text and nothing where there is none.
pub fn around(text: &[u8], octet: u8) -> (&[u8], &[u8])
    ensures front { result.0.now ≡ before_first (λ c. c == octet) text.now }
    ensures back { result.1.now ≡ after_first (λ c. c == octet) text.now }
{
    match place_of(text, octet) {
        Some(place) => (&text[..place], &text[place + 1..]),
        None => (text, &[]),
    }
}

/// The parts of a text in front of the first such octet and behind it, where there is one.
pub(crate) fn split_once(text: &[u8], octet: u8) -> Option<(&[u8], &[u8])>
    ensures parts { MatchOption result (slice_split (λ c. c == octet) text.now ≡ text.now ∷ [])
        (λ parts. slice_split (λ c. c == octet) text.now ≡ parts.0.now ∷ slice_split
        (λ c. c == octet) parts.1.now) }
    ensures shorter { IfSome result (λ parts. length parts.1.now < length text.now) }
{
    let place = place_of(text, octet)?;
    Some((&text[..place], &text[place + 1..]))
}

/// Where the first such octet stands.
fn place_of(text: &[u8], octet: u8) -> Option<usize>
    ensures { result ≡ position (λ c. c == octet) text.now }
{
    text.iter().position(|c| *c == octet)
}

/// Whether the text is this word.
pub fn is_word(text: &[u8], word: &str) -> bool
    ensures { result ≡ bytes_eq text.now word.now }
{
    text == word.as_bytes()
}
