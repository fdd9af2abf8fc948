//! The first bits of octets, and parts of texts.

ghost use Rattle.std.specs.Prelude.{◌≡◌, ◌≤◌, ◌<◌, [], ◌∷◌, length, ◌==◌, MatchOption};
ghost use Rattle.std.specs.List.{slice_split, position};
ghost use Rattle.std.specs.Str.{bytes_eq};
ghost use Rattle.domain_map.specs.address_text.Number.{number_of_text};
ghost use Rattle.domain_map.specs.address_text.Prefix.{first_bits};

use mls_label::read_decimal;

/// The first `bits` bits of an octet, the others cleared.
fn first_of(octet: u8, bits: u8) -> u8
    ensures { first_bits bits (octet ∷ []) ≡ result ∷ [] }
{
    let unit = 1u16 << 8u8.saturating_sub(bits);
    octet - (u16::from(octet) % unit) as u8
}

/// Clears all bits behind the first `bits` ones.
pub fn clear_behind(octets: &mut [u8], bits: u8)
    ensures { octets.new ≡ first_bits bits octets.old }
{
    let mut left = bits;
    for place in 0..octets.len() {
        octets[place] = first_of(octets[place], left);
        left = left.saturating_sub(8);
    }
}

/// Whether the first `bits` bits of the octets, the others cleared, are these.
pub fn begin_with(mut octets: &[u8], bits: u8, mut wanted: &[u8]) -> bool
    ensures { result ≡ bytes_eq (first_bits bits octets.now) wanted.now }
{
    let mut left = bits;
    while let [octet, behind @ ..] = octets {
        let [first, others @ ..] = wanted else {
            return false;
        };
        if first_of(*octet, left) != *first {
            return false;
        }
        octets = behind;
        wanted = others;
        left = left.saturating_sub(8);
    }
    wanted.is_empty()
}

/// The parts of a text in front of the first such octet and behind it.
pub fn split_once(text: &[u8], octet: u8) -> Option<(&[u8], &[u8])>
    ensures { MatchOption result (slice_split (λ c. c == octet) text.now ≡ text.now ∷ [])
        (λ parts. slice_split (λ c. c == octet) text.now ≡ parts.0.now ∷ slice_split
        (λ c. c == octet) parts.1.now) }
{
    let place = place_of(text, octet)?;
    Some((&text[..place], &text[place + 1..]))
}

fn place_of(text: &[u8], octet: u8) -> Option<usize>
    ensures { result ≡ position (λ c. c == octet) text.now }
{
    text.iter().position(|c| *c == octet)
}

/// The number up to `most` whose decimal text this is.
pub fn read_number(text: &[u8], most: u8) -> Option<u8>
    ensures { result ≡ number_of_text most text.now }
{
    let number = read_decimal(text)?;
    if number > u64::from(most) {
        return None;
    }
    Some(number as u8)
}
