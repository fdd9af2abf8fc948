//! Decimal numbers up to a bound.

ghost use Rattle.std.specs.Prelude.{◌≡◌, ◌≤◌, IfSome};
ghost use Rattle.domain_map.specs.address_text.Number.{number_of_text};

use mls_label::read_decimal;

/// The number up to `most` whose decimal text this is.
pub(crate) fn read_number(text: &[u8], most: u32) -> Option<u32>
    ensures value { result ≡ number_of_text most text.now }
    ensures bound { IfSome result (λ n. n ≤ most) }
{
    let number = read_decimal(text)?;
    if number > u64::from(most) {
        return None;
    }
    Some(number as u32)
}
