//! Numbers as decimal text, without sign or leading zero: the one spelling that words, texts of labels and the report share. A contract sees
//! the spelling as std's `decimal`, which is what `{}` prints.

ghost use Rattle.std.specs.Prelude.{◌≡◌, ℕ, ◌+◌, ◌*◌, ◌/◌, ◌%◌, ◌<◌, ◌≤◌, ◌^◌, ◌⊎◌, [], ◌∷◌, ◌++◌, length, drop, slice_index, vec_len, vec_capacity, IfSome, IfNone, MatchBool, OnOk, OnErr};
ghost use Rattle.std.specs.Option.{SomeIff};
ghost use Rattle.std.specs.Fmt.{decimal};
ghost use Rattle.std.specs.Str.Parse.{AllDigits, digits_value};

use std::alloc::AllocError;

/// As many digits as a `u64` has at the most.
const MOST_DIGITS: usize = 20;

/// As many digits as a `u16` has at the most.
const SHORT_DIGITS: usize = 5;

/// As many as it has with four digits more.
const MORE_DIGITS: usize = 9;

/// The two digits of each number below 100.
const PAIRS: &[u8; 200] =
    b"0001020304050607080910111213141516171819202122232425262728293031323334353637383940414243444546474849\
5051525354555657585960616263646566676869707172737475767778798081828384858687888990919293949596979899";

/// Appends the decimal text of a number. After an error `out` is as it was.
#[tactic(auto, using(std::proofs::lemmas::Fmt::decimal_digit))]
pub fn write_decimal(n: u64, out: &mut Vec<u8>) -> Result<(), AllocError>
    ensures ok { OnOk result (out.new.items ≡ out.old.items ++ decimal n) }
    ensures err { OnErr result (out.new.items ≡ out.old.items) }
{
    // Most numbers are short, and then no room for 20 digits has to be cleared.
    if n < 10 {
        return out.extend_from_slice(&[b'0' + n as u8]);
    }
    match u16::try_from(n) {
        Ok(short) => write_short(short, out),
        Err(_) => write_more(n, out),
    }
}

/// The same of a number of 16 bits.
fn write_short(n: u16, out: &mut Vec<u8>) -> Result<(), AllocError>
    ensures ok { OnOk result (out.new.items ≡ out.old.items ++ decimal n) }
    ensures err { OnErr result (out.new.items ≡ out.old.items) }
{
    out.reserve(SHORT_DIGITS)?;
    push_decimal(n, out);
    Ok(())
}

/// The same of a number of more than four digits: those in front of the last four are mostly a number of 16 bits.
fn write_more(n: u64, out: &mut Vec<u8>) -> Result<(), AllocError>
    requires { 10000 ≤ n }
    ensures ok { OnOk result (out.new.items ≡ out.old.items ++ decimal n) }
    ensures err { OnErr result (out.new.items ≡ out.old.items) }
{
    let Ok(front) = u16::try_from(n / 10000) else {
        return write_long(n, out);
    };
    out.reserve(MORE_DIGITS)?;
    push_decimal(front, out);
    push_four((n % 10000) as u16, out);
    Ok(())
}

/// Appends the last four digits of a number.
fn push_four(n: u16, out: &mut Vec<u8>)
    requires few { n < 10000 }
    requires room { vec_len out.old + 4 ≤ vec_capacity out.old }
    ensures { out.new.items ≡ out.old.items ++ (48 + n / 1000 % 10) ∷ (48 + n / 100 % 10)
        ∷ (48 + n / 10 % 10) ∷ (48 + n % 10) ∷ [] }
{
    push_two(n / 100, out);
    push_two(n % 100, out);
}

/// Appends the decimal text of a number of 16 bits where there is room for five digits.
#[inline(never)]
#[tactic(auto, using(crate::proofs::octet_grammar::Digits::two_appended))]
pub fn push_decimal(n: u16, out: &mut Vec<u8>)
    requires room { vec_len out.old + 5 ≤ vec_capacity out.old }
    ensures items { out.new.items ≡ out.old.items ++ decimal n }
    ensures len { vec_len out.new ≤ vec_len out.old + 5 }
    ensures capacity { vec_capacity out.new ≡ vec_capacity out.old }
{
    if n < 100 {
        return push_short(n, out);
    }
    push_front(n / 100, out);
    push_two(n % 100, out);
}

/// Appends the digits of a number of 16 bits that stand in front of the last two.
#[tactic(auto, using(crate::proofs::octet_grammar::Digits::three_appended))]
fn push_front(n: u16, out: &mut Vec<u8>)
    requires few { n < 1000 }
    requires room { vec_len out.old + 3 ≤ vec_capacity out.old }
    ensures items { out.new.items ≡ out.old.items ++ decimal n }
    ensures len { vec_len out.new ≤ vec_len out.old + 3 }
    ensures capacity { vec_capacity out.new ≡ vec_capacity out.old }
{
    if n < 100 {
        return push_short(n, out);
    }
    out.push_reserved(b'0' + (n / 100) as u8);
    push_two(n % 100, out);
}

/// Appends the decimal text of a number below 100.
#[tactic(auto, using(std::proofs::lemmas::Fmt::decimal_digit, crate::proofs::octet_grammar::Digits::two_digits))]
fn push_short(n: u16, out: &mut Vec<u8>)
    requires few { n < 100 }
    requires room { vec_len out.old + 2 ≤ vec_capacity out.old }
    ensures items { out.new.items ≡ out.old.items ++ decimal n }
    ensures len { vec_len out.new ≤ vec_len out.old + 2 }
    ensures capacity { vec_capacity out.new ≡ vec_capacity out.old }
{
    if n < 10 {
        out.push_reserved(b'0' + n as u8);
    } else {
        push_two(n, out);
    }
}

/// Appends two digits.
#[tactic(auto, using(crate::proofs::octet_grammar::Digits::pair_appended))]
fn push_two(n: u16, out: &mut Vec<u8>)
    requires few { n < 100 }
    requires room { vec_len out.old + 2 ≤ vec_capacity out.old }
    ensures items { out.new.items ≡ out.old.items ++ (48 + n / 10) ∷ (48 + n % 10) ∷ [] }
    ensures len { vec_len out.new ≡ vec_len out.old + 2 }
    ensures capacity { vec_capacity out.new ≡ vec_capacity out.old }
{
    let place = 2 * usize::from(n);
    out.push_reserved(PAIRS[place]);
    out.push_reserved(PAIRS[place + 1]);
}

/// The same of a number of any length.
#[inline(never)]
fn write_long(n: u64, out: &mut Vec<u8>) -> Result<(), AllocError>
    ensures ok { OnOk result (out.new.items ≡ out.old.items ++ decimal n) }
    ensures err { OnErr result (out.new.items ≡ out.old.items) }
{
    let mut digits = [0u8; MOST_DIGITS];
    let first = fill_from_end(n, &mut digits);
    out.extend_from_slice(&digits[first..])
}

/// Writes the digits of a number to the end of the array, and tells where they begin.
fn fill_from_end(n: u64, digits: &mut [u8; MOST_DIGITS]) -> usize
    ensures within { result ≤ MOST_DIGITS }
    ensures digits { drop result digits.new ≡ decimal n }
{
    let mut rest = n;
    let mut first = MOST_DIGITS;
    while rest >= 10 {
        first -= 1;
        digits[first] = b'0' + (rest % 10) as u8;
        rest /= 10;
    }
    first -= 1;
    digits[first] = b'0' + rest as u8;
    first
}

/// The number whose decimal text this is, and `None` where it is that of no number below 2^64.
pub fn read_decimal(text: &[u8]) -> Option<u64>
    ensures read { IfSome result (λ n. text.now ≡ decimal n) }
    ensures none { IfNone result ((n : ℕ) → n < 2 ^ 64 → text.now ≡ decimal n → ⊥) }
{
    if has_spare_zero(text) {
        return None;
    }
    value_of_digits(text)
}

/// There is no octet at all, or a zero that other octets follow.
fn has_spare_zero(text: &[u8]) -> bool
    ensures { MatchBool result
        ((length text.now ≡ 0) ⊎ ((1 < length text.now) × (slice_index text.now 0 ≡ 48)))
        (0 < length text.now × (slice_index text.now 0 ≡ 48 → length text.now ≡ 1)) }
{
    text.is_empty() || (text.len() > 1 && text[0] == b'0')
}

/// The value of a text of digits, and `None` where there is another octet or the value needs more than 64 bits.
fn value_of_digits(text: &[u8]) -> Option<u64>
    ensures digits { IfSome result
        (λ n. AllDigits 10 text.now × (digits_value 10 text.now ≡ n) × (n < 2 ^ 64)) }
    ensures none { IfNone result (AllDigits 10 text.now → 2 ^ 64 ≤ digits_value 10 text.now) }
{
    let mut value = 0u64;
    for octet in text {
        if !octet.is_ascii_digit() {
            return None;
        }
        let Some(more) = with_digit(value, *octet - b'0') else {
            return None;
        };
        value = more;
    }
    Some(value)
}

/// A number with one more digit at its end, where it still fits.
fn with_digit(value: u64, digit: u8) -> Option<u64>
    ensures { SomeIff result (value * 10 + digit < 2 ^ 64) (value * 10 + digit) }
{
    value.checked_mul(10)?.checked_add(u64::from(digit))
}
