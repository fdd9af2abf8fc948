//! The last word of a line, read octet by octet.
ghost use Rattle.std.specs.Prelude.{◌≡◌, ◌==◌, ◌<◌, ◌≤◌, ◌^◌, false, [], ◌∷◌, ◌++◌, length, take, get_or, IfOk, OnOk};
ghost use Rattle.std.specs.List.{list_any};
ghost use Rattle.call_report.specs.report_file.inside.Word.{with_digit, begin_number, behind_number, next_word, word_behind, is_digit};

use net_io::OutOfMemory;

/// What was read of a word: nothing that names versions; `-`; nothing yet, or numbers, each with its comma; or these and the digits of one
/// more.
#[derive(Clone, Copy, Debug, PartialEq, Eq)]
pub(crate) enum Word {
    Other,
    Dash,
    Begun,
    Number { value: u32 },
}

/// The most numbers that stand in front of the last one.
const MOST_IN_FRONT: usize = 15;

/// A number with one more digit, where it has no leading zero and is below 2^32.
fn with_digit(value: u32, digit: u8) -> Word
    requires { digit ≤ 9 }
    ensures { result ≡ with_digit value digit }
{
    let longer = u64::from(value) * 10 + u64::from(digit);
    if value > 0 && longer <= u64::from(u32::MAX) {
        return Word::Number {
            value: longer as u32,
        };
    }
    Word::Other
}

/// The word behind a blank, or behind a comma.
fn begin_number(versions: &[u32], octet: u8) -> Word
    ensures { result ≡ begin_number versions.now octet }
{
    if octet.is_ascii_digit() {
        return Word::Number {
            value: u32::from(octet - b'0'),
        };
    }
    if octet == b'-' && versions.is_empty() {
        Word::Dash
    } else {
        Word::Other
    }
}

/// The word behind digits; behind a comma their number joins the others.
fn behind_number(versions: &mut Vec<u32>, value: u32, octet: u8) -> Result<Word, OutOfMemory>
    ensures next { IfOk result (λ word. behind_number versions.old.items value octet
        ≡ record { word = word; versions = versions.new.items }) }
    ensures few { OnOk result
        (length versions.old.items ≤ 15 → length versions.new.items ≤ 15) }
{
    if octet.is_ascii_digit() {
        return Ok(with_digit(value, octet - b'0'));
    }
    if octet == b',' && versions.len() < MOST_IN_FRONT {
        versions.push(value)?;
        return Ok(Word::Begun);
    }
    Ok(Word::Other)
}

/// The word behind one octet more.
pub(crate) fn next_word(word: Word, versions: &mut Vec<u32>, octet: u8) -> Result<Word, OutOfMemory>
    ensures next { IfOk result (λ next. next_word
        (record { word = word; versions = versions.old.items }) octet
        ≡ record { word = next; versions = versions.new.items }) }
    ensures few { OnOk result
        (length versions.old.items ≤ 15 → length versions.new.items ≤ 15) }
{
    if octet == b' ' {
        versions.clear();
        return Ok(Word::Begun);
    }
    match word {
        Word::Other => Ok(Word::Other),
        Word::Dash => Ok(Word::Other),
        Word::Begun => Ok(begin_number(versions, octet)),
        Word::Number { value } => behind_number(versions, value, octet),
    }
}

/// Reads on to the line's end, and tells how many octets stand in front of it; all that there are where it isn't among them.
pub(crate) fn read_on(
    word: &mut Word,
    versions: &mut Vec<u32>,
    octets: &[u8],
) -> Result<usize, OutOfMemory>
    ensures within { IfOk result (λ count. count ≤ length octets.now) }
    ensures one { IfOk result
        (λ count. list_any (λ octet. octet == 10) (take count octets.now) ≡ false) }
    ensures ends { IfOk result
        (λ count. count < length octets.now → get_or octets.now count 0 ≡ 10) }
    ensures reads { IfOk result (λ count. word_behind
        (record { word = word.old; versions = versions.old.items }) (take count octets.now)
        ≡ record { word = word.new; versions = versions.new.items }) }
    ensures few { OnOk result
        (length versions.old.items ≤ 15 → length versions.new.items ≤ 15) }
{
    let mut count = 0;
    while count < octets.len() && octets[count] != b'\n' {
        *word = next_word(*word, versions, octets[count])?;
        count += 1;
    }
    Ok(count)
}
