//! Words of a line, each with its place.

ghost use Rattle.std.specs.Prelude.{◌≡◌, [], ◌∷◌, ◌++◌, filter, OnOk, OnErr};
ghost use Rattle.std.specs.List.{position};
ghost use Rattle.script_lines.specs.Octet.{is_blank};
ghost use Rattle.script_lines.specs.Word.{begins_comment, has_octets, words_of_line};

use mls_label::OutOfMemory;
use std::marker::Model;

/// A word of a line. Contracts see its place and its octets.
#[derive(Debug, Drop)]
pub struct Word<'a> {
    at: usize,
    text: &'a [u8],
}

impl<'a> Model for Word<'a> {
    ghost use Rattle.script_lines.specs.Word.{LineWord};

    ghost Value = { LineWord };

    ghost view = { λ w. record { at = w.at; text = w.text.now } };
}

impl<'a> Word<'a> {
    /// Where its first octet stands in the line, counted in octets from 0.
    pub fn at(&self) -> usize
        ensures { result ≡ self.now.at }
    {
        self.at
    }

    /// Its octets.
    pub fn text(&self) -> &'a [u8]
        ensures { result.now ≡ self.now.text }
    {
        self.text
    }
}

/// Gives the words of a line in the vector's room, in place of those that are there: what stands between spaces and tabs, up to
/// the first that begins with `#`. After an error there are none.
pub fn words_into<'a>(line: &'a [u8], words: &mut Vec<Word<'a>>) -> Result<(), OutOfMemory>
    ensures ok { OnOk result (words.new.items ≡ words_of_line line.now) }
    ensures err { OnErr result (words.new.items ≡ []) }
{
    words.clear();
    let appended = append_words(line, words);
    if appended.is_err() {
        words.clear();
    }
    appended
}

/// Appends the words of a line, or some of them where memory runs out.
fn append_words<'a>(line: &'a [u8], words: &mut Vec<Word<'a>>) -> Result<(), OutOfMemory>
    ensures { OnOk result (words.new.items ≡ words.old.items ++ words_of_line line.now) }
{
    let mut rest = line;
    let mut at = 0;
    while let Some(end) = blank_in(rest) {
        let text = &rest[..end];
        if begins_comment(text) {
            return Ok(());
        }
        append_word(Word { at, text }, words)?;
        at += end + 1;
        rest = &rest[end + 1..];
    }
    if begins_comment(rest) {
        return Ok(());
    }
    append_word(Word { at, text: rest }, words)
}

/// Appends a word that isn't empty.
fn append_word<'a>(word: Word<'a>, words: &mut Vec<Word<'a>>) -> Result<(), OutOfMemory>
    ensures { OnOk result
        (words.new.items ≡ words.old.items ++ filter (λ w. has_octets w.text) (word.entry ∷ [])) }
{
    if !word.text.is_empty() {
        words.push(word)?;
    }
    Ok(())
}

fn begins_comment(text: &[u8]) -> bool
    ensures { result ≡ begins_comment text.now }
{
    match text {
        [first, ..] => *first == b'#',
        [] => false,
    }
}

fn blank_in(text: &[u8]) -> Option<usize>
    ensures { result ≡ position (λ octet. is_blank octet) text.now }
{
    text.iter().position(|octet| is_blank(*octet))
}

fn is_blank(octet: u8) -> bool
    ensures { result ≡ is_blank octet }
{
    matches!(octet, b' ' | b'\t')
}
