//! Lines of texts, and words of lines.

use crate::checks::same;
use script_lines::{Word, next_line, words_into};
use std::alloc::Global;
use std::process::Abort;

/// A text, and its lines, each with `|` behind it.
const LINES: &[(&str, &str)] = &[
    ("", ""),
    ("\n", "|"),
    ("a", "a|"),
    ("a\n", "a|"),
    ("a\n\nb\n", "a||b|"),
    ("a\r\nb\r\n", "a|b|"),
    ("a\r\r\nb", "a\r|b|"),
    ("a\rb\r", "a\rb\r|"),
];

/// A line, how many words it has, and the last of them with its place.
const WORDS: &[(&str, usize, usize, &str)] = &[
    ("", 0, 0, ""),
    (" \t ", 0, 0, ""),
    ("node a", 2, 5, "a"),
    ("\t node\t\ta  ", 2, 8, "a"),
    ("map list # all", 2, 4, "list"),
    ("map list #", 2, 4, "list"),
    ("# map", 0, 0, ""),
    ("map#list a#", 2, 9, "a#"),
];

/// The lines of a text, each with `|` behind it.
fn lines_of(rt: &impl Abort, alloc: Global, text: &[u8]) -> Vec<u8> {
    let mut found = Vec::new(alloc);
    let mut rest = text;
    while let Some((line, behind)) = next_line(rest) {
        append_line(rt, line, &mut found);
        rest = behind;
    }
    found
}

fn append_line(rt: &impl Abort, line: &[u8], found: &mut Vec<u8>) {
    found.extend_from_slice(line).expect(rt, "memory");
    found.push(b'|').expect(rt, "memory");
}

#[test]
fn cuts_texts_into_lines(rt: HostRuntime) {
    for &(text, wanted) in LINES {
        let found = lines_of(&rt, rt.alloc(), text.as_bytes());
        same(&rt, text, found.as_slice(), wanted.as_bytes());
    }
}

/// How many words there are, and the last of them.
fn are_words(
    rt: &impl Abort,
    words: &[Word<'_>],
    (line, count, at, text): (&str, usize, usize, &str),
) {
    same(rt, line, words.len(), count);
    if let Some(word) = words.last() {
        same(rt, line, word.at(), at);
        same(rt, line, word.text(), text.as_bytes());
    }
}

#[test]
fn cuts_lines_into_words(rt: HostRuntime) {
    let mut words = Vec::new(rt.alloc());
    for &case in WORDS {
        words_into(case.0.as_bytes(), &mut words).expect(&rt, "memory");
        are_words(&rt, &words, case);
    }
}
