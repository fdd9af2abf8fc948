//! Calls over a folder and a stream in memory: links in `links`, words, versions and calls that fail in `words`.

mod links;
mod words;

use net_io::{MemoryDepot, MemorySink};
use static_law::*;
use std::alloc::Global;
use std::process::Abort;

const USAGE: &str = "usage: netlabel_cover <script> <flow> [<versions>]\n";

/// The words of a line, which single spaces part.
fn words_of(rt: &impl Abort, alloc: Global, line: &str) -> Vec<String> {
    let mut words = Vec::new(alloc);
    for word in line.split(' ') {
        let word = String::from_str(alloc, word).expect(rt, "there is memory");
        words.push(word).expect(rt, "there is memory");
    }
    words
}

/// The status over a folder with this script in `s` and what is printed, where the read and the write of these numbers fail (0: none).
fn told(
    rt: &impl Abort,
    alloc: Global,
    line: &str,
    script: &str,
    read: u32,
    write: u32,
) -> (u8, Vec<u8>) {
    let mut depot = MemoryDepot::new(alloc, &[read], 100).expect(rt, "there is memory");
    depot
        .put("s", script.as_bytes())
        .expect(rt, "there is memory");
    let mut sink = MemorySink::new(alloc, &[write], 7).expect(rt, "there is memory");
    let words = words_of(rt, alloc, line);
    let status = cover(alloc, &words, &mut depot, &mut sink);
    (
        status,
        Vec::from_slice(alloc, sink.bytes()).expect(rt, "there is memory"),
    )
}

/// Whether the call ends with this status and has printed this text.
fn answers(
    rt: &impl Abort,
    alloc: Global,
    line: &str,
    script: &str,
    status: u8,
    text: &str,
) -> bool {
    let (got, printed) = told(rt, alloc, line, script, 0, 0);
    got == status && printed.as_slice() == text.as_bytes()
}
