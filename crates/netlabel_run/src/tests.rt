//! Worked words and failing calls, over a folder and a stream in memory; packets stand in `packets`, captures in
//! `shown`, those of the pcapng format in `pcapng`, one in both formats in `three`, those that are made in `making`, scripts in `scripts`,
//! hops that are compared in `agreement`, flows that run in `flows` and `gates`.

mod agreement;
mod flows;
mod gates;
mod making;
mod packets;
mod pcapng;
mod scripts;
mod shown;
mod three;

use crate::top::netlabel;
use label_flow::OpenGate;
use net_io::{MemoryDepot, MemorySink};
use std::alloc::Global;
use std::process::Abort;
use std::sync::Wait;
use std::thread::Threads;

const USAGE: &str =
    "usage: netlabel run <script> [-w <n>] | judge <doi> <level> <file> | check <script> | show <capture> | agree <script> <flow> [<versions>] | make <number> <count> <capture>\n";

/// The words of a line, which single spaces part.
fn words_of(rt: &impl Abort, alloc: Global, line: &str) -> Vec<String> {
    let mut words = Vec::new(alloc);
    for word in line.split(' ') {
        let word = String::from_str(alloc, word).expect(rt, "there is memory");
        words.push(word).expect(rt, "there is memory");
    }
    words
}

/// A folder with this file.
fn folder(
    rt: &impl Abort,
    alloc: Global,
    read: u32,
    piece: usize,
    name: &str,
    octets: &[u8],
) -> MemoryDepot {
    let mut depot = MemoryDepot::new(alloc, &[read], piece.max(1)).expect(rt, "there is memory");
    depot.put(name, octets).expect(rt, "there is memory");
    depot
}

/// The status and what is printed, where the write of this number fails (0: none).
fn run<R: Abort + Threads + Wait + Sync>(
    rt: &R,
    alloc: Global,
    line: &str,
    depot: &mut MemoryDepot,
    write: u32,
) -> (u8, Vec<u8>) {
    let mut sink = MemorySink::new(alloc, &[write], 7).expect(rt, "there is memory");
    let words = words_of(rt, alloc, line);
    let outcome = netlabel(rt, alloc, &words, depot, &mut sink, &OpenGate);
    (
        outcome.status,
        Vec::from_slice(alloc, sink.bytes()).expect(rt, "there is memory"),
    )
}

/// Whether the call ends with this status and has printed this text, where the write of this number fails (0: none).
fn answers<R: Abort + Threads + Wait + Sync>(
    rt: &R,
    alloc: Global,
    line: &str,
    depot: &mut MemoryDepot,
    write: u32,
    status: u8,
    text: &[u8],
) -> bool {
    let (got, printed) = run(rt, alloc, line, depot, write);
    got == status && printed.as_slice() == text
}

/// Words of each form over a folder with one packet in `p.bin`, the status, and what is printed.
const FORMS: [(&str, u8, &str); 13] = [
    ("judge 16 s2:c0.c5 p.bin", 0, "delivered s2:c1,c3\n"),
    ("judge 16 s2:c3,c1,c1 p.bin", 0, "delivered s2:c1,c3\n"),
    ("judge 16 s255:c0.c65534 p.bin", 0, "delivered s2:c1,c3\n"),
    (
        "judge 4294967295 s2 p.bin",
        0,
        "denied 5 UnknownDoi octet 22\n",
    ),
    ("judge 16 s2 absent.bin", 3, ""),
    ("show p.bin", 5, "capture 1 octet 0 Magic\n"),
    ("show absent.bin", 3, ""),
    ("check p.bin", 2, "script line 1 octet 1 Octet\n"),
    ("check absent.bin", 3, ""),
    ("agree p.bin 1", 2, "script line 1 octet 1 Octet\n"),
    ("agree absent.bin 0 1,2", 3, ""),
    ("run p.bin", 2, "script line 1 octet 1 Octet\n"),
    ("run absent.bin -w 16", 3, ""),
];

/// Words that are no form.
const NO_FORMS: [&str; 17] = [
    "judge 0 s2 p.bin",
    "judge 016 s2 p.bin",
    "judge 4294967296 s2 p.bin",
    "judge 16 s256 p.bin",
    "judge 16 s2: p.bin",
    "judge 16 s2 -p.bin",
    "judge 16 s2",
    "judge 16 s2 p.bin p.bin",
    "show",
    "show -p.bin",
    "show p.bin p.bin",
    "check -p.bin",
    "check p.bin p.bin",
    "agree p.bin",
    "agree p.bin 1 1,",
    "run p.bin -w 17",
    "",
];

#[test]
fn answers_words(rt: HostRuntime) {
    let alloc = rt.alloc();
    let mut depot = folder(&rt, alloc, 0, 4096, "p.bin", &packets::LABELLED_4);
    for (line, status, text) in FORMS {
        let is_so = answers(&rt, alloc, line, &mut depot, 0, status, text.as_bytes());
        assert!(rt; is_so, "at {line}");
    }
    for line in NO_FORMS {
        let is_so = answers(&rt, alloc, line, &mut depot, 0, 1, USAGE.as_bytes());
        assert!(rt; is_so, "at {line}");
    }
}

/// So many octets that are 0.
fn zeros(rt: &impl Abort, alloc: Global, count: usize) -> Vec<u8> {
    vec![in alloc; 0u8; count].expect(rt, "there is memory")
}

/// Whether `judge` answers a file of so many zeros with this status and text, where the write of this number fails (0: none).
fn judges_zeros<R: Abort + Threads + Wait + Sync>(
    rt: &R,
    alloc: Global,
    count: usize,
    write: u32,
    status: u8,
    text: &[u8],
) -> bool {
    let octets = zeros(rt, alloc, count);
    let mut depot = folder(rt, alloc, 0, 4096, "p.bin", &octets);
    answers(
        rt,
        alloc,
        "judge 16 s2 p.bin",
        &mut depot,
        write,
        status,
        text,
    )
}

#[test]
fn judges_files_of_each_length(rt: HostRuntime) {
    let alloc = rt.alloc();
    let header = b"denied 1 BadHeader octet 0\n";
    assert!(rt; judges_zeros(&rt, alloc, 0, 0, 0, header));
    assert!(rt; judges_zeros(&rt, alloc, 65575, 0, 0, header));
    assert!(rt; judges_zeros(&rt, alloc, 65576, 0, 7, b"limit packet 65575\n"));
    // An event that came first keeps its status when printing it fails.
    assert!(rt; judges_zeros(&rt, alloc, 65576, 1, 7, b""));
    let mut depot = folder(&rt, alloc, 0, 4096, "p.bin", &packets::LABELLED_4);
    assert!(rt; answers(&rt, alloc, "judge", &mut depot, 1, 1, b""));
}

/// Which read and which write fails (0: none), the status, and what is printed. Reads and writes are counted apart. The packet is read by
/// twos, the line is written by sevens.
const FAILURES: [(u32, u32, u8, &str); 5] = [
    (1, 0, 3, ""),
    (21, 0, 3, ""),
    (0, 1, 4, ""),
    (0, 3, 4, "delivered s2:c"),
    (0, 4, 0, "delivered s2:c1,c3\n"),
];

#[test]
fn tells_failed_calls(rt: HostRuntime) {
    let alloc = rt.alloc();
    for (read, write, status, text) in FAILURES {
        let mut depot = folder(&rt, alloc, read, 2, "p.bin", &packets::LABELLED_4);
        let line = "judge 16 s2:c0.c5 p.bin";
        let is_so = answers(&rt, alloc, line, &mut depot, write, status, text.as_bytes());
        assert!(rt; is_so, "at read {read}, write {write}");
    }
}
