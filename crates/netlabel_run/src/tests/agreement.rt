//! Hops compared: worked scripts, each cause of status 2, versions at both sides of their bounds, and calls that fail. Meanings are worked by hand from the
//! pairs and readings of the scripts.

use super::gates::exchanging;
use super::{USAGE, answers, folder, words_of};
use crate::top::netlabel;
use label_flow::OpenGate;
use net_io::{MemoryDepot, MemorySink};
use std::alloc::Global;
use std::process::Abort;
use std::sync::Wait;
use std::thread::Threads;
use worked_values::scripts::CROSSING;

/// Words on the script `s` of four nodes, the status and the report. Its second flow has the first two hops.
const CROSSED: [(&str, u8, &str); 9] = [
    (
        "agree s 1",
        0,
        "hop 1 2 agree\nhop 2 3 agree\nhop 3 4 agree\nagree\n",
    ),
    ("agree s 2", 0, "hop 1 2 agree\nagree\n"),
    ("agree s 2 15,15", 0, "hop 1 2 agree\nagree\n"),
    ("agree s 3", 2, "script line 0 octet 0 NoFlow\n"),
    ("agree s 0", 2, "script line 0 octet 0 NoFlow\n"),
    ("agree s 4294967295", 2, "script line 0 octet 0 NoFlow\n"),
    // That there is no such flow comes before versions that aren't lawful.
    ("agree s 3 16", 2, "script line 0 octet 0 NoFlow\n"),
    (
        "agree s 1 15,15,15",
        2,
        "script line 0 octet 0 BadVersions\n",
    ),
    ("agree t 1", 3, ""),
];

/// Words on that script with commands behind its one flow, by which the third node exchanges two numbers: 16 and 17 take away the DOI, 18 gives it back.
const EXCHANGED: [(&str, u8, &str); 14] = [
    (
        "agree s 1",
        0,
        "hop 1 2 agree\nhop 2 3 agree\nhop 3 4 agree\nagree\n",
    ),
    (
        "agree s 1 15,15,19,19",
        0,
        "hop 1 2 agree\nhop 2 3 agree\nhop 3 4 disagree cipsov4 10 category 4 1 3\ndisagree\n",
    ),
    (
        "agree s 1 15,15,18,19",
        0,
        "hop 1 2 agree\nhop 2 3 agree\nhop 3 4 disagree cipsov4 10 category 4 1 3\ndisagree\n",
    ),
    (
        "agree s 1 15,15,17,19",
        0,
        "hop 1 2 agree\nhop 2 3 agree\nhop 3 4 agree\nagree\n",
    ),
    (
        "agree s 1 15,15,15,19",
        0,
        "hop 1 2 agree\nhop 2 3 agree\nhop 3 4 agree\nagree\n",
    ),
    (
        "agree s 1 19,19,19,19",
        0,
        "hop 1 2 agree\nhop 2 3 agree\nhop 3 4 disagree cipsov4 10 category 4 1 3\ndisagree\n",
    ),
    (
        "agree s 1 15,15,15,20",
        2,
        "script line 0 octet 0 BadVersions\n",
    ),
    (
        "agree s 1 14,15,15,15",
        2,
        "script line 0 octet 0 BadVersions\n",
    ),
    (
        "agree s 1 15,15,19,18",
        2,
        "script line 0 octet 0 BadVersions\n",
    ),
    (
        "agree s 1 16,15,19,19",
        2,
        "script line 0 octet 0 BadVersions\n",
    ),
    ("agree s 1 15", 2, "script line 0 octet 0 BadVersions\n"),
    (
        "agree s 1 15,15,15,15,15",
        2,
        "script line 0 octet 0 BadVersions\n",
    ),
    (
        "agree s 1 4294967295,4294967295,4294967295,4294967295",
        2,
        "script line 0 octet 0 BadVersions\n",
    ),
    ("agree s 2", 2, "script line 0 octet 0 NoFlow\n"),
];

/// Words, scripts, and the status and the report of each.
const SCRIPTS: [(&str, &str, u8, &str); 17] = [
    // One hop has no neighbour.
    ("agree s 1", "node r\nflow x - receive:r,e", 0, "agree\n"),
    ("agree s 1 0", "node r\nflow x - receive:r,e", 0, "agree\n"),
    (
        "agree s 1 1",
        "node r\nunlbl list\nflow x - receive:r,e",
        0,
        "agree\n",
    ),
    (
        "agree s 1 0",
        "node r\nunlbl list\nflow x - receive:r,e",
        2,
        "script line 0 octet 0 BadVersions\n",
    ),
    // Commands above the next flow may come beside a flow, and those below it may not.
    (
        "agree s 1 1",
        "node r\nflow x - receive:r,e\nunlbl list\nflow x - receive:r,e\nunlbl list",
        0,
        "agree\n",
    ),
    (
        "agree s 1 2",
        "node r\nflow x - receive:r,e\nunlbl list\nflow x - receive:r,e\nunlbl list",
        2,
        "script line 0 octet 0 BadVersions\n",
    ),
    // A command that is refused counts.
    (
        "agree s 2 1",
        "node r\nflow x - receive:r,e\nmap del default\nflow x - receive:r,e",
        0,
        "agree\n",
    ),
    // Nodes without a DOI in common agree.
    (
        "agree s 1",
        "node a\ncipsov4 add trans doi:1 tags:2 levels:5=0\nnode b\ncalipso add pass doi:1\nflow x - forward:a,e,e,d receive:b,e",
        0,
        "hop 1 2 agree\nagree\n",
    ),
    // A level on the wire, and what each node's own number means: 11 is 1 at the first node.
    (
        "agree s 1",
        "node a\ncipsov4 add trans doi:7 tags:1 levels:1=11\nnode b\ncipsov4 add pass doi:7 tags:1\nflow x - forward:a,e,e,d receive:b,e",
        0,
        "hop 1 2 disagree cipsov4 7 level 11 1 11\ndisagree\n",
    ),
    // Readings give both one meaning again, though their numbers differ.
    (
        "agree s 1",
        "node a\ncipsov4 add trans doi:7 tags:1 levels:1=11 categories:5=7\nreading categories:5=100,100=5\nnode b\ncipsov4 add trans doi:7 tags:1 levels:1=11 categories:6=7\nreading categories:6=100,100=6\nflow x - forward:a,e,e,d receive:b,e",
        0,
        "hop 1 2 agree\nagree\n",
    ),
    // CALIPSO carries the categories up to 1951 alone.
    (
        "agree s 1",
        "node a\ncalipso add pass doi:9\nnode b\ncalipso add pass doi:9\nreading categories:3000=3001,3001=3000\nflow x - forward:a,e,e,d receive:b,e",
        0,
        "hop 1 2 agree\nagree\n",
    ),
    (
        "agree s 1",
        "node a\ncalipso add pass doi:9\nnode b\ncalipso add pass doi:9\nreading categories:1951=1952,1952=1951\nflow x - forward:a,e,e,d receive:b,e",
        0,
        "hop 1 2 disagree calipso 9 category 1951 1951 1952\ndisagree\n",
    ),
    // Each two hops have a line: the first ones differ, the next don't.
    (
        "agree s 1",
        "node a\ncalipso add pass doi:4294967295\nreading levels:255=300\nnode b\ncalipso add pass doi:4294967295\nflow x - forward:a,e,e,d forward:b,e,e,d receive:b,e",
        0,
        "hop 1 2 disagree calipso 4294967295 level 255 300 255\nhop 2 3 agree\ndisagree\n",
    ),
    // A node is its own neighbour, under two versions of its tables.
    (
        "agree s 1 1,3",
        "node a\ncipsov4 add trans doi:7 tags:1 levels:1=11\nflow x - forward:a,e,e,d receive:a,e\ncipsov4 del doi:7\ncipsov4 add trans doi:7 tags:1 levels:2=11",
        0,
        "hop 1 2 disagree cipsov4 7 level 11 1 2\ndisagree\n",
    ),
    // Faults and limits of the script come first.
    (
        "agree s 1",
        "node a\u{1}",
        2,
        "script line 1 octet 6 Octet\n",
    ),
    (
        "agree s 0 7",
        "map list",
        2,
        "script line 1 octet 0 NoNode\n",
    ),
    ("agree s 1", "", 2, "script line 0 octet 0 NoFlow\n"),
];

/// Words that are no form, of which one has an empty word at its end.
const NO_FORMS: [&str; 16] = [
    "agree s",
    "agree -s 1",
    "agree -s 1 15",
    "agree s s",
    "agree s 01",
    "agree s -1",
    "agree s +1",
    "agree s 4294967296",
    "agree s 1 ",
    "agree s 1 15,",
    "agree s 1 ,15",
    "agree s 1 15,,15",
    "agree s 1 015,15",
    "agree s 1 4294967296",
    "agree s 1 15,15 15",
    "agree s 1 -w 4",
];

/// Whether each of the words ends so on this script.
fn agrees_so<R: Abort + Threads + Wait + Sync>(
    rt: &R,
    alloc: Global,
    script: &str,
    calls: &[(&str, u8, &str)],
) {
    let mut depot = folder(rt, alloc, 0, 4096, "s", script.as_bytes());
    for (line, status, text) in calls {
        let is_so = answers(rt, alloc, line, &mut depot, 0, *status, text.as_bytes());
        assert!(rt; is_so, "at {line}");
    }
}

#[test]
fn compares_hops(rt: HostRuntime) {
    let alloc = rt.alloc();
    agrees_so(&rt, alloc, CROSSING, &CROSSED);
    let script = exchanging(&rt, alloc);
    agrees_so(&rt, alloc, script.as_str(), &EXCHANGED);
    for (line, script, status, text) in SCRIPTS {
        agrees_so(&rt, alloc, script, &[(line, status, text)]);
    }
    for line in NO_FORMS {
        agrees_so(&rt, alloc, CROSSING, &[(line, 1, USAGE)]);
    }
}

/// The words, which read and which write fails (0: none), the status, and what is printed. The script is read by sevens, as the report is written.
const FAILURES: [(&str, u32, u32, u8, &str); 8] = [
    ("agree s 1", 1, 0, 3, ""),
    ("agree s 1", 50, 0, 3, ""),
    ("agree s 1", 0, 1, 4, ""),
    ("agree s 1", 0, 3, 4, "hop 1 2 agree\n"),
    // What decides has come first, and keeps its status where its line can't be printed.
    ("agree s 3", 0, 1, 2, ""),
    ("agree s 3", 0, 2, 2, "script "),
    ("agree s 1 15", 0, 1, 2, ""),
    ("agree s 01", 0, 1, 1, ""),
];

#[test]
fn tells_why_hops_are_not_compared(rt: HostRuntime) {
    let alloc = rt.alloc();
    for (line, read, write, status, text) in FAILURES {
        let mut depot = folder(&rt, alloc, read, 7, "s", CROSSING.as_bytes());
        let is_so = answers(&rt, alloc, line, &mut depot, write, status, text.as_bytes());
        assert!(rt; is_so, "at {line}, read {read}, write {write}");
    }
}

/// A limit that the script passes.
#[test]
fn keeps_to_limits(rt: HostRuntime) {
    let alloc = rt.alloc();
    let text = vec![in alloc; b' '; 1_048_577].expect(&rt, "there is memory");
    let mut depot = folder(&rt, alloc, 0, 4096, "s", &text);
    let limit = b"limit octets 1048576\n";
    assert!(rt; answers(&rt, alloc, "agree s 1", &mut depot, 0, 7, limit));
}

/// Whether the call has no versions of packets, and leaves the folder's one file as it was.
fn leaves_all<R: Abort + Threads + Wait + Sync>(
    rt: &R,
    alloc: Global,
    line: &str,
    depot: &mut MemoryDepot,
) -> bool {
    let mut sink = MemorySink::new(alloc, &[], 7).expect(rt, "there is memory");
    let words = words_of(rt, alloc, line);
    let outcome = netlabel(rt, alloc, &words, depot, &mut sink, &OpenGate);
    outcome.seen.flows().is_empty() && depot.get("s") == Some(CROSSING.as_bytes())
}

#[test]
fn makes_nothing(rt: HostRuntime) {
    let alloc = rt.alloc();
    let mut depot = folder(&rt, alloc, 0, 4096, "s", CROSSING.as_bytes());
    for (line, _, _) in CROSSED {
        assert!(rt; leaves_all(&rt, alloc, line, &mut depot), "at {line}");
    }
    assert!(rt; depot.get("far.pcap").is_none());
}
