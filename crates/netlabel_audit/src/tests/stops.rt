//! Words, scripts, captures and calls that fail. Where two things are wrong, the one that is tested first is told.

use super::{USAGE, answers, folder, told};
use std::alloc::Global;
use std::process::Abort;

/// A node and one command.
const NODE: &str = "node r\nmap add default protocol:unlbl\n";

/// Words that are no form.
const NO_FORMS: [&str; 14] = [
    "", "s", "s r", "s r 1 1", "s r 0", "s r 17", "s r 01", "s r 1x", "s r -1", "s r one", "s r ",
    "-s r 1", "s -r 1", "s #r 1",
];

#[test]
fn tells_its_form(rt: HostRuntime) {
    for words in NO_FORMS {
        assert!(rt;
            answers(&rt, rt.alloc(), words, NODE, "", 1, USAGE),
            "{words}"
        );
    }
}

/// Words, the script, the status and what is printed. There is a report, which isn't read.
const SCRIPTS: [(&str, &str, u8, &str); 5] = [
    ("s r 1", "frob\n", 2, "script line 1 octet 0 Word\n"),
    (
        "s r 1",
        "node r\nunlbl accept of\n",
        2,
        "script line 2 octet 13 Word\n",
    ),
    (
        "s r 16",
        "node r\nflow one.pcap one.pcap receive:r,eth0\n",
        2,
        "script line 2 octet 14 NameTwice\n",
    ),
    ("s absent 1", "frob\n", 2, "script line 1 octet 0 Word\n"),
    ("absent r 1", "", 3, ""),
];

#[test]
fn tells_what_a_script_lacks(rt: HostRuntime) {
    for (words, script, status, text) in SCRIPTS {
        assert!(rt;
            answers(&rt, rt.alloc(), words, script, "", status, text),
            "{text}"
        );
    }
}

/// Words, the captures of a script's flows with blanks between, the status and what is printed. The report isn't one of a run.
const CAPTURES: [(&str, &str, u8, &str); 12] = [
    ("s r 1", "cut.pcap", 5, "capture 1 octet 150 Short\n"),
    ("s r 1", "bad.pcap", 5, "capture 1 octet 0 Magic\n"),
    ("s r 1", "bad.pcapng", 5, "capture 1 octet 24 Trailer\n"),
    (
        "s r 1",
        "one.pcap two.pcap cut.pcap",
        5,
        "capture 3 octet 150 Short\n",
    ),
    (
        "s r 1",
        "one.pcapng bad.pcapng bad.pcap",
        5,
        "capture 2 octet 24 Trailer\n",
    ),
    ("s r 1", "cut.pcap absent", 5, "capture 1 octet 150 Short\n"),
    ("s r 1", "absent cut.pcap", 3, ""),
    ("s r 1", "one.pcap absent", 3, ""),
    ("s absent 1", "cut.pcap", 3, ""),
    ("s s 1", "cut.pcap", 5, "capture 1 octet 150 Short\n"),
    ("s r 1", "s", 5, "capture 1 octet 0 Magic\n"),
    ("s r 1", "one.pcap r", 5, "capture 2 octet 3 Short\n"),
];

/// A script with a flow over each of these captures.
fn receiving(rt: &impl Abort, alloc: Global, captures: &str) -> String {
    let mut script = String::from_str(alloc, NODE).expect(rt, "there is memory");
    for capture in captures.split(' ') {
        script.push_str("flow ").expect(rt, "there is memory");
        script.push_str(capture).expect(rt, "there is memory");
        script
            .push_str(" - receive:r,eth0\n")
            .expect(rt, "there is memory");
    }
    script
}

#[test]
fn tells_what_a_capture_lacks(rt: HostRuntime) {
    for (words, captures, status, text) in CAPTURES {
        let script = receiving(&rt, rt.alloc(), captures);
        assert!(rt;
            answers(
                &rt,
                rt.alloc(),
                words,
                script.as_str(),
                "no\n",
                status,
                text
            ),
            "{text}"
        );
    }
}

/// A script, and the report of its run.
const SCRIPT: &str = "node r\nmap add default protocol:unlbl\nflow one.pcap - receive:r,eth0\n";

const REPORT: &str =
    "command 1 r done\nflow 1 one.pcap\npacket 1.1 denied 3 Unlabelled hop 1 node r versions 1\nend 1 packets 1 passed 0 denied 1\ndone\n";

/// Which write fails (0: none), the script, the report, the status, and what is printed. Lines are written by sevens. The line of an event
/// that came first keeps its status where printing it fails.
const WRITES: [(u32, &str, &str, u8, &str); 7] = [
    (0, SCRIPT, REPORT, 0, "yes\n"),
    (1, SCRIPT, REPORT, 4, ""),
    (0, SCRIPT, "x\n", 8, "no line 1\n"),
    (1, SCRIPT, "x\n", 4, ""),
    (2, SCRIPT, "x\n", 4, "no line"),
    (1, "frob\n", "", 2, ""),
    (2, "frob\n", "", 2, "script "),
];

#[test]
fn tells_failed_writes(rt: HostRuntime) {
    for (write, script, report, status, text) in WRITES {
        let depot = folder(&rt, rt.alloc(), script, report, 0, 4096);
        let (got, printed) = told(&rt, rt.alloc(), "s r 1", depot, write);
        assert!(rt;
            got == status && printed.as_slice() == text.as_bytes(),
            "{write} {text}"
        );
    }
    let depot = folder(&rt, rt.alloc(), "", "", 0, 4096);
    let (status, printed) = told(&rt, rt.alloc(), "s r", depot, 1);
    assert!(rt; status == 1 && printed.is_empty());
}

/// With pieces of this length the call reads 12 times: the script, the report and the capture, and the two again.
const READS: u32 = 12;

/// Whichever read fails, nothing is printed.
#[test]
fn tells_failed_reads(rt: HostRuntime) {
    for read in 1..=READS {
        let depot = folder(&rt, rt.alloc(), SCRIPT, REPORT, read, 4096);
        let (status, printed) = told(&rt, rt.alloc(), "s r 1", depot, 0);
        assert!(rt; status == 3 && printed.is_empty(), "read {read}");
    }
    for (read, piece) in [(READS + 1, 4096), (0, 1), (0, 7)] {
        let depot = folder(&rt, rt.alloc(), SCRIPT, REPORT, read, piece);
        let (status, printed) = told(&rt, rt.alloc(), "s r 1", depot, 0);
        assert!(rt; status == 0 && printed.as_slice() == "yes\n".as_bytes());
    }
}
