//! Captures that are made: worked lines and octets, words that are no form, and calls that fail. Octets and counts are those of another
//! program.

use super::flows::{Ran, call, folder};
use super::{USAGE, words_of};
use crate::command::Command;
use crate::words::read_words;
use label_flow::OpenGate;
use mls_label::Label;
use net_io::DepotCall;
use std::alloc::Global;
use std::process::Abort;
use std::sync::Wait;
use std::thread::Threads;
use worked_values::octets_of;

/// Words, and the line that is printed.
const LINES: [(&str, &str); 4] = [
    ("make 1 0 m.pcap", "made 0 delivered 0 denied 0\n"),
    ("make 1 1 m.pcap", "made 1 delivered 0 denied 1\n"),
    (
        "make 18446744073709551615 12 m.pcap",
        "made 12 delivered 0 denied 12\n",
    ),
    (
        "make 7 3000 m.pcap",
        "made 3000 delivered 541 denied 2459\n",
    ),
];

/// The captures of one packet from 1, and of three from 7.
const ONE: &str =
    "d4c3b2a10200040000000000000000000000040065000000010000000000000028000000280000004800002800000000
401184860a0000ac0a000002860c0000001001060000576f03e8003500080000";

const THREE: &str =
    "d4c3b2a10200040000000000000000000000040065000000010000000000000028000000280000004800002800000000
401198bb0a0000bc0a000002860c0000001001060002432803e800350008000002000000000000002800000028000000
4800002800000000401136080a00007f0a000002860c0000001001060000a61a03e80035000800000300000000000000
280000002800000048000028000000004011c6e50a0000620a000002860c0000001001060000155a03e8003500080000";

/// The line of the three packets.
const THREE_LINE: &str = "made 3 delivered 1 denied 2\n";

/// Words that are no form.
const NO_FORMS: [&str; 14] = [
    "make",
    "make 1",
    "make 1 1",
    "make 1 1 m.pcap m.pcap",
    "make 18446744073709551616 1 m.pcap",
    "make 1 1048577 m.pcap",
    "make 01 1 m.pcap",
    "make 1 01 m.pcap",
    "make +1 1 m.pcap",
    "make 1 -1 m.pcap",
    "make 1 1x m.pcap",
    "make  1 m.pcap",
    "make 1 1 -m.pcap",
    "make 1 1 ",
];

/// Makes a capture in a folder by sevens with an old one, where the call of this number fails, and the write of this number (0: none).
fn made<R: Threads + Wait + Sync + Abort>(
    rt: &R,
    alloc: Global,
    line: &str,
    fails: u32,
    write: u32,
) -> Ran {
    let mut depot = folder(rt, alloc, "kept", fails);
    depot.put("m.pcap", b"old").expect(rt, "there is memory");
    call(rt, alloc, line, depot, write, &OpenGate)
}

/// What the capture holds is what these lines in hexadecimal say.
fn holds(rt: &impl Abort, alloc: Global, ran: &Ran, text: &str) -> bool {
    let octets = octets_of(alloc, text).expect(rt, "there is memory");
    ran.depot.get("m.pcap") == Some(octets.as_slice())
}

/// No flow was printed, and the other file holds what it held.
fn is_alone(ran: &Ran) -> bool {
    ran.seen.flows().is_empty() && ran.depot.get("s") == Some(b"kept".as_slice())
}

#[test]
fn makes_captures(rt: HostRuntime) {
    let alloc = rt.alloc();
    for (line, printed) in LINES {
        let ran = made(&rt, alloc, line, 0, 0);
        assert_eq!(rt; ran.status, 0, "at {line}");
        assert_eq!(rt; ran.printed.as_slice(), printed.as_bytes(), "at {line}");
        assert!(rt; is_alone(&ran), "at {line}");
    }
    let one = made(&rt, alloc, "make 1 1 m.pcap", 0, 0);
    assert!(rt; holds(&rt, alloc, &one, ONE));
    let three = made(&rt, alloc, "make 7 3 m.pcap", 0, 0);
    assert!(rt; holds(&rt, alloc, &three, THREE));
    assert_eq!(rt; three.printed.as_slice(), THREE_LINE.as_bytes());
}

#[test]
fn makes_the_same_each_time(rt: HostRuntime) {
    let alloc = rt.alloc();
    let first = made(&rt, alloc, "make 7 3000 m.pcap", 0, 0);
    let again = made(&rt, alloc, "make 7 3000 m.pcap", 0, 0);
    assert!(rt; first.printed.as_slice() == again.printed.as_slice());
    assert!(rt; first.depot.get("m.pcap") == again.depot.get("m.pcap"));
    let shown = call(&rt, alloc, "show m.pcap", first.depot, 0, &OpenGate);
    assert_eq!(rt; shown.status, 0);
    assert!(rt; shown.printed.ends_with(b"\nend packets 3000\n"));
}

#[test]
fn refuses_other_words(rt: HostRuntime) {
    let alloc = rt.alloc();
    for line in NO_FORMS {
        let ran = made(&rt, alloc, line, 0, 0);
        assert_eq!(rt; ran.status, 1, "at {line}");
        assert_eq!(rt; ran.printed.as_slice(), USAGE.as_bytes(), "at {line}");
        assert!(rt;
            is_alone(&ran) && ran.depot.get("m.pcap") == Some(b"old".as_slice()),
            "at {line}"
        );
    }
}

/// Whether words ask for a capture of so many packets from a number.
fn asks(rt: &impl Abort, alloc: Global, line: &str, number: u64, most: u32) -> bool {
    let words = words_of(rt, alloc, line);
    let mut label = Label::lowest();
    match read_words(&words, &mut label) {
        Some(Command::Make { seed, count, file }) => {
            seed == number && count == most && file.as_str() == "m.pcap"
        }
        _ => false,
    }
}

#[test]
fn takes_the_greatest_numbers(rt: HostRuntime) {
    let alloc = rt.alloc();
    let line = "make 18446744073709551615 1048576 m.pcap";
    assert!(rt; asks(&rt, alloc, line, u64::MAX, 1_048_576));
    assert!(rt; asks(&rt, alloc, "make 0 0 m.pcap", 0, 0));
}

/// The capture holds what it held, or some first octets of the three packets.
fn is_a_beginning(rt: &impl Abort, alloc: Global, ran: &Ran) -> bool {
    let three = octets_of(alloc, THREE).expect(rt, "there is memory");
    let held = ran.depot.get("m.pcap").unwrap_or(b"absent");
    held == b"old".as_slice() || three.starts_with(held)
}

#[test]
fn tells_each_call_that_fails(rt: HostRuntime) {
    let alloc = rt.alloc();
    let mut met = 0;
    for number in 1..1000u32 {
        let ran = made(&rt, alloc, "make 7 3 m.pcap", number, 0);
        let status = match ran.depot.failed() {
            Some(DepotCall::Append) => 4,
            Some(_) => 3,
            None => 0,
        };
        assert_eq!(rt; ran.status, status, "at call {number}");
        assert!(rt; is_a_beginning(&rt, alloc, &ran), "at call {number}");
        assert!(rt; is_alone(&ran), "at call {number}");
        if status == 0 {
            break;
        }
        assert!(rt; ran.printed.is_empty(), "at call {number}");
        assert_eq!(rt; status == 3, number == 1, "at call {number}");
        met = number;
    }
    // The file is made once, its 192 octets are written by sevens, and it is ended.
    assert!(rt; met == 30);
}

#[test]
fn tells_an_end_of_the_file_that_fails(rt: HostRuntime) {
    let alloc = rt.alloc();
    let ran = made(&rt, alloc, "make 7 3 m.pcap", 30, 0);
    assert!(rt; ran.status == 4 && ran.printed.is_empty());
    assert!(rt; holds(&rt, alloc, &ran, THREE));
}

/// Which write fails (0: none), the status, and how many octets of the line are printed, by sevens.
const WRITES: [(u32, u8, usize); 6] = [
    (0, 0, 28),
    (1, 4, 0),
    (2, 4, 7),
    (3, 4, 14),
    (4, 4, 21),
    (5, 0, 28),
];

#[test]
fn tells_each_write_that_fails(rt: HostRuntime) {
    let alloc = rt.alloc();
    for (write, status, count) in WRITES {
        let ran = made(&rt, alloc, "make 7 3 m.pcap", 0, write);
        assert_eq!(rt; ran.status, status, "at write {write}");
        assert!(rt;
            THREE_LINE.as_bytes().starts_with(&ran.printed),
            "at write {write}"
        );
        assert_eq!(rt; ran.printed.len(), count, "at write {write}");
        assert!(rt; holds(&rt, alloc, &ran, THREE), "at write {write}");
    }
}
