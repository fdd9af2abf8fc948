//! Calls over a folder and a stream in memory: packets that cross both ways, what is refused before anything is made, captures that are broken,
//! and calls that fail. Packets and captures are worked by hand from RFC 791 and the file format of libpcap.

use crate::border;
use mls_label::write_decimal;
use net_io::{MemoryDepot, MemorySink};
use std::alloc::Global;
use std::process::Abort;
use worked_values::octets_of;
use worked_values::packets::CAPTURE_HEAD;

const USAGE: &str = "usage: ripso_border in|out <script> <doi> <input> <output>\n";

const BORDER: &str =
    "node border\ncipsov4 add trans doi:16 tags:1 levels:0=171,2=90 categories:1=0\n";

/// What `c` holds before a call: no capture.
const HELD: &str = "0f";

/// Words over the files `s`, `b` and `c`: what the first two hold, the status, what is printed, and what `c` holds then. Files are in hexadecimal
/// digits, but for the script.
struct Case {
    words: &'static str,
    script: &'static str,
    capture: &'static str,
    status: u8,
    printed: &'static str,
    made: &'static str,
}

const CROSSED: [Case; 9] = [
    // What was worked by hand.
    Case {
        words: "in s 16 b c",
        script: BORDER,
        capture: "d4c3b2a10200040000000000000000000000040065000000010000000000000020000000200000004600002000000000401189460a0000010a00000282045a8003e8003500080000",
        status: 0,
        printed: "packet 1 written\nend packets 1 passed 1 denied 0\n",
        made: "d4c3b2a1020004000000000000000000000004006500000001000000000000002800000028000000480000280000000040119ca00a0000010a000002860b0000001001050002400003e8003500080000",
    },
    // And back.
    Case {
        words: "out s 16 b c",
        script: BORDER,
        capture: "d4c3b2a1020004000000000000000000000004006500000001000000000000002800000028000000480000280000000040119ca00a0000010a000002860b0000001001050002400003e8003500080000",
        status: 0,
        printed: "packet 1 written\nend packets 1 passed 1 denied 0\n",
        made: "d4c3b2a10200040000000000000000000000040065000000010000000000000020000000200000004600002000000000401189460a0000010a00000282045a8003e8003500080000",
    },
    // Frames of Ethernet in a capture of the other order, in nanoseconds.
    Case {
        words: "in s 16 b c",
        script: BORDER,
        capture: "a1b23c4d0002000400000000000000000000000900000001000000013b9ac9ff00000012000000120a0b0c0d0e0f010203040506080600000000000000023b9ac9fe00000032000000320a0b0c0d0e0f0102030405068100000708004600002000000000401189460a0000010a00000282045a8003e8003500080000000000033b9ac9fd0000003e0000003e0a0b0c0d0e0f01020304050686dd600000000008113ffd000000000000000000000000000001fd00000000000000000000000000000203e80035000801bd000000043b9ac9fc00000036000000360a0b0c0d0e0f0102030405060800480000280000000040118ca00a0000010a000002860b0000001001050002500003e8003500080000000000053b9ac9fb00000032000000320a0b0c0d0e0f0102030405060800470000240000000040115b3e0a0000010a00000282045a808203ab0003e8003500080000000000063b9ac9fa0000002e0000002e0a0b0c0d0e0f01020304050608004600002000000000401138c70a0000010a0000028203ab0003e8003500080000",
        status: 0,
        printed: "packet 1 denied 22 NotIp\npacket 2 written\npacket 3 denied 19 WrongVersion\npacket 4 denied 14 AlreadyLabelled octet 20\npacket 5 denied 2 BadOption octet 24\npacket 6 written\nend packets 6 passed 2 denied 4\n",
        made: "4d3cb2a1020004000000000000000000000004006500000002000000fec99a3b2800000028000000480000280000000040119ca00a0000010a000002860b0000001001050002400003e800350008000006000000fac99a3b280000002800000048000028000000004011dca40a0000010a000002860a0000001001040000000003e8003500080000",
    },
    // Out, each for a reason of its own.
    Case {
        words: "out s 16 b c",
        script: BORDER,
        capture: "d4c3b2a102000400000000000000000000000400e4000000000000000000000020000000200000004600002000000000401189460a0000010a00000282045a8003e800350008000001000000000000002800000028000000480000280000000040119ca80a0000010a000002860b0000000801050002400003e800350008000002000000000000002800000028000000480000280000000040118ca00a0000010a000002860b0000001001050002500003e800350008000003000000000000002800000028000000480000280000000001111ba50a0000010a000002860a0000001001040000000003e800350008000004000000000000003000000030000000600000000008113ffd000000000000000000000000000001fd00000000000000000000000000000203e80035000801bd",
        status: 0,
        printed: "packet 1 denied 3 Unlabelled\npacket 2 denied 5 UnknownDoi octet 22\npacket 3 denied 15 Inexpressible\npacket 4 written\npacket 5 denied 19 WrongVersion\nend packets 5 passed 1 denied 4\n",
        made: "d4c3b2a10200040000000000000000000000040065000000030000000000000020000000200000004600002000000000011177c70a0000010a0000028203ab0003e8003500080000",
    },
    // No packet.
    Case {
        words: "in s 16 b c",
        script: BORDER,
        capture: "4d3cb2a10200040000000000000000000000040065000000",
        status: 0,
        printed: "end packets 0 passed 0 denied 0\n",
        made: "4d3cb2a10200040000000000000000000000040065000000",
    },
    // All commands are carried out, and flows aren't looked at; another node's definition isn't taken.
    Case {
        words: "in s 16 b c",
        script: "node border\ncipsov4 add pass doi:16 tags:1\nnode other\ncipsov4 add trans doi:16 tags:1 levels:7=90 categories:7=0\nflow absent - receive:border,eth0\nnode border\ncipsov4 del doi:16\ncipsov4 add trans doi:16 tags:1 levels:0=171,2=90 categories:1=0\n",
        capture: "d4c3b2a10200040000000000000000000000040065000000010000000000000020000000200000004600002000000000401189460a0000010a00000282045a8003e8003500080000",
        status: 0,
        printed: "packet 1 written\nend packets 1 passed 1 denied 0\n",
        made: "d4c3b2a1020004000000000000000000000004006500000001000000000000002800000028000000480000280000000040119ca00a0000010a000002860b0000001001050002400003e8003500080000",
    },
    // A definition that passes all numbers.
    Case {
        words: "in s 16 b c",
        script: "node border\ncipsov4 add pass doi:16 tags:1\n",
        capture: "d4c3b2a10200040000000000000000000000040065000000010000000000000020000000200000004600002000000000401189460a0000010a00000282045a8003e8003500080000",
        status: 0,
        printed: "packet 1 written\nend packets 1 passed 1 denied 0\n",
        made: "d4c3b2a1020004000000000000000000000004006500000001000000000000002800000028000000480000280000000040115c480a0000010a000002860b000000100105005a800003e8003500080000",
    },
    // A capture that is cut behind a packet.
    Case {
        words: "in s 16 b c",
        script: BORDER,
        capture: CUT,
        status: 5,
        printed: "packet 1 written\ncapture 1 octet 119 Short\n",
        made: "d4c3b2a1020004000000000000000000000004006500000001000000000000002800000028000000480000280000000040119ca00a0000010a000002860b0000001001050002400003e8003500080000",
    },
    // A packet that was cut when it was captured, behind one that is denied.
    Case {
        words: "out s 16 b c",
        script: BORDER,
        capture: "d4c3b2a10200040000000000000000000000040065000000010000000000000020000000200000004600002000000000401189460a0000010a00000282045a8003e800350008000001000000000000002800000029000000480000280000000040119ca00a0000010a000002860b0000001001050002400003e8003500080000",
        status: 5,
        printed: "packet 1 denied 3 Unlabelled\ncapture 1 octet 80 SnapCut\n",
        made: "d4c3b2a10200040000000000000000000000040065000000",
    },
];

/// What is told before the output is made.
const REFUSED: [Case; 12] = [
    // The output is the input.
    Case {
        words: "in s 16 b b",
        script: BORDER,
        capture: "d4c3b2a10200040000000000000000000000040065000000010000000000000020000000200000004600002000000000401189460a0000010a00000282045a8003e8003500080000",
        status: 2,
        printed: "script line 0 octet 0 NameTwice\n",
        made: HELD,
    },
    // It is the script, and the first node doesn't define the DOI.
    Case {
        words: "out s 17 b s",
        script: BORDER,
        capture: "d4c3b2a10200040000000000000000000000040065000000010000000000000020000000200000004600002000000000401189460a0000010a00000282045a8003e8003500080000",
        status: 2,
        printed: "script line 0 octet 0 NameTwice\n",
        made: HELD,
    },
    // The script's own fault comes first.
    Case {
        words: "in s 16 b b",
        script: "node border\nfrob\n",
        capture: "d4c3b2a10200040000000000000000000000040065000000010000000000000020000000200000004600002000000000401189460a0000010a00000282045a8003e8003500080000",
        status: 2,
        printed: "script line 2 octet 0 Word\n",
        made: HELD,
    },
    // Another DOI; the input is absent.
    Case {
        words: "in s 17 absent c",
        script: BORDER,
        capture: "d4c3b2a10200040000000000000000000000040065000000010000000000000020000000200000004600002000000000401189460a0000010a00000282045a8003e8003500080000",
        status: 2,
        printed: "script line 0 octet 0 NoDoi\n",
        made: HELD,
    },
    // The second node defines it.
    Case {
        words: "in s 16 b c",
        script: "node a\nnode border\ncipsov4 add trans doi:16 tags:1 levels:0=171,2=90 categories:1=0\n",
        capture: "d4c3b2a10200040000000000000000000000040065000000010000000000000020000000200000004600002000000000401189460a0000010a00000282045a8003e8003500080000",
        status: 2,
        printed: "script line 0 octet 0 NoDoi\n",
        made: HELD,
    },
    // The last command takes it away.
    Case {
        words: "in s 16 b c",
        script: "node border\ncipsov4 add trans doi:16 tags:1 levels:0=171,2=90 categories:1=0\ncipsov4 del doi:16\n",
        capture: "d4c3b2a10200040000000000000000000000040065000000010000000000000020000000200000004600002000000000401189460a0000010a00000282045a8003e8003500080000",
        status: 2,
        printed: "script line 0 octet 0 NoDoi\n",
        made: HELD,
    },
    // No node.
    Case {
        words: "in s 16 b c",
        script: "",
        capture: "d4c3b2a10200040000000000000000000000040065000000010000000000000020000000200000004600002000000000401189460a0000010a00000282045a8003e8003500080000",
        status: 2,
        printed: "script line 0 octet 0 NoDoi\n",
        made: HELD,
    },
    // A script that passes a limit.
    Case {
        words: "in s 16 b c",
        script: "node r\nflow b - forward:r,e,e,d forward:r,e,e,d forward:r,e,e,d forward:r,e,e,d forward:r,e,e,d forward:r,e,e,d forward:r,e,e,d forward:r,e,e,d forward:r,e,e,d forward:r,e,e,d forward:r,e,e,d forward:r,e,e,d forward:r,e,e,d forward:r,e,e,d forward:r,e,e,d forward:r,e,e,d forward:r,e,e,d\n",
        capture: "d4c3b2a10200040000000000000000000000040065000000010000000000000020000000200000004600002000000000401189460a0000010a00000282045a8003e8003500080000",
        status: 7,
        printed: "limit hops 16\n",
        made: HELD,
    },
    // No script.
    Case {
        words: "in absent 16 b c",
        script: BORDER,
        capture: "d4c3b2a10200040000000000000000000000040065000000010000000000000020000000200000004600002000000000401189460a0000010a00000282045a8003e8003500080000",
        status: 3,
        printed: "",
        made: HELD,
    },
    // No input.
    Case {
        words: "in s 16 absent c",
        script: BORDER,
        capture: "d4c3b2a10200040000000000000000000000040065000000010000000000000020000000200000004600002000000000401189460a0000010a00000282045a8003e8003500080000",
        status: 3,
        printed: "",
        made: HELD,
    },
    // A capture of the other format.
    Case {
        words: "in s 16 b c",
        script: BORDER,
        capture: "0a0d0d0a1c0000004d3c2b1a01000000ffffffffffffffff1c000000",
        status: 5,
        printed: "capture 1 octet 0 Magic\n",
        made: HELD,
    },
    // A capture whose header is cut.
    Case {
        words: "out s 16 b c",
        script: BORDER,
        capture: "d4c3b2a102000400000000000000000000000400650000",
        status: 5,
        printed: "capture 1 octet 23 Short\n",
        made: HELD,
    },
];

/// Words that are no form.
const NO_FORMS: [&str; 9] = [
    "in s 16 b",
    "in s 16 b c d",
    "In s 16 b c",
    "by s 16 b c",
    "in s 0 b c",
    "in s 016 b c",
    "out s 4294967296 b c",
    "out s 16 -b c",
    "",
];

/// A capture of a packet that goes in, and what is made of it.
const ONE: &str =
    "d4c3b2a10200040000000000000000000000040065000000010000000000000020000000200000004600002000000000401189460a0000010a00000282045a8003e8003500080000";

const ONE_MADE: &str =
    "d4c3b2a1020004000000000000000000000004006500000001000000000000002800000028000000480000280000000040119ca00a0000010a000002860b0000001001050002400003e8003500080000";

const ONE_PRINTED: &str = "packet 1 written\nend packets 1 passed 1 denied 0\n";

/// The call of the folder that fails, the status, what is printed, and what the output holds.
const CALLS: [(u32, u8, &str, &str); 8] = [
    // The script is read, and its end.
    (1, 3, "", HELD),
    (2, 3, "", HELD),
    // The input's beginning is read, and then the output made.
    (3, 3, "", HELD),
    (4, 3, "", HELD),
    // The next read, after a packet's line, the append, and the end of the output.
    (5, 3, "packet 1 written\n", ""),
    (6, 4, "", ""),
    (7, 4, "", ONE_MADE),
    (8, 0, ONE_PRINTED, ONE_MADE),
];

/// A script and a capture, the write that fails, of which each takes 7 octets, the status, what is printed, and what the output holds.
const WRITES: [(&str, &str, u32, u8, &str, &str); 8] = [
    (BORDER, ONE, 1, 4, "", ONE_MADE),
    (BORDER, ONE, 2, 4, "packet ", ONE_MADE),
    (BORDER, ONE, 8, 0, ONE_PRINTED, ONE_MADE),
    // A packet's line, and then the line of the event, which has decided.
    (BORDER, CUT, 3, 4, "packet 1 writt", ONE_MADE),
    (BORDER, CUT, 4, 5, "packet 1 written\n", ONE_MADE),
    (BORDER, CUT, 5, 5, "packet 1 written\ncapture", ONE_MADE),
    ("frob\n", ONE, 2, 2, "script ", HELD),
    ("node r\n", ONE, 3, 2, "script line 0 ", HELD),
];

/// A capture that ends in a record after a packet.
const CUT: &str =
    "d4c3b2a10200040000000000000000000000040065000000010000000000000020000000200000004600002000000000401189460a0000010a00000282045a8003e8003500080000010000000000000020000000200000004600002000000000401189460a0000010a00000282045a8003e80035000800";

/// Of 1000 packets: the call of the folder that fails, how many lines are printed, and how many octets the output holds.
const APPENDS: [(u32, u64, usize); 5] = [
    (5, 0, 0),
    (6, 0, 16432),
    // A piece of the report was printed.
    (7, 868, 32840),
    // The rest of the output: neither the rest of the lines nor the report's end is printed.
    (9, 868, 49248),
    // The end of the output, which is whole.
    (10, 868, 56024),
];

/// A packet that goes in, in a capture.
const RECORD: &str =
    "010000000000000020000000200000004600002000000000401189460a0000010a00000282045a8003e8003500080000";

/// The words of a line, which single spaces part.
fn words_of(rt: &impl Abort, alloc: Global, line: &str) -> Vec<String> {
    let mut words = Vec::new(alloc);
    for word in line.split(' ') {
        let word = String::from_str(alloc, word).expect(rt, "there is memory");
        words.push(word).expect(rt, "there is memory");
    }
    words
}

/// What a call ends with, what it prints, and what `c` holds then.
#[derive(Drop)]
struct Told {
    status: u8,
    printed: Vec<u8>,
    made: Vec<u8>,
}

/// Calls the program over a folder with these files, where the call of the folder and the write of these numbers fail (0: none).
fn outcome(
    rt: &impl Abort,
    alloc: Global,
    line: &str,
    script: &str,
    capture: &[u8],
    call: u32,
    write: u32,
) -> Told {
    let mut depot = MemoryDepot::new(alloc, &[call], 100_000).expect(rt, "there is memory");
    let held = octets_of(alloc, HELD).expect(rt, "there is memory");
    depot
        .put("s", script.as_bytes())
        .expect(rt, "there is memory");
    depot.put("b", capture).expect(rt, "there is memory");
    depot.put("c", &held).expect(rt, "there is memory");
    let mut sink = MemorySink::new(alloc, &[write], 7).expect(rt, "there is memory");
    let words = words_of(rt, alloc, line);
    let status = border(alloc, &words, &mut depot, &mut sink);
    let made = depot.get("c").expect(rt, "it is there");
    Told {
        status,
        printed: Vec::from_slice(alloc, sink.bytes()).expect(rt, "there is memory"),
        made: Vec::from_slice(alloc, made).expect(rt, "there is memory"),
    }
}

/// Whether each case is told so.
fn all_told(rt: &impl Abort, alloc: Global, cases: &[Case]) {
    for case in cases {
        let capture = octets_of(alloc, case.capture).expect(rt, "there is memory");
        let made = octets_of(alloc, case.made).expect(rt, "there is memory");
        let told = outcome(rt, alloc, case.words, case.script, &capture, 0, 0);
        assert_eq!(rt; told.status, case.status);
        assert!(rt; told.printed.as_slice() == case.printed.as_bytes());
        assert!(rt; told.made.as_slice() == made.as_slice());
    }
}

/// A capture of a packet that goes in, so many times.
fn capture_of(rt: &impl Abort, alloc: Global, count: u32) -> Vec<u8> {
    let record = octets_of(alloc, RECORD).expect(rt, "there is memory");
    let mut file = octets_of(alloc, CAPTURE_HEAD).expect(rt, "there is memory");
    for _packet in 0..count {
        file.extend_from_slice(&record)
            .expect(rt, "there is memory");
    }
    file
}

/// The lines of so many packets that are all written.
fn lines_of(rt: &impl Abort, alloc: Global, count: u64) -> Vec<u8> {
    let mut text = Vec::new(alloc);
    for number in 0..count {
        text.extend_from_slice(b"packet ")
            .expect(rt, "there is memory");
        write_decimal(number + 1, &mut text).expect(rt, "there is memory");
        text.extend_from_slice(b" written\n")
            .expect(rt, "there is memory");
    }
    text
}

#[test]
fn packets_cross_both_ways(rt: HostRuntime) {
    all_told(&rt, rt.alloc(), &CROSSED);
}

#[test]
fn refuses_before_the_output_is_made(rt: HostRuntime) {
    all_told(&rt, rt.alloc(), &REFUSED);
    let capture = octets_of(rt.alloc(), ONE).expect(&rt, "there is memory");
    for words in NO_FORMS {
        let told = outcome(&rt, rt.alloc(), words, BORDER, &capture, 0, 0);
        assert!(rt;
            told.status == 1 && told.printed.as_slice() == USAGE.as_bytes(),
            "{words}"
        );
    }
}

#[test]
fn tells_what_fails(rt: HostRuntime) {
    let capture = octets_of(rt.alloc(), ONE).expect(&rt, "there is memory");
    for (call, status, printed, made) in CALLS {
        let told = outcome(&rt, rt.alloc(), "in s 16 b c", BORDER, &capture, call, 0);
        let made = octets_of(rt.alloc(), made).expect(&rt, "there is memory");
        assert!(rt;
            told.status == status && told.printed.as_slice() == printed.as_bytes(),
            "{call}"
        );
        assert!(rt; told.made.as_slice() == made.as_slice(), "{call}");
    }
    for (script, capture, write, status, printed, made) in WRITES {
        let capture = octets_of(rt.alloc(), capture).expect(&rt, "there is memory");
        let told = outcome(&rt, rt.alloc(), "in s 16 b c", script, &capture, 0, write);
        let made = octets_of(rt.alloc(), made).expect(&rt, "there is memory");
        assert!(rt;
            told.status == status && told.printed.as_slice() == printed.as_bytes(),
            "{write} {printed}"
        );
        assert!(rt;
            told.made.as_slice() == made.as_slice(),
            "{write} {printed}"
        );
    }
}

#[test]
fn prints_no_end_after_an_append_that_fails(rt: HostRuntime) {
    let capture = capture_of(&rt, rt.alloc(), 1000);
    for (call, count, size) in APPENDS {
        let told = outcome(&rt, rt.alloc(), "in s 16 b c", BORDER, &capture, call, 0);
        assert_eq!(rt; (told.status, told.made.len()), (4, size), "{call}");
        let lines = lines_of(&rt, rt.alloc(), count);
        assert!(rt; told.printed.as_slice() == lines.as_slice(), "{call}");
    }
}
