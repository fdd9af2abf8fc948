//! What no clause says: that calls succeed with ample memory, how many reads they cost, and lines worked by hand.

ghost use Rattle.call_report.specs.report_file.File.{KeepsPart};

use call_report::*;
use net_io::{Depot, IoFault, MemoryDepot};
use std::alloc::Global;
use std::process::Abort;

const REPORT: &[u8] =
    b"flow 1 a.pcap\npacket 1.1 sent unlbl versions 3,14\npacket 1.2 denied 22 NotIp hop 0 node - versions -\nend 1";

/// A place, a text, and how it compares with what the report has there.
const MEETINGS: [(u64, &str, Met); 12] = [
    (0, "", Met::Stands),
    (0, "flow 1 a.pcap\n", Met::Stands),
    (5, "1 a", Met::Stands),
    (0, "flow 2 a.pcap\n", Met::Differs { lines: 0 }),
    (
        0,
        "flow 1 a.pcap\npacket 1.1 sent unlbl versions 3,14\npacket",
        Met::Stands,
    ),
    (
        0,
        "flow 1 a.pcap\npacket 1.1 sent unlbl versions 3,15\npacket",
        Met::Differs { lines: 1 },
    ),
    (
        0,
        "flow 1 a.pcap\npacket 1.1 sent unlbl versions 3,14\npackets",
        Met::Differs { lines: 2 },
    ),
    (0, "flow 1 a.pcap \n", Met::Differs { lines: 0 }),
    (101, "end 1", Met::Stands),
    (101, "end 1\n", Met::Differs { lines: 0 }),
    (106, "", Met::Stands),
    (106, "\n", Met::Differs { lines: 0 }),
];

// The report's file beside this folder, of which nothing is read yet.
fn opened<D: Depot>(rt: &impl Abort, alloc: Global, depot: &D) -> ReportFile
    ensures { KeepsPart (D.state depot.now) result }
{
    let _folder = depot;
    let Ok(report) = ReportFile::new(alloc, "r") else {
        panic!(rt; "a window")
    };
    report
}

#[test]
fn texts_meet_the_report(rt: HostRuntime) {
    for piece in [1, 7, 1_000_000] {
        let mut depot = MemoryDepot::new(rt.alloc(), &[], piece).expect(&rt, "memory");
        depot.put("r", REPORT).expect(&rt, "memory");
        for (at, text, met) in MEETINGS {
            let mut report = opened(&rt, rt.alloc(), &depot);
            let found = report.meets(&mut depot, at, text.as_bytes());
            assert_eq!(rt; found, Ok(met));
        }
    }
}

/// What stands in the report, and the versions that its first line names at its end.
const NAMED: [(&str, Option<&[u32]>); 25] = [
    ("packet 1.1 sent unlbl versions 3,14\nend", Some(&[3, 14])),
    (" 0\n", Some(&[0])),
    (" -\n", Some(&[])),
    (" 4294967295\n", Some(&[4_294_967_295])),
    (
        " 1,2,3,4,5,6,7,8,9,10,11,12,13,14,15,16\n",
        Some(&[1, 2, 3, 4, 5, 6, 7, 8, 9, 10, 11, 12, 13, 14, 15, 16]),
    ),
    ("0 1 2\n3", Some(&[2])),
    (" 7 \n", None),
    (" 4294967296\n", None),
    (" 99999999999999999999\n", None),
    (" 1,2,3,4,5,6,7,8,9,10,11,12,13,14,15,16,17\n", None),
    (" 00\n", None),
    (" 3,04\n", None),
    (" 3,\n", None),
    (" ,3\n", None),
    (" 3,,4\n", None),
    (" --\n", None),
    (" -1\n", None),
    (" 3,-\n", None),
    (" 3x\n", None),
    (" 3:4\n", None),
    (" 3/4\n", None),
    ("3\n", None),
    ("\n 3\n", None),
    (" 3", None),
    ("", None),
];

#[test]
fn lines_name_versions(rt: HostRuntime) {
    let mut versions = Vec::new(rt.alloc());
    for piece in [1, 1_000_000] {
        for (text, wanted) in NAMED {
            let mut depot = MemoryDepot::new(rt.alloc(), &[], piece).expect(&rt, "memory");
            depot.put("r", text.as_bytes()).expect(&rt, "memory");
            let mut report = opened(&rt, rt.alloc(), &depot);
            let named = report.versions_at(&mut depot, 0, &mut versions);
            assert_eq!(rt; named, Ok(wanted.is_some()));
            if let Some(wanted) = wanted {
                assert_eq!(rt; versions.as_slice(), wanted);
            }
        }
    }
}

/// So many blanks in front of a line's last word, whose line ends behind a window's first octets, in the next one, or behind that.
const BLANKS: [usize; 5] = [0, 4_000, 65_534, 65_536, 200_000];

#[test]
fn long_lines_go_past_a_window(rt: HostRuntime) {
    for blanks in BLANKS {
        let mut text = vec![in rt.alloc(); b' '; blanks].expect(&rt, "memory");
        text.extend_from_slice(b"x 12,3\nend\n")
            .expect(&rt, "memory");
        let mut depot = MemoryDepot::new(rt.alloc(), &[], 1_000_000).expect(&rt, "memory");
        depot.put("r", &text).expect(&rt, "memory");
        let mut report = opened(&rt, rt.alloc(), &depot);
        let mut versions = Vec::new(rt.alloc());
        let named = report.versions_at(&mut depot, 0, &mut versions);
        let stands = report.meets(&mut depot, 0, &text);
        text.push(b'y').expect(&rt, "memory");
        let longer = report.meets(&mut depot, 0, &text);
        assert_eq!(rt; named, Ok(true));
        assert_eq!(rt; versions.as_slice(), [12, 3].as_slice());
        assert_eq!(rt; stands, Ok(Met::Stands));
        assert_eq!(rt; longer, Ok(Met::Differs { lines: 2 }));
    }
}

/// The most octets that are asked for, and whether the report of 106 octets has more.
const LENGTHS: [(u64, bool); 5] = [
    (0, true),
    (105, true),
    (106, false),
    (107, false),
    (268_435_456, false),
];

#[test]
fn a_report_is_longer_or_not(rt: HostRuntime) {
    let mut depot = MemoryDepot::new(rt.alloc(), &[], 1_000_000).expect(&rt, "memory");
    depot.put("r", REPORT).expect(&rt, "memory");
    let report = ReportFile::new(rt.alloc(), "r").expect(&rt, "a window");
    for (most, longer) in LENGTHS {
        assert_eq!(rt; report.is_longer(&mut depot, most), Ok(longer));
    }
    assert_eq!(rt; report.is_longer(&mut depot, 106), Ok(false));
    let absent = ReportFile::new(rt.alloc(), "s").expect(&rt, "a window");
    assert_eq!(rt; absent.is_longer(&mut depot, 0), Err(IoFault::Failed));
}

/// The second call on the folder fails: the first window serves all that stands in it.
#[test]
fn a_window_is_read_once(rt: HostRuntime) {
    let mut depot = MemoryDepot::new(rt.alloc(), &[2], 1_000_000).expect(&rt, "memory");
    let text = vec![in rt.alloc(); b'a'; 70_000].expect(&rt, "memory");
    depot.put("r", &text).expect(&rt, "memory");
    let mut report = opened(&rt, rt.alloc(), &depot);
    let first = report.meets(&mut depot, 0, b"aaaaaa");
    let held = report.meets(&mut depot, 60_000, b"aaaaaa");
    let behind = report.meets(&mut depot, 65_534, b"aaaaaa");
    assert_eq!(rt; first, Ok(Met::Stands));
    assert_eq!(rt; held, Ok(Met::Stands));
    assert_eq!(rt; behind, Err(IoFault::Failed));
}
