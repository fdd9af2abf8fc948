//! Captures shown: both magics, both orders of octets, each link type, a tag of IEEE 802.1Q, made by hand from the libpcap file format;
//! captures of both formats that are cut at each octet, each of their faults, and calls that fail.

use super::packets::{LABELLED_4, LABELLED_6, PLAIN_4, TWICE_4};
use super::three::{BOTH, Change, Three};
use super::{answers, folder};
use std::alloc::{AllocError, Global};
use std::process::Abort;
use std::sync::Wait;
use std::thread::Threads;
use worked_values::octets_of;

/// `LABELLED_4` with a wrong checksum.
const BROKEN_4: [u8; 40] = [
    0x48, 0x00, 0x00, 0x28, 0x00, 0x00, 0x00, 0x00, 0x40, 0x11, 0x8d, 0xa0, 0x0a, 0x00, 0x00, 0x01,
    0x0a, 0x00, 0x00, 0x02, 0x86, 0x0b, 0x00, 0x00, 0x00, 0x10, 0x01, 0x05, 0x00, 0x02, 0x50, 0x00,
    0x03, 0xe8, 0x00, 0x35, 0x00, 0x08, 0x00, 0x00,
];

/// What stands in front of a packet, the packet, and what is printed of it.
type Case = (&'static [u8], &'static [u8], &'static str);

/// Packets alone.
const RAW: [Case; 6] = [
    (b"", &LABELLED_4, "cipsov4 doi 16 tag 1 s2:c1,c3 octet 20"),
    (b"", &PLAIN_4, "unlbl"),
    (b"", &LABELLED_6, "calipso doi 16 s2:c1,c3 octet 42"),
    (b"", &BROKEN_4, "BadHeader octet 10"),
    (b"", &TWICE_4, "BadOption octet 30"),
    (b"", b"", "BadHeader octet 0"),
];

/// Frames of Ethernet, from their two addresses on.
const ETHERNET: [Case; 7] = [
    (b"abcdefabcdef\x08\x06", b"\x00\x01\x08\x00", "NotIp"),
    (
        b"abcdefabcdef\x81\x00\x00\x09\x08\x00",
        &LABELLED_4,
        "cipsov4 doi 16 tag 1 s2:c1,c3 octet 20",
    ),
    (b"abcdefabcdef\x08\x00", &PLAIN_4, "unlbl"),
    (
        b"abcdefabcdef\x86\xdd",
        &LABELLED_6,
        "calipso doi 16 s2:c1,c3 octet 42",
    ),
    (
        b"abcdefabcdef\x81\x00\x00\x09\x81\x00\x00\x09\x08\x00",
        &PLAIN_4,
        "NotIp",
    ),
    (b"abcdefabcdef\x08\x00", &BROKEN_4, "BadHeader octet 10"),
    (b"abcdefabcdef\x08", b"", "NotIp"),
];

fn add_u32(file: &mut Vec<u8>, little: bool, n: u32) -> Result<(), AllocError> {
    if little {
        file.extend_from_slice(&n.to_le_bytes())
    } else {
        file.extend_from_slice(&n.to_be_bytes())
    }
}

fn add_header(file: &mut Vec<u8>, little: bool, nanos: bool, link: u32) -> Result<(), AllocError> {
    add_u32(file, little, if nanos { 0xA1B2_3C4D } else { 0xA1B2_C3D4 })?;
    add_u32(file, little, if little { 0x0004_0002 } else { 0x0002_0004 })?;
    file.extend_from_slice(&[9; 12])?;
    add_u32(file, little, link)
}

fn add_record(
    file: &mut Vec<u8>,
    little: bool,
    front: &[u8],
    packet: &[u8],
) -> Result<(), AllocError> {
    let count = u32::try_from(front.len().saturating_add(packet.len())).unwrap_or(0);
    for number in [1, 0, count, count] {
        add_u32(file, little, number)?;
    }
    file.extend_from_slice(front)?;
    file.extend_from_slice(packet)
}

/// A capture with these frames, and its report.
fn capture(
    alloc: Global,
    little: bool,
    nanos: bool,
    link: u32,
    cases: &[Case],
) -> Result<(Vec<u8>, String), AllocError> {
    let mut file = Vec::new(alloc);
    let mut report = String::new(alloc);
    add_header(&mut file, little, nanos, link)?;
    for (place, (front, packet, text)) in cases.iter().enumerate() {
        add_record(&mut file, little, front, packet)?;
        let number = place.saturating_add(1);
        report.push_str(format!(in alloc; "packet {number} {text}\n")?.as_str())?;
    }
    let count = cases.len();
    report.push_str(format!(in alloc; "end packets {count}\n")?.as_str())?;
    Ok((file, report))
}

/// Whether `show` on this file ends with this status and prints this report.
pub fn shows<R: Abort + Threads + Wait + Sync>(
    rt: &R,
    alloc: Global,
    file: &[u8],
    piece: usize,
    status: u8,
    report: &[u8],
) -> bool {
    let mut depot = folder(rt, alloc, 0, piece, "c.pcap", file);
    answers(rt, alloc, "show c.pcap", &mut depot, 0, status, report)
}

/// Whether frames of this link type are shown, in a capture with this order of octets and this unit of time.
fn shows_frames<R: Abort + Threads + Wait + Sync>(
    rt: &R,
    alloc: Global,
    little: bool,
    nanos: bool,
    link: u32,
) -> bool {
    let cases = if link == 1 {
        ETHERNET.as_slice()
    } else {
        RAW.as_slice()
    };
    let (file, report) = capture(alloc, little, nanos, link, cases).expect(rt, "there is memory");
    shows(rt, alloc, &file, 4096, 0, report.as_str().as_bytes())
}

#[test]
fn shows_frames_of_each_link_type(rt: HostRuntime) {
    let alloc = rt.alloc();
    for link in [1, 101, 228, 229] {
        for (little, nanos) in [(true, false), (true, true), (false, false), (false, true)] {
            assert!(rt;
                shows_frames(&rt, alloc, little, nanos, link),
                "of link type {link}"
            );
        }
    }
}

/// What is printed of three packets without a label.
const LINES: &str = "packet 1 unlbl\npacket 2 unlbl\npacket 3 unlbl\n";

/// The lines of so many of them.
fn lines_of(packets: usize) -> &'static str {
    LINES.get(..15 * packets.min(3)).unwrap_or("")
}

/// The octets of a capture of three packets.
fn octets_in(rt: &impl Abort, alloc: Global, three: &Three) -> Vec<u8> {
    octets_of(alloc, three.digits).expect(rt, "there is memory")
}

/// The status and the report of so many octets of that capture.
fn cut_report(alloc: Global, three: &Three, octets: usize) -> Result<(u8, String), AllocError> {
    let shown = three.packets_in(octets);
    let lines = lines_of(shown);
    if three.is_whole(octets) {
        Ok((0, format!(in alloc; "{lines}end packets {shown}\n")?))
    } else {
        Ok((
            5,
            format!(in alloc; "{lines}capture 1 octet {octets} Short\n")?,
        ))
    }
}

/// Whether so many octets of that capture are shown up to their end.
fn shows_cut<R: Abort + Threads + Wait + Sync>(
    rt: &R,
    alloc: Global,
    three: &Three,
    octets: usize,
) -> bool {
    let file = octets_in(rt, alloc, three);
    let part = file.get(..octets).unwrap_or(&[]);
    let (status, report) = cut_report(alloc, three, octets).expect(rt, "there is memory");
    shows(rt, alloc, part, 4096, status, report.as_str().as_bytes())
}

#[test]
fn shows_a_cut_capture_up_to_its_end(rt: HostRuntime) {
    for three in BOTH {
        for octets in 0..=three.length_of(3) {
            assert!(rt;
                shows_cut(&rt, rt.alloc(), &three, octets),
                "of {octets} octets"
            );
        }
    }
}

/// Whether `show` tells the fault of that capture with an octet changed.
fn shows_changed<R: Abort + Threads + Wait + Sync>(
    rt: &R,
    alloc: Global,
    three: &Three,
    change: &Change,
) -> bool {
    let (octet, value, packets, told) = *change;
    let mut file = octets_in(rt, alloc, three);
    if let Some(changed) = file.get_mut(octet) {
        *changed = value;
    }
    let lines = lines_of(packets);
    let report = format!(in alloc; "{lines}capture 1 {told}\n").expect(rt, "there is memory");
    shows(rt, alloc, &file, 9, 5, report.as_str().as_bytes())
}

#[test]
fn tells_the_first_fault_of_a_capture(rt: HostRuntime) {
    for three in BOTH {
        for change in three.changes {
            let (octet, value, _, _) = *change;
            assert!(rt;
                shows_changed(&rt, rt.alloc(), &three, change),
                "with {octet} as {value}"
            );
        }
    }
}

/// How many octets of a capture there are, which write fails (0: none), the status, and how many octets of the report are printed. All is
/// written by sevens.
type Failure = (usize, u32, u8, usize);

/// Of the whole capture, and of one that is cut in its third packet.
const FAILURES: [[Failure; 8]; 2] = [
    [
        (156, 1, 4, 0),
        (156, 9, 4, 56),
        (156, 10, 0, 59),
        (150, 1, 4, 0),
        (150, 5, 4, 28),
        (150, 6, 5, 30),
        (150, 9, 5, 51),
        (150, 10, 5, 56),
    ],
    [
        (240, 1, 4, 0),
        (240, 9, 4, 56),
        (240, 10, 0, 59),
        (234, 1, 4, 0),
        (234, 5, 4, 28),
        (234, 6, 5, 30),
        (234, 9, 5, 51),
        (234, 10, 5, 56),
    ],
];

/// Whether so many octets of that capture's report are printed, with this status, where the read and the write of these numbers fail
/// (0: none).
fn shows_up_to<R: Abort + Threads + Wait + Sync>(
    rt: &R,
    alloc: Global,
    three: &Three,
    read: u32,
    failure: &Failure,
) -> bool {
    let (length, write, status, count) = *failure;
    let file = octets_in(rt, alloc, three);
    let part = file.get(..length).unwrap_or(&[]);
    let (_, report) = cut_report(alloc, three, length).expect(rt, "there is memory");
    let printed = report.as_str().get(..count).unwrap_or("none");
    let mut depot = folder(rt, alloc, read, 7, "c.pcap", part);
    answers(
        rt,
        alloc,
        "show c.pcap",
        &mut depot,
        write,
        status,
        printed.as_bytes(),
    )
}

#[test]
fn tells_writes_that_fail(rt: HostRuntime) {
    for (three, failures) in BOTH.iter().zip(&FAILURES) {
        for failure in failures {
            let (length, write, _, _) = *failure;
            assert!(rt;
                shows_up_to(&rt, rt.alloc(), three, 0, failure),
                "of {length} octets, at write {write}"
            );
        }
    }
}

/// Whether the lines of no packet, of one, two or three are printed where the read of this number fails.
fn shows_some_lines<R: Abort + Threads + Wait + Sync>(
    rt: &R,
    alloc: Global,
    three: &Three,
    read: u32,
    length: usize,
) -> bool {
    let none = shows_up_to(rt, alloc, three, read, &(length, 0, 3, 0));
    let one = shows_up_to(rt, alloc, three, read, &(length, 0, 3, 15));
    let two = shows_up_to(rt, alloc, three, read, &(length, 0, 3, 30));
    let three = shows_up_to(rt, alloc, three, read, &(length, 0, 3, 45));
    none || one || two || three
}

/// How many reads of that capture there are. Where one fails, the lines of the packets before it are printed.
fn reads_that_fail<R: Abort + Threads + Wait + Sync>(rt: &R, alloc: Global, three: &Three) -> u32 {
    let length = three.length_of(3);
    for read in 1..100u32 {
        if shows_up_to(rt, alloc, three, read, &(length, 0, 0, 59)) {
            return read - 1;
        }
        assert!(rt;
            shows_some_lines(rt, alloc, three, read, length),
            "at read {read}"
        );
    }
    0
}

// All is read by sevens, and the end of the file is read once more behind the last packet; there a write that fails comes first.
#[test]
fn tells_reads_that_fail(rt: HostRuntime) {
    let alloc = rt.alloc();
    for three in BOTH {
        let last = reads_that_fail(&rt, alloc, &three);
        let length = three.length_of(3);
        assert!(rt; last as usize > length / 7);
        assert!(rt; shows_up_to(&rt, alloc, &three, last, &(length, 0, 3, 45)));
        assert!(rt; shows_up_to(&rt, alloc, &three, last, &(length, 3, 4, 14)));
    }
}
