//! What no clause says: whole captures worked by hand, fault places, how many reads a window costs, and that calls succeed.
ghost use Rattle.std.specs.Prelude.{◌≡◌, ◌≤◌, length};
ghost use Rattle.net_io.specs.Memory.{memory_state};
ghost use Rattle.pcap_frames.specs.Reader.{IsReady};

use crate::checks::{holds, same};
use net_io::{Depot, IoFault, MemoryDepot};
use pcap_frames::*;
use std::alloc::Global;
use std::process::Abort;

/// An IPv4 packet of 28 octets.
const PACKET: [u8; 28] = [
    0x45, 0, 0, 0x1c, 0, 0, 0x40, 0, 0x40, 0x11, 0x26, 0xcf, 10, 0, 0, 1, 10, 0, 0, 2, 3, 0xe8, 0,
    0x35, 0, 8, 0xe7, 0xbe,
];

const HEAD: FrameHead = FrameHead {
    seconds: 0x0102_0304,
    fraction: 0xfffe_fdfc,
};

fn add(rt: &impl Abort, file: &mut Vec<u8>, octets: &[u8]) {
    file.extend_from_slice(octets).expect(rt, "memory");
}

fn add_u32(rt: &impl Abort, file: &mut Vec<u8>, order: OctetOrder, n: u32) {
    match order {
        OctetOrder::Little => add(rt, file, &n.to_le_bytes()),
        OctetOrder::Big => add(rt, file, &n.to_be_bytes()),
    }
}

fn add_header(rt: &impl Abort, file: &mut Vec<u8>, order: OctetOrder, nanos: bool, link: u32) {
    add_u32(
        rt,
        file,
        order,
        if nanos { 0xA1B2_3C4D } else { 0xA1B2_C3D4 },
    );
    match order {
        OctetOrder::Little => add(rt, file, &[2, 0, 4, 0]),
        OctetOrder::Big => add(rt, file, &[0, 2, 0, 4]),
    }
    add(rt, file, &[9; 12]);
    add_u32(rt, file, order, link);
}

fn add_record(rt: &impl Abort, file: &mut Vec<u8>, order: OctetOrder, octets: &[u8])
    requires { length octets.now ≤ 262144 }
{
    add_u32(rt, file, order, HEAD.seconds);
    add_u32(rt, file, order, HEAD.fraction);
    add_u32(rt, file, order, octets.len() as u32);
    add_u32(rt, file, order, octets.len() as u32);
    add(rt, file, octets);
}

/// A capture of raw IP with some records of `PACKET`.
fn capture(rt: &impl Abort, alloc: Global, order: OctetOrder, records: u32) -> Vec<u8> {
    let mut file = Vec::new(alloc);
    add_header(rt, &mut file, order, false, 101);
    for _ in 0..records {
        add_record(rt, &mut file, order, &PACKET);
    }
    file
}

/// A folder with one file, of which a call moves at most a piece, and the calls of these numbers fail.
fn folder(rt: &impl Abort, alloc: Global, file: &[u8], fail: &[u32], piece: usize) -> MemoryDepot
    requires { 1 ≤ piece }
{
    let mut depot = MemoryDepot::new(alloc, fail, piece).expect(rt, "memory");
    depot.put("c.pcap", file).expect(rt, "memory");
    depot
}

/// What the calls of a reader give up to the first that gives no frame.
#[derive(Clone, Copy, Debug, PartialEq, Eq)]
struct Given {
    frames: u32,
    octets: usize,
    stop: Option<FrameStop>,
}

fn read_on(frames: &mut Frames, depot: &mut MemoryDepot, into: &mut Vec<u8>) -> Given
    requires { IsReady (memory_state depot.old) frames.old }
    ensures { IsReady (memory_state depot.new) frames.new }
{
    let mut given = Given {
        frames: 0,
        octets: 0,
        stop: None,
    };
    for _turn in 0..2000u32 {
        match frames.next(depot, into) {
            Ok(Some(_)) => {
                given.frames = given.frames.saturating_add(1);
                given.octets = given.octets.saturating_add(into.len());
            }
            Ok(None) => return given,
            Err(stop) => {
                given.stop = Some(stop);
                return given;
            }
        }
    }
    given
}

/// Whether the next frames have the first so many of these octets.
fn frames_are(
    frames: &mut Frames,
    depot: &mut MemoryDepot,
    into: &mut Vec<u8>,
    octets: &[u8],
    counts: &[usize],
) -> bool
    requires { IsReady (memory_state depot.old) frames.old }
    ensures { IsReady (memory_state depot.new) frames.new }
{
    for count in counts {
        if frames.next(depot, into) != Ok(Some(HEAD)) {
            return false;
        }
        if into.len() != *count || !octets.starts_with(into) {
            return false;
        }
    }
    true
}

/// Appends a record to the file in which a reader stands.
fn grow(
    frames: &Frames,
    depot: &mut MemoryDepot,
    name: &str,
    record: &[u8],
) -> Result<usize, IoFault>
    requires ready { IsReady (memory_state depot.old) frames.now }
    requires named { frames.now.name ≡ name.now }
    ensures { IsReady (memory_state depot.new) frames.now }
{
    depot.append(name, record)
}

/// What a reader gives of a file, read by pieces.
fn read_file(rt: &impl Abort, alloc: Global, file: &[u8], piece: usize) -> Given
    requires { 1 ≤ piece }
{
    let mut depot = folder(rt, alloc, file, &[], piece);
    let mut into = Vec::new(alloc);
    match Frames::begin(alloc, &mut depot, "c.pcap") {
        Ok(mut frames) => read_on(&mut frames, &mut depot, &mut into),
        Err(stop) => Given {
            frames: 0,
            octets: 0,
            stop: Some(stop),
        },
    }
}

fn fault(octet: u64, kind: CaptureKind) -> Option<FrameStop> {
    Some(FrameStop::Capture(CaptureFault { octet, kind }))
}

fn is_read(rt: &impl Abort, alloc: Global, order: OctetOrder, nanos: bool, link: u32) {
    let mut file = Vec::new(alloc);
    add_header(rt, &mut file, order, nanos, link);
    add_record(rt, &mut file, order, &PACKET);
    add_record(rt, &mut file, order, &[]);
    add_record(rt, &mut file, order, &PACKET[..1]);
    let mut depot = folder(rt, alloc, &file, &[], 7);
    let mut frames = Frames::begin(alloc, &mut depot, "c.pcap").expect(rt, "a reader");
    same(rt, order, (frames.link(), frames.nanos()), (link, nanos));
    let mut into = Vec::new(alloc);
    let are = frames_are(&mut frames, &mut depot, &mut into, &PACKET, &[28, 0, 1]);
    holds(rt, link, are);
    same(rt, link, frames.next(&mut depot, &mut into), Ok(None));
}

#[test]
fn reads_each_kind_of_capture(rt: HostRuntime) {
    is_read(&rt, rt.alloc(), OctetOrder::Little, false, 1);
    is_read(&rt, rt.alloc(), OctetOrder::Little, true, 101);
    is_read(&rt, rt.alloc(), OctetOrder::Big, false, 228);
    is_read(&rt, rt.alloc(), OctetOrder::Big, true, 229);
}

fn is_short(rt: &impl Abort, alloc: Global, file: &[u8]) {
    let n = file.len();
    let given = read_file(rt, alloc, file, 7);
    same(rt, n, given.frames as usize, n.saturating_sub(24) / 44);
    let whole = n == 24 || n == 68 || n == 112;
    let short = fault(n as u64, CaptureKind::Short);
    same(rt, n, given.stop, if whole { None } else { short });
}

#[test]
fn a_cut_capture_is_short_where_it_ends(rt: HostRuntime) {
    for order in [OctetOrder::Little, OctetOrder::Big] {
        let file = capture(&rt, rt.alloc(), order, 2);
        assert_eq!(rt; file.len(), 112);
        for n in 0..113usize {
            is_short(&rt, rt.alloc(), &file[..n]);
        }
    }
}

/// Two octets that are changed in a capture of two records, and what is then read.
type Change = ((usize, u8), (usize, u8), u32, Option<(u64, CaptureKind)>);

const CHANGES: &[Change] = &[
    ((0, 0xd4), (0, 0xd4), 2, None),
    ((0, 0xd5), (4, 3), 0, Some((0, CaptureKind::Magic))),
    ((0, 0x4d), (1, 0x3c), 2, None),
    ((4, 1), (20, 113), 0, Some((4, CaptureKind::Version))),
    ((6, 3), (6, 3), 0, Some((4, CaptureKind::Version))),
    ((7, 1), (7, 1), 0, Some((4, CaptureKind::Version))),
    ((20, 113), (34, 5), 0, Some((20, CaptureKind::LinkType))),
    ((23, 1), (23, 1), 0, Some((20, CaptureKind::LinkType))),
    ((34, 4), (38, 5), 0, Some((32, CaptureKind::Captured))),
    ((36, 29), (76, 5), 0, Some((32, CaptureKind::SnapCut))),
    ((36, 27), (80, 0), 2, None),
    ((32, 29), (36, 29), 1, Some((77, CaptureKind::Captured))),
    ((78, 4), (82, 5), 1, Some((76, CaptureKind::Captured))),
    ((83, 1), (83, 1), 1, Some((76, CaptureKind::SnapCut))),
    ((76, 29), (80, 29), 1, Some((112, CaptureKind::Short))),
    ((76, 12), (80, 12), 2, Some((104, CaptureKind::Captured))),
];

fn is_told(rt: &impl Abort, alloc: Global, row: Change) {
    let (one, two, frames, end) = row;
    let mut file = capture(rt, alloc, OctetOrder::Little, 2);
    assert!(rt; one.0 < file.len() && two.0 < file.len());
    file[one.0] = one.1;
    file[two.0] = two.1;
    let given = read_file(rt, alloc, &file, 1000);
    same(rt, row, given.frames, frames);
    match end {
        Some((octet, kind)) => same(rt, row, given.stop, fault(octet, kind)),
        None => same(rt, row, given.stop, None),
    }
}

#[test]
fn a_fault_stands_at_its_octet(rt: HostRuntime) {
    for row in CHANGES {
        is_told(&rt, rt.alloc(), *row);
    }
}

/// Octets in turn, 251 of each kind.
fn octets_in_turn(rt: &impl Abort, alloc: Global) -> Vec<u8> {
    let mut octets = Vec::new(alloc);
    for i in 0..262_144u32 {
        octets.push((i % 251) as u8).expect(rt, "memory");
    }
    octets
}

const COUNTS: [usize; 9] = [0, 262_144, 1, 65_520, 65_521, 65_535, 0, 70_000, 28];

/// A capture with a record of so many octets for each count.
fn with_counts(rt: &impl Abort, alloc: Global, octets: &[u8]) -> Vec<u8> {
    let mut file = Vec::new(alloc);
    add_header(rt, &mut file, OctetOrder::Big, false, 1);
    assert_eq!(rt; octets.len(), 262_144);
    for count in COUNTS {
        assert!(rt; count <= octets.len());
        add_record(rt, &mut file, OctetOrder::Big, &octets[..count]);
    }
    file
}

fn are_whole(rt: &impl Abort, alloc: Global, depot: &mut MemoryDepot, octets: &[u8]) {
    let mut frames = Frames::begin(alloc, depot, "c.pcap").expect(rt, "a reader");
    let mut into = Vec::new(alloc);
    let are = frames_are(&mut frames, depot, &mut into, octets, &COUNTS);
    holds(rt, "frames", are);
    same(rt, "the end", frames.next(depot, &mut into), Ok(None));
    holds(rt, "capacity", into.capacity() >= 262_144);
}

#[test]
fn records_of_any_length_are_whole(rt: HostRuntime) {
    let octets = octets_in_turn(&rt, rt.alloc());
    let file = with_counts(&rt, rt.alloc(), &octets);
    for piece in [5000, 1_000_000] {
        let mut depot = folder(&rt, rt.alloc(), &file, &[], piece);
        are_whole(&rt, rt.alloc(), &mut depot, &octets);
    }
}

/// One read fails: so many frames come before it, and the rest at the next call.
fn costs(rt: &impl Abort, alloc: Global, file: &[u8], fail: u32, whole: u32) {
    let mut depot = folder(rt, alloc, file, &[fail], 1_000_000);
    let mut frames = Frames::begin(alloc, &mut depot, "c.pcap").expect(rt, "a reader");
    let mut into = Vec::new(alloc);
    let failed = Some(FrameStop::ReadFault);
    let given = read_on(&mut frames, &mut depot, &mut into);
    let stop = if fail == 4 { None } else { failed };
    let found = (given.frames, given.stop);
    same(rt, ("first", fail), found, (whole, stop));
    same(rt, ("octets", fail), into.len(), 0);
    let rest = read_on(&mut frames, &mut depot, &mut into);
    let stop = if fail == 4 { failed } else { None };
    let frames = whole.saturating_add(rest.frames);
    same(rt, ("rest", fail), (frames, rest.stop), (1489, stop));
}

// The first read takes a window that ends in the last of 1,489 records; a second one takes what that record lacks, and a third
// finds the end.
#[test]
fn a_window_costs_one_read_and_a_record_none(rt: HostRuntime) {
    let file = capture(&rt, rt.alloc(), OctetOrder::Little, 1489);
    same(&rt, "octets", file.len(), 65_540);
    for (fail, whole) in [(2, 1488), (3, 1489), (4, 1489)] {
        costs(&rt, rt.alloc(), &file, fail, whole);
    }
    let mut depot = folder(&rt, rt.alloc(), &file, &[1], 7);
    let begun = Frames::begin(rt.alloc(), &mut depot, "c.pcap").err();
    same(&rt, "the first read", begun, Some(FrameStop::ReadFault));
}

/// A capture with a record of 262,144 octets, in a folder of which the third read fails.
fn with_long_record(rt: &impl Abort, alloc: Global) -> MemoryDepot {
    let mut file = Vec::new(alloc);
    add_header(rt, &mut file, OctetOrder::Little, true, 101);
    let octets = vec![in alloc; 6u8; 262_144].expect(rt, "memory");
    add_record(rt, &mut file, OctetOrder::Little, &octets);
    folder(rt, alloc, &file, &[3], 100_000)
}

// The record that a read has failed to bring is brought by the next call, and what is appended is read too.
#[test]
fn a_reader_goes_on_where_it_stood(rt: HostRuntime) {
    let mut depot = with_long_record(&rt, rt.alloc());
    let mut frames = Frames::begin(rt.alloc(), &mut depot, "c.pcap").expect(&rt, "a reader");
    let mut into = Vec::new(rt.alloc());
    let failed = frames.next(&mut depot, &mut into);
    let found = (failed, into.len());
    same(&rt, "fault", found, (Err(FrameStop::ReadFault), 0));
    let given = frames.next(&mut depot, &mut into);
    let found = (given, into.len());
    same(&rt, "record", found, (Ok(Some(HEAD)), 262_144));
    same(&rt, "end", frames.next(&mut depot, &mut into), Ok(None));
    let mut more = Vec::new(rt.alloc());
    add_record(&rt, &mut more, OctetOrder::Little, &PACKET);
    let found = grow(&frames, &mut depot, "c.pcap", &more);
    same(&rt, "appended", found, Ok(44));
    let are = frames_are(&mut frames, &mut depot, &mut into, &PACKET, &[28]);
    holds(&rt, "more", are);
}

/// A capture of `PACKET` at second 1.
const WRITTEN: [u8; 68] = [
    0xd4, 0xc3, 0xb2, 0xa1, 2, 0, 4, 0, 0, 0, 0, 0, 0, 0, 0, 0, 0, 0, 4, 0, 0x65, 0, 0, 0, 1, 0, 0,
    0, 0, 0, 0, 0, 0x1c, 0, 0, 0, 0x1c, 0, 0, 0, 0x45, 0, 0, 0x1c, 0, 0, 0x40, 0, 0x40, 0x11, 0x26,
    0xcf, 10, 0, 0, 1, 10, 0, 0, 2, 3, 0xe8, 0, 0x35, 0, 8, 0xe7, 0xbe,
];

#[test]
fn a_capture_is_written(rt: HostRuntime) {
    let mut file = Vec::new(rt.alloc());
    let head = FrameHead {
        seconds: 1,
        fraction: 0,
    };
    write_head(false, &mut file).expect(&rt, "memory");
    write_frame(head, &PACKET, &mut file).expect(&rt, "memory");
    same(&rt, "written", file.as_slice(), WRITTEN.as_slice());
}

#[test]
fn a_capture_is_written_and_read_back(rt: HostRuntime) {
    let mut file = Vec::new(rt.alloc());
    write_head(true, &mut file).expect(&rt, "memory");
    same(&rt, "magic", file.first(), Some(&0x4d));
    write_frame(HEAD, &[1, 2, 3], &mut file).expect(&rt, "memory");
    let wanted = Given {
        frames: 1,
        octets: 3,
        stop: None,
    };
    same(&rt, "read", read_file(&rt, rt.alloc(), &file, 9), wanted);
}

/// Frames by link type, EtherType, octets behind two addresses, and the octet from which on the packet stands.
const FRAMES: &[(u32, [u8; 8], usize, Option<usize>)] = &[
    (1, [8, 0, 1, 2, 3, 4, 5, 6], 20, Some(14)),
    (1, [0x86, 0xdd, 1, 2, 3, 4, 5, 6], 20, Some(14)),
    (1, [8, 6, 1, 2, 3, 4, 5, 6], 20, None),
    (1, [0x81, 0, 0, 9, 8, 0, 5, 6], 20, Some(18)),
    (1, [0x81, 0, 0, 9, 0x86, 0xdd, 5, 6], 20, Some(18)),
    (1, [0x81, 0, 0, 9, 0x81, 0, 8, 0], 20, None),
    (1, [0x81, 0, 0, 9, 8, 6, 8, 0], 20, None),
    (1, [0x81, 0, 0, 9, 8, 0, 5, 6], 18, Some(18)),
    (1, [0x81, 0, 0, 9, 8, 0, 5, 6], 17, None),
    (1, [8, 0, 1, 2, 3, 4, 5, 6], 14, Some(14)),
    (1, [8, 0, 1, 2, 3, 4, 5, 6], 13, None),
    (101, [8, 6, 1, 2, 3, 4, 5, 6], 20, Some(0)),
    (228, [8, 6, 1, 2, 3, 4, 5, 6], 0, Some(0)),
    (229, [8, 6, 1, 2, 3, 4, 5, 6], 13, Some(0)),
    (113, [8, 0, 1, 2, 3, 4, 5, 6], 20, None),
    (0, [8, 0, 1, 2, 3, 4, 5, 6], 20, None),
];

#[test]
fn the_packet_stands_behind_its_type(rt: HostRuntime) {
    for &(link, typed, length, from) in FRAMES {
        let mut frame = [0xffu8; 20];
        frame[12..].copy_from_slice(&typed);
        assert!(rt; length <= 20);
        let found = ip_part(link, &frame[..length]);
        let row = (link, typed, length);
        match from {
            Some(from) => {
                assert!(rt; from <= length);
                same(&rt, row, found, Some(&frame[from..length]));
            }
            None => same(&rt, row, found, None),
        }
    }
}

fn is_sent<T: Send>(_: &T) {}

// A reader may go to another thread.
#[test]
fn a_reader_is_sent(rt: HostRuntime) {
    let file = capture(&rt, rt.alloc(), OctetOrder::Big, 0);
    let mut depot = folder(&rt, rt.alloc(), &file, &[], 7);
    is_sent(&Frames::begin(rt.alloc(), &mut depot, "c.pcap").expect(&rt, "a reader"));
}
