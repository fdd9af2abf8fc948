//! Whole files, of both orders and of several sections, with blocks that are passed over; what is written.

use super::*;
use crate::checks::same;
use pcap_frames::FrameHead;
use pcapng_frames::{write_ng_frame, write_ng_head};

/// The block of `PACKET` at second 1, as it is written.
const FRAME: [u8; 60] = [
    6, 0, 0, 0, 0x3c, 0, 0, 0, 0, 0, 0, 0, 0, 0, 0, 0, 0, 0xca, 0x9a, 0x3b, 0x1c, 0, 0, 0, 0x1c, 0,
    0, 0, 0x45, 0, 0, 0x1c, 0, 0, 0x40, 0, 0x40, 0x11, 0x26, 0xcf, 10, 0, 0, 1, 10, 0, 0, 2, 3,
    0xe8, 0, 0x35, 0, 8, 0xe7, 0xbe, 0x3c, 0, 0, 0,
];

/// A file with `PACKET` at second 1, as it is written.
fn written(rt: &impl Abort, alloc: Global) -> Vec<u8> {
    let mut file = Vec::new(alloc);
    write_ng_head(&mut file).expect(rt, "memory");
    let head = FrameHead {
        seconds: 1,
        fraction: 0,
    };
    write_ng_frame(head, &PACKET, &mut file).expect(rt, "memory");
    file
}

#[test]
fn a_file_is_written_and_read_back(rt: HostRuntime) {
    let file = written(&rt, rt.alloc());
    same(&rt, "head", file.get(..60), Some(HEAD.as_slice()));
    same(&rt, "frame", file.get(60..), Some(FRAME.as_slice()));
    gives(&rt, rt.alloc(), "one frame", &file, whole(1, 28, ONE));
}

#[test]
fn the_last_time_is_written_and_read_back(rt: HostRuntime) {
    let mut file = written(&rt, rt.alloc());
    let last = FrameHead {
        seconds: 4_294_967_295,
        fraction: 999_999_999,
    };
    write_ng_frame(last, &[1, 2, 3, 4, 5], &mut file).expect(&rt, "memory");
    same(&rt, "octets", file.len(), 160);
    let given = NgHead {
        seconds: 4_294_967_295,
        nanos: 999_999_999,
        link: 101,
    };
    gives(&rt, rt.alloc(), "two frames", &file, whole(2, 33, given));
}

/// `capture` with one octet set.
fn changed(rt: &impl Abort, alloc: Global, place: usize, octet: u8) -> Vec<u8> {
    let mut file = capture(rt, alloc);
    change(&mut file, place, octet);
    file
}

/// What the file that was written gives when it is cut, when one octet is set (where its options end at once, its resolution is
/// microseconds), and with a block between head and frame.
#[test]
fn a_written_file_that_was_changed(rt: HostRuntime) {
    let alloc = rt.alloc();
    let file = capture(&rt, alloc);
    gives(
        &rt,
        alloc,
        "cut",
        cut(&file, 100),
        broken(100, NgKind::Short),
    );
    let file = changed(&rt, alloc, 116, 0);
    gives(&rt, alloc, "trailer", &file, broken(116, NgKind::Trailer));
    let file = changed(&rt, alloc, 68, 1);
    gives(
        &rt,
        alloc,
        "interface",
        &file,
        broken(68, NgKind::Interface),
    );
    let file = changed(&rt, alloc, 44, 0);
    let microseconds = NgHead {
        seconds: 1000,
        nanos: 0,
        link: 101,
    };
    gives(&rt, alloc, "options", &file, whole(1, 28, microseconds));
    let mut file = Vec::new(alloc);
    add(&rt, &mut file, &HEAD);
    add(&rt, &mut file, &[1, 0, 0, 0x80, 12, 0, 0, 0, 12, 0, 0, 0]);
    add(&rt, &mut file, &FRAME);
    gives(&rt, alloc, "a block between", &file, whole(1, 28, ONE));
}

/// A section header as dumpcap writes one: hardware, system, program, and the end of its options.
const SECTION: [u8; 80] = [
    0xa, 0xd, 0xd, 0xa, 0x50, 0, 0, 0, 0x4d, 0x3c, 0x2b, 0x1a, 1, 0, 0, 0, 0xff, 0xff, 0xff, 0xff,
    0xff, 0xff, 0xff, 0xff, 2, 0, 6, 0, 0x78, 0x38, 0x36, 0x5f, 0x36, 0x34, 0, 0, 3, 0, 0xa, 0,
    0x4c, 0x69, 0x6e, 0x75, 0x78, 0x20, 0x36, 0x2e, 0x31, 0x32, 0, 0, 4, 0, 0xe, 0, 0x44, 0x75,
    0x6d, 0x70, 0x63, 0x61, 0x70, 0x20, 0x34, 0x2e, 0x30, 0x2e, 0x31, 0x31, 0, 0, 0, 0, 0, 0, 0x50,
    0, 0, 0,
];

/// An Ethernet interface as dumpcap describes one: its name, nanoseconds, a filter and the system.
const INTERFACE: [u8; 68] = [
    1, 0, 0, 0, 0x44, 0, 0, 0, 1, 0, 0, 0, 0, 0, 4, 0, 2, 0, 4, 0, 0x65, 0x74, 0x68, 0x30, 9, 0, 1,
    0, 9, 0, 0, 0, 0xb, 0, 6, 0, 0, 0x69, 0x63, 0x6d, 0x70, 0x36, 0, 0, 0xc, 0, 0xa, 0, 0x4c, 0x69,
    0x6e, 0x75, 0x78, 0x20, 0x36, 0x2e, 0x31, 0x32, 0, 0, 0, 0, 0, 0, 0x44, 0, 0, 0,
];

/// A name resolution block: 10.0.0.1 is `a.example`, and the end of its records.
const NAMES: [u8; 36] = [
    4, 0, 0, 0, 0x24, 0, 0, 0, 1, 0, 0xe, 0, 0xa, 0, 0, 1, 0x61, 0x2e, 0x65, 0x78, 0x61, 0x6d,
    0x70, 0x6c, 0x65, 0, 0, 0, 0, 0, 0, 0, 0x24, 0, 0, 0,
];

/// A decryption secrets block with a line of a TLS key log.
const SECRETS: [u8; 32] = [
    0xa, 0, 0, 0, 0x20, 0, 0, 0, 0x4b, 0x53, 0x4c, 0x54, 9, 0, 0, 0, 0x43, 0x4c, 0x49, 0x45, 0x4e,
    0x54, 0x5f, 0x58, 0xa, 0, 0, 0, 0x20, 0, 0, 0,
];

/// A packet of four octets at second 1,700,000,000 and nanosecond 7, with a comment and flags behind its octets.
const COMMENTED: [u8; 60] = [
    6, 0, 0, 0, 0x3c, 0, 0, 0, 0, 0, 0, 0, 0xfe, 0x9c, 0x97, 0x17, 7, 0, 0x2a, 0x36, 4, 0, 0, 0, 4,
    0, 0, 0, 1, 2, 3, 4, 1, 0, 5, 0, 0x68, 0x65, 0x6c, 0x6c, 0x6f, 0, 0, 0, 2, 0, 4, 0, 1, 0, 0, 0,
    0, 0, 0, 0, 0x3c, 0, 0, 0,
];

/// Statistics of interface 0: its first time, how many packets came, and how many were dropped.
const STATISTICS: [u8; 64] = [
    5, 0, 0, 0, 0x40, 0, 0, 0, 0, 0, 0, 0, 0xfe, 0x9c, 0x97, 0x17, 7, 0, 0x2a, 0x36, 2, 0, 8, 0,
    0xfe, 0x9c, 0x97, 0x17, 7, 0, 0x2a, 0x36, 4, 0, 8, 0, 1, 0, 0, 0, 0, 0, 0, 0, 5, 0, 8, 0, 0, 0,
    0, 0, 0, 0, 0, 0, 0, 0, 0, 0, 0x40, 0, 0, 0,
];

/// A packet of an interface at its time as it stands in `COMMENTED`.
const COMMENTED_HEAD: NgHead = NgHead {
    seconds: 1_700_000_000,
    nanos: 7,
    link: 1,
};

#[test]
fn a_file_as_dumpcap_writes_it(rt: HostRuntime) {
    let alloc = rt.alloc();
    let mut file = Vec::new(alloc);
    for block in [&SECTION[..], &INTERFACE, &SECRETS, &NAMES, &COMMENTED] {
        add(&rt, &mut file, block);
    }
    add(&rt, &mut file, &STATISTICS);
    gives(&rt, alloc, "dumpcap", &file, whole(1, 4, COMMENTED_HEAD));
}

/// Types of blocks that are passed over: name resolution, statistics, a journal entry, secrets, custom blocks of both kinds, and
/// those that nobody has named, among them 1, 2, 3 and 6 in the other order.
const PASSED: &[u32] = &[
    0,
    4,
    5,
    7,
    9,
    10,
    0x0bad,
    0x4000_0bad,
    0x8000_0001,
    0x0100_0000,
    0x0200_0000,
    0x0300_0000,
    0x0600_0000,
];

fn is_passed_over(rt: &impl Abort, alloc: Global, order: OctetOrder, kind: u32) {
    let mut file = Vec::new(alloc);
    add_section(rt, &mut file, order);
    add_block(rt, &mut file, order, kind, &[]);
    add_interface(rt, &mut file, order, 101, Some(9));
    add_block(rt, &mut file, order, kind, &[1, 2, 3, 4, 5]);
    add_packet(rt, &mut file, order, 0, (0, 1_000_000_000), &PACKET);
    add_block(rt, &mut file, order, kind, &[6; 12]);
    gives(rt, alloc, (order, kind), &file, whole(1, 28, ONE));
}

#[test]
fn other_blocks_are_passed_over(rt: HostRuntime) {
    for kind in PASSED {
        is_passed_over(&rt, rt.alloc(), OctetOrder::Little, *kind);
        is_passed_over(&rt, rt.alloc(), OctetOrder::Big, *kind);
    }
}

/// A section of the other order behind `capture`, with interfaces of its own and two packets.
fn two_sections(rt: &impl Abort, alloc: Global) -> Vec<u8> {
    let mut file = capture(rt, alloc);
    let big = OctetOrder::Big;
    add_section(rt, &mut file, big);
    add_interface(rt, &mut file, big, 1, None);
    add_interface(rt, &mut file, big, 229, Some(9));
    add_packet(rt, &mut file, big, 1, (0, 5), &[1, 2]);
    add_packet(rt, &mut file, big, 0, (0, 1_000_005), &[1, 2, 3]);
    file
}

/// Sections of both orders one behind another: each has its own order and its own interfaces.
#[test]
fn sections_have_their_own_order_and_interfaces(rt: HostRuntime) {
    let alloc = rt.alloc();
    let mut file = two_sections(&rt, alloc);
    let microsecond = NgHead {
        seconds: 1,
        nanos: 5000,
        link: 1,
    };
    gives(&rt, alloc, "two sections", &file, whole(3, 33, microsecond));
    add_section(&rt, &mut file, OctetOrder::Little);
    let at = file.len() as u64;
    add_packet(&rt, &mut file, OctetOrder::Little, 0, (0, 5), &[1]);
    let given = read_file(&rt, alloc, &file);
    let stop = broken(at.saturating_add(8), NgKind::Interface).stop;
    same(&rt, "no interface", (given.frames, given.stop), (3, stop));
}

fn is_short(rt: &impl Abort, alloc: Global, file: &[u8], n: usize) {
    let between = n == 28 || n == 56 || n == 72;
    let short = broken(n as u64, NgKind::Short);
    gives(
        rt,
        alloc,
        n,
        cut(file, n),
        if between { NOTHING } else { short },
    );
}

fn is_cut(rt: &impl Abort, alloc: Global, order: OctetOrder) {
    let mut file = Vec::new(alloc);
    add_section(rt, &mut file, order);
    add_interface(rt, &mut file, order, 101, Some(9));
    add_block(rt, &mut file, order, 4, &[7, 7, 7]);
    add_packet(rt, &mut file, order, 0, (0, 1_000_000_000), &PACKET);
    same(rt, order, file.len(), 132);
    for n in 4..132usize {
        is_short(rt, alloc, &file, n);
    }
    gives(rt, alloc, order, &file, whole(1, 28, ONE));
}

/// A file cut within its first four blocks, of which the last is a packet, is Short at its length, and whole between blocks.
#[test]
fn a_file_is_cut_at_each_octet(rt: HostRuntime) {
    is_cut(&rt, rt.alloc(), OctetOrder::Little);
    is_cut(&rt, rt.alloc(), OctetOrder::Big);
}
