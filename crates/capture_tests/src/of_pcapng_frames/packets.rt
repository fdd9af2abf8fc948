//! Times, interfaces and padding of packets.

use super::*;

/// A resolution, if it is told, the parts of a time, and seconds and nanoseconds; none where they are 2^32 seconds or more.
type Time = (Option<u8>, (u32, u32), Option<(u32, u32)>);

const TIMES: &[Time] = &[
    (None, (0, 0), Some((0, 0))),
    (None, (0, 1_000_005), Some((1, 5000))),
    (Some(6), (0, 1_000_005), Some((1, 5000))),
    (Some(9), (0, 1_000_000_005), Some((1, 5))),
    (Some(9), (0, 999_999_999), Some((0, 999_999_999))),
    (Some(6), (0, 999_999), Some((0, 999_999_000))),
    (Some(6), (1, 0), Some((4294, 967_296_000))),
    (Some(9), (1, 0), Some((4, 294_967_296))),
    (
        Some(6),
        (999_999, 4_294_967_295),
        Some((4_294_967_295, 999_999_000)),
    ),
    (Some(6), (1_000_000, 0), None),
    (
        Some(9),
        (999_999_999, 4_294_967_295),
        Some((4_294_967_295, 999_999_999)),
    ),
    (Some(9), (1_000_000_000, 0), None),
];

/// What a packet of an interface of this link type gives at a time.
fn at_time((seconds, nanos): (u32, u32), link: u32) -> NgHead {
    NgHead {
        seconds,
        nanos,
        link,
    }
}

fn is_counted(rt: &impl Abort, alloc: Global, order: OctetOrder, row: &Time) {
    let (resolution, units, time) = *row;
    let mut file = Vec::new(alloc);
    add_section(rt, &mut file, order);
    add_interface(rt, &mut file, order, 228, resolution);
    let at = file.len() as u64;
    add_packet(rt, &mut file, order, 0, units, &[9]);
    let wanted = match time {
        Some(time) => whole(1, 1, at_time(time, 228)),
        None => broken(at.saturating_add(12), NgKind::Time),
    };
    gives(rt, alloc, (order, row), &file, wanted);
}

#[test]
fn a_time_is_a_count_of_units(rt: HostRuntime) {
    for row in TIMES {
        is_counted(&rt, rt.alloc(), OctetOrder::Little, row);
        is_counted(&rt, rt.alloc(), OctetOrder::Big, row);
    }
}

/// Interfaces of one section, by link type and resolution, and what a packet of each is.
const INTERFACES: &[(u16, Option<u8>, Result<(u32, u32), NgKind>)] = &[
    (113, None, Err(NgKind::LinkType)),
    (1, None, Ok((7, 8000))),
    (101, Some(6), Ok((7, 8000))),
    (228, Some(9), Ok((0, 7_000_008))),
    (229, None, Ok((7, 8000))),
    (101, Some(3), Err(NgKind::Resolution)),
    (1, Some(0x86), Err(NgKind::Resolution)),
    (0, Some(3), Err(NgKind::LinkType)),
    (1, Some(9), Ok((0, 7_000_008))),
];

/// A section with these interfaces.
fn interfaces(rt: &impl Abort, alloc: Global, order: OctetOrder) -> Vec<u8> {
    let mut head = Vec::new(alloc);
    add_section(rt, &mut head, order);
    for &(link, resolution, _) in INTERFACES {
        add_interface(rt, &mut head, order, link, resolution);
    }
    head
}

/// Ends the test unless a packet of the interface of this place gives this.
fn place_gives(rt: &impl Abort, alloc: Global, order: OctetOrder, place: u32, wanted: Given) {
    let mut file = interfaces(rt, alloc, order);
    add_packet(rt, &mut file, order, place, (0, 7_000_008), &[1, 2]);
    gives(rt, alloc, (order, place), &file, wanted);
}

fn are_of_their_interfaces(rt: &impl Abort, alloc: Global, order: OctetOrder) {
    let head = interfaces(rt, alloc, order).len() as u64;
    let at = head.saturating_add(8);
    let mut place = 0;
    for &(link, _, said) in INTERFACES {
        let wanted = match said {
            Ok(time) => whole(1, 2, at_time(time, u32::from(link))),
            Err(kind) => broken(at, kind),
        };
        place_gives(rt, alloc, order, place, wanted);
        place = place.saturating_add(1);
    }
    let mut file = interfaces(rt, alloc, order);
    add_packet(rt, &mut file, order, place, (0, 0), &[]);
    gives(
        rt,
        alloc,
        (order, place),
        &file,
        broken(at, NgKind::Interface),
    );
}

#[test]
fn a_packet_is_of_its_interface(rt: HostRuntime) {
    are_of_their_interfaces(&rt, rt.alloc(), OctetOrder::Little);
    are_of_their_interfaces(&rt, rt.alloc(), OctetOrder::Big);
}

/// Octets of a packet by their number, in a block of this many; a fault where they pass it with their padding.
const PADDED: &[(u8, u8, bool)] = &[
    (0, 32, true),
    (1, 36, true),
    (4, 36, true),
    (4, 40, true),
    (3, 64, true),
    (1, 32, false),
    (5, 36, false),
    (8, 36, false),
    (29, 60, false),
];

/// `HEAD` and a packet of so many octets in a block of this length, filled with octets that aren't zero.
fn with_total(rt: &impl Abort, alloc: Global, count: u8, total: u8) -> Vec<u8> {
    let mut file = Vec::new(alloc);
    add(rt, &mut file, &HEAD);
    add(rt, &mut file, &[6, 0, 0, 0, total, 0, 0, 0, 0, 0, 0, 0]);
    add(
        rt,
        &mut file,
        &[0, 0, 0, 0, 0, 0xca, 0x9a, 0x3b, count, 0, 0, 0],
    );
    add(rt, &mut file, &[count, 0, 0, 0]);
    for _ in 32..total {
        add(rt, &mut file, &[5]);
    }
    add(rt, &mut file, &[total, 0, 0, 0]);
    file
}

#[test]
fn padding_counts_and_options_follow(rt: HostRuntime) {
    let alloc = rt.alloc();
    for &(count, total, fits) in PADDED {
        let file = with_total(&rt, alloc, count, total);
        let wanted = if fits {
            whole(1, usize::from(count), ONE)
        } else {
            broken(64, NgKind::BlockLength)
        };
        gives(&rt, alloc, (count, total), &file, wanted);
    }
}
