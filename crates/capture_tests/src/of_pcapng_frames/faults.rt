//! Each fault at its octet, and the first of two.

use super::*;
use crate::checks::same;

/// Two octets that are set in two captures one behind the other, whose blocks begin at 0, 28, 60, 120, 148 and 180: how many
/// frames come then, and the fault. Where both make one, the row tells which is told.
type Change = ((usize, u8), (usize, u8), u32, Option<(u64, NgKind)>);

/// In a section header, the first one or the second.
const IN_SECTIONS: &[Change] = &[
    ((0, 0x0a), (14, 2), 2, None),
    ((16, 0), (23, 0), 2, None),
    ((8, 0x4e), (4, 0x1d), 0, Some((8, NgKind::Magic))),
    ((4, 0x1d), (24, 0), 0, Some((4, NgKind::BlockLength))),
    ((4, 0x18), (24, 0x18), 0, Some((4, NgKind::BlockLength))),
    ((7, 1), (12, 2), 0, Some((240, NgKind::Short))),
    ((24, 0x20), (12, 2), 0, Some((24, NgKind::Trailer))),
    ((12, 2), (36, 113), 0, Some((12, NgKind::Version))),
    ((13, 1), (32, 0), 0, Some((12, NgKind::Version))),
    ((124, 0x1d), (128, 0x4e), 1, Some((128, NgKind::Magic))),
    ((124, 0x1e), (144, 0), 1, Some((124, NgKind::BlockLength))),
    ((126, 1), (132, 0), 1, Some((240, NgKind::Short))),
    ((144, 0), (132, 0), 1, Some((144, NgKind::Trailer))),
    ((132, 0), (156, 113), 1, Some((132, NgKind::Version))),
];

/// In an interface description and its options.
const IN_INTERFACES: &[Change] = &[
    ((32, 0x10), (56, 0x10), 0, Some((32, NgKind::BlockLength))),
    ((32, 0x22), (56, 0), 0, Some((32, NgKind::BlockLength))),
    ((34, 1), (44, 9), 0, Some((240, NgKind::Short))),
    ((56, 0), (46, 2), 0, Some((56, NgKind::Trailer))),
    ((46, 2), (64, 0), 0, Some((44, NgKind::Options))),
    ((46, 0), (54, 1), 0, Some((44, NgKind::Options))),
    ((44, 2), (46, 9), 0, Some((44, NgKind::Options))),
    ((44, 2), (46, 8), 2, None),
    ((44, 2), (46, 4), 2, None),
    ((44, 0), (46, 9), 2, None),
    ((52, 9), (54, 0), 0, Some((52, NgKind::Options))),
    ((52, 9), (54, 2), 0, Some((52, NgKind::Options))),
    ((52, 2), (54, 1), 0, Some((52, NgKind::Options))),
    ((48, 0), (156, 113), 0, Some((68, NgKind::Resolution))),
];

/// In an enhanced packet, and in one of another type. Where 120 is 8 the second section header is passed over, and the interface
/// behind it is the first section's second one.
const IN_PACKETS: &[Change] = &[
    ((64, 0x3d), (116, 0x3d), 0, Some((64, NgKind::BlockLength))),
    ((64, 0x1c), (116, 0), 0, Some((64, NgKind::BlockLength))),
    ((66, 1), (116, 0), 0, Some((240, NgKind::Short))),
    ((116, 0), (68, 1), 0, Some((116, NgKind::Trailer))),
    ((60, 8), (64, 0), 0, Some((64, NgKind::BlockLength))),
    ((60, 8), (64, 8), 0, Some((64, NgKind::BlockLength))),
    ((60, 2), (64, 8), 0, Some((64, NgKind::BlockLength))),
    ((60, 3), (64, 8), 0, Some((64, NgKind::BlockLength))),
    ((60, 2), (119, 1), 0, Some((116, NgKind::Trailer))),
    ((60, 2), (68, 1), 0, Some((60, NgKind::Block))),
    ((60, 3), (82, 5), 0, Some((60, NgKind::Block))),
    ((68, 1), (82, 5), 0, Some((68, NgKind::Interface))),
    ((36, 113), (48, 3), 0, Some((68, NgKind::LinkType))),
    ((48, 3), (82, 5), 0, Some((68, NgKind::Resolution))),
    ((68, 1), (120, 8), 0, Some((68, NgKind::Interface))),
    ((188, 1), (120, 8), 2, None),
    ((82, 5), (86, 6), 0, Some((80, NgKind::Captured))),
    ((80, 1), (82, 4), 0, Some((80, NgKind::Captured))),
    ((80, 0), (82, 4), 0, Some((64, NgKind::BlockLength))),
    ((80, 33), (84, 34), 0, Some((80, NgKind::SnapCut))),
    ((80, 33), (75, 255), 0, Some((64, NgKind::BlockLength))),
    ((75, 255), (180, 3), 0, Some((72, NgKind::Time))),
    ((60, 8), (68, 1), 1, None),
    ((84, 4), (204, 0), 2, None),
];

/// Ends the test unless a changed file gives so many frames, and this fault.
fn is_told(rt: &impl Abort, alloc: Global, row: &Change) {
    let (one, two, frames, fault) = *row;
    let mut file = capture(rt, alloc);
    add(rt, &mut file, &capture(rt, alloc));
    change(&mut file, one.0, one.1);
    change(&mut file, two.0, two.1);
    let given = read_file(rt, alloc, &file);
    let stop = match fault {
        Some((octet, kind)) => broken(octet, kind).stop,
        None => None,
    };
    same(rt, row, (given.frames, given.stop), (frames, stop));
}

#[test]
fn a_fault_of_a_section_stands_at_its_octet(rt: HostRuntime) {
    for row in IN_SECTIONS {
        is_told(&rt, rt.alloc(), row);
    }
}

#[test]
fn a_fault_of_an_interface_stands_at_its_octet(rt: HostRuntime) {
    for row in IN_INTERFACES {
        is_told(&rt, rt.alloc(), row);
    }
}

#[test]
fn a_fault_of_a_packet_stands_at_its_octet(rt: HostRuntime) {
    for row in IN_PACKETS {
        is_told(&rt, rt.alloc(), row);
    }
}
