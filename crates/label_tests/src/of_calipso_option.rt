use crate::checks::{holds, same};
use arrayvec::ArrayVec;
use calipso_option::*;
use mls_label::{CatSet, Label, WireFault, WireKind};
use std::process::Abort;

const OCTET: WireKind = WireKind::Octet;

const END: WireKind = WireKind::End;

/// DOI 16, level 2, no category.
const EMPTY: [u8; 10] = [7, 8, 0, 0, 0, 16, 0, 2, 0xbf, 0xd9];

/// DOI 16, level 2, categories 1 and 3.
const PAIR: [u8; 14] = [7, 12, 0, 0, 0, 16, 1, 2, 0xb7, 0x7e, 0x50, 0, 0, 0];

// The check value of CRC-16/X-25, and RFC 1662's good check sequence 0xF0B8: the register behind octets and their checksum.
#[test]
fn checksums_are_the_published_ones(rt: HostRuntime) {
    same(&rt, "of digits", crc16(b"123456789"), 0x906e);
    same(&rt, "of all", crc16(b"123456789\x6e\x90"), 0xffff - 0xf0b8);
    same(&rt, "of none", crc16(b""), 0);
}

fn fault_of(octets: &[u8]) -> Option<CalipsoFault> {
    read_calipso(octets).err()
}

fn wire(octet: usize, kind: WireKind) -> Option<CalipsoFault> {
    Some(CalipsoFault::Wire(WireFault { octet, kind }))
}

/// What is no option by its octets, and the first fault: worked by hand from the layout.
const FAULTS: &[(&[u8], usize, WireKind)] = &[
    (&[6], 0, OCTET),
    (&[0, 7, 8], 0, OCTET),
    (&[7, 0], 1, OCTET),
    (&[7, 4], 1, OCTET),
    (&[7, 7], 1, OCTET),
    (&[7, 9], 1, OCTET),
    (&[7, 10], 1, OCTET),
    (&[7, 11, 0, 0, 0, 0], 1, OCTET),
    (&[7, 253], 1, OCTET),
    (&[7, 255], 1, OCTET),
    (&[7, 252], 2, END),
    // A DOI that is 0 is refused at its last octet.
    (&[7, 8, 0, 0, 0], 5, END),
    (&[7, 8, 0, 0, 0, 0], 5, OCTET),
    (&[7, 8, 0, 0, 0, 0, 9, 2, 0xbf, 0xd9], 5, OCTET),
    (&[7, 8, 0, 0, 0, 1], 6, END),
    (&[7, 8, 0, 0, 1, 0], 6, END),
    (&[7, 8, 0, 1, 0, 0], 6, END),
    (&[7, 8, 1, 0, 0, 0], 6, END),
    // The words are those that the length leaves.
    (&[7, 8, 0, 0, 0, 16, 1], 6, OCTET),
    (&[7, 12, 0, 0, 0, 16, 0], 6, OCTET),
    (
        &[7, 12, 0, 0, 0, 16, 2, 2, 0xb7, 0x7e, 0x50, 0, 0, 0],
        6,
        OCTET,
    ),
    (&[7, 252, 0, 0, 0, 16, 61], 7, END),
    (&[7, 252, 0, 0, 0, 16, 62], 6, OCTET),
    // The octets end, and the checksum is wrong too.
    (&[7, 8, 0, 0, 0, 16, 0, 3, 0xbf], 9, END),
    (&[7, 12, 0, 0, 0, 16, 1, 3, 0, 0, 0, 0, 0], 13, END),
    (&[], 0, END),
];

/// What is an option but for its checksum: the one that it has, and the one that it should have.
const CHECKSUMS: &[(&[u8], u16, u16)] = &[
    (&[7, 8, 0, 0, 0, 16, 0, 3, 0xbf, 0xd9], 0xd9bf, 0x8363),
    // The octets of the checksum in the other order.
    (&[7, 8, 0, 0, 0, 16, 0, 2, 0xd9, 0xbf], 0xbfd9, 0xd9bf),
    (&[7, 8, 0, 0, 0, 16, 0, 2, 0, 0], 0, 0xd9bf),
    (
        &[7, 12, 0, 0, 0, 16, 1, 2, 0xb7, 0x7e, 0x50, 0, 0, 1],
        0x7eb7,
        0x6f3e,
    ),
];

#[test]
fn each_fault_stands_at_its_octet(rt: HostRuntime) {
    for &(octets, octet, kind) in FAULTS {
        same(&rt, octets, fault_of(octets), wire(octet, kind));
    }
    for length in 0..10 {
        let found = fault_of(&EMPTY[..length]);
        same(&rt, ("empty", length), found, wire(length, END));
    }
    for length in 0..14 {
        let found = fault_of(&PAIR[..length]);
        same(&rt, ("pair", length), found, wire(length, END));
    }
}

// A checksum counts only where all else is there and fits.
#[test]
fn a_wrong_checksum_is_told_with_the_right_one(rt: HostRuntime) {
    for &(octets, stored, computed) in CHECKSUMS {
        let wanted = CalipsoFault::BadChecksum { stored, computed };
        same(&rt, octets, fault_of(octets), Some(wanted));
    }
}

const WIDE: &[u8] = &[
    7, 16, 255, 255, 255, 255, 2, 255, 0xe4, 0x2a, 0, 0, 0, 1, 0x80, 0, 0, 0,
];

/// The octets of an option, its DOI, level and categories, its length, and the octets as it is written.
type Row = (&'static [u8], u32, u8, &'static [u16], usize, &'static [u8]);

// Each of these is read, and written as the octets behind it: without trailing words of zeros.
const OPTIONS: &[Row] = &[
    (&EMPTY, 16, 2, &[], 10, &EMPTY),
    (&PAIR, 16, 2, &[1, 3], 14, &PAIR),
    (WIDE, 0xffff_ffff, 255, &[31, 32], 18, WIDE),
    (
        &[7, 12, 0, 0, 0, 16, 1, 2, 0xa1, 0xab, 0, 0, 0, 0],
        16,
        2,
        &[],
        14,
        &EMPTY,
    ),
    (
        &[
            7, 16, 0, 0, 0, 16, 2, 2, 0xeb, 0x15, 0x50, 0, 0, 0, 0, 0, 0, 0, 1, 2,
        ],
        16,
        2,
        &[1, 3],
        18,
        &PAIR,
    ),
];

fn is_read_and_written(rt: &impl Abort, row: &Row) {
    let (octets, doi, level, categories, length, written) = *row;
    let (option, read) = read_calipso(octets).expect(rt, "an option");
    let cats = &option.label.cats;
    let found = (option.doi, option.label.level, read, cats.count() as usize);
    same(rt, octets, found, (doi, level, length, categories.len()));
    for category in categories {
        holds(rt, (octets, category), cats.contains(*category));
    }
    let mut out = ArrayVec::new();
    assert!(rt; can_express(&option.label) && doi > 0);
    write_calipso(doi, &option.label, &mut out);
    same(rt, octets, out.as_slice(), written);
}

#[test]
fn each_option_is_read_and_written_again(rt: HostRuntime) {
    for row in OPTIONS {
        is_read_and_written(&rt, row);
    }
}

// Worked elsewhere: DOI 16, level 2, category 1951, the last bit of 61 words; with category 1952 there is no option.
#[test]
fn category_1951_is_the_last(rt: HostRuntime) {
    let mut written = [0; 254];
    written[..10].copy_from_slice(&[7, 252, 0, 0, 0, 16, 61, 2, 0x28, 0x38]);
    written[253] = 1;
    let mut cats = CatSet::empty();
    cats.add(1951).expect(&rt, "room");
    let mut label = Label { level: 2, cats };
    let mut out = ArrayVec::new();
    assert!(rt; can_express(&label));
    write_calipso(16, &label, &mut out);
    same(&rt, "written", out.as_slice(), written.as_slice());
    is_category_1951(&rt, &out);
    label.cats.add(1952).expect(&rt, "room");
    holds(&rt, "1952", !can_express(&label));
}

fn is_category_1951(rt: &impl Abort, octets: &[u8]) {
    let (option, read) = read_calipso(octets).expect(rt, "an option");
    same(rt, "read", read, 254);
    same(rt, "DOI, level", (option.doi, option.label.level), (16, 2));
    same(rt, "categories", option.label.cats.count(), 1);
    holds(rt, "1951", option.label.cats.contains(1951));
}
