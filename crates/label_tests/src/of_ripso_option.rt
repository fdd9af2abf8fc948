use crate::checks::{holds, same};
use arrayvec::ArrayVec;
use mls_label::{CatSet, Label, WireFault, WireKind};
use ripso_option::*;
use std::process::Abort;

/// Reserved 4, Top Secret, Secret, Confidential, Reserved 3, Reserved 2, Unclassified, Reserved 1.
const CLASSES: [u8; 8] = [0x01, 0x3d, 0x5a, 0x96, 0x66, 0xcc, 0xab, 0xf1];

const OCTET: WireKind = WireKind::Octet;

const END: WireKind = WireKind::End;

// Worked by hand from the layout: each field out of its rule, each field cut off, and an indicator that is wrong both ways.
const FAULTS: &[(&[u8], usize, WireKind)] = &[
    (&[], 0, END),
    (&[0x86], 0, OCTET),
    (&[0x02, 0x03, 0x01], 0, OCTET),
    (&[0x82], 1, END),
    (&[0x82, 0x02], 1, OCTET),
    (&[0x82, 0x08, 0x5a, 0x81], 1, OCTET),
    (&[0x82, 0x03], 2, END),
    (&[0x82, 0x07], 2, END),
    (&[0x82, 0x03, 0x02], 2, OCTET),
    (&[0x82, 0x03, 0x00], 2, OCTET),
    (&[0x82, 0x04, 0x81, 0x80], 2, OCTET),
    // One octet of flags: no other follows.
    (&[0x82, 0x04, 0x5a], 3, END),
    (&[0x82, 0x04, 0x5a, 0x81], 3, OCTET),
    (&[0x82, 0x04, 0x5a, 0x01, 0x00], 3, OCTET),
    // Two octets of flags: the first says so, the second ends them.
    (&[0x82, 0x05, 0x5a], 3, END),
    (&[0x82, 0x05, 0x5a, 0x80, 0x00], 3, OCTET),
    (&[0x82, 0x05, 0x5a, 0x81], 4, END),
    (&[0x82, 0x05, 0x5a, 0x81, 0x01], 4, OCTET),
    // Four octets of flags.
    (&[0x82, 0x07, 0xab, 0xfe], 3, OCTET),
    (&[0x82, 0x07, 0xab, 0xff], 4, END),
    (&[0x82, 0x07, 0xab, 0xff, 0x01, 0x00], 5, OCTET),
    (&[0x82, 0x07, 0xab, 0xff, 0x01, 0x03], 6, END),
    (&[0x82, 0x07, 0xab, 0xff, 0x01, 0x03, 0x03], 6, OCTET),
    (&[0x82, 0x07, 0xab, 0xff, 0x01, 0x03, 0xff], 6, OCTET),
    (&[0x82, 0x06, 0xab, 0xff, 0x01, 0x03], 5, OCTET),
    (&[0x82, 0x06, 0xab, 0xff, 0x02, 0x03], 4, OCTET),
];

#[test]
fn each_fault_stands_at_its_octet(rt: HostRuntime) {
    for &(octets, octet, kind) in FAULTS {
        let fault = WireFault { octet, kind };
        same(&rt, octets, read_ripso(octets).err(), Some(fault));
    }
}

/// The octets of an option, its level and flags, its length, and the octets as it is written.
type Row = (&'static [u8], u8, &'static [u16], usize, &'static [u8]);

// Each of these is read, and written as the octets behind it: without trailing octets that have no flag.
const OPTIONS: &[Row] = &[
    (&[0x82, 3, 0x01], 1, &[], 3, &[0x82, 3, 0x01]),
    (&[0x82, 3, 0xf1, 0x82], 0xf1, &[], 3, &[0x82, 3, 0xf1]),
    (&[0x82, 4, 0x5a, 0x80], 90, &[0], 4, &[0x82, 4, 0x5a, 0x80]),
    (
        &[0x82, 5, 0x5a, 0x81, 0x00],
        90,
        &[0],
        5,
        &[0x82, 4, 0x5a, 0x80],
    ),
    (&[0x82, 4, 0x3d, 0x00], 0x3d, &[], 4, &[0x82, 3, 0x3d]),
    (
        &[0x82, 7, 0x3d, 0x01, 0x01, 0x01, 0x00],
        0x3d,
        &[],
        7,
        &[0x82, 3, 0x3d],
    ),
    (
        &[0x82, 5, 0x96, 0x03, 0x80],
        0x96,
        &[6, 7],
        5,
        &[0x82, 5, 0x96, 0x03, 0x80],
    ),
    (
        &[0x82, 7, 0xcc, 0x01, 0x41, 0x01, 0x02],
        0xcc,
        &[8, 27],
        7,
        &[0x82, 7, 0xcc, 0x01, 0x41, 0x01, 0x02],
    ),
    (
        &[0x82, 5, 0x96, 0x01, 0x02],
        0x96,
        &[13],
        5,
        &[0x82, 5, 0x96, 0x01, 0x02],
    ),
    (
        &[0x82, 6, 0xab, 0x01, 0x01, 0x82],
        0xab,
        &[14, 20],
        6,
        &[0x82, 6, 0xab, 0x01, 0x01, 0x82],
    ),
    (
        &[0x82, 7, 0xab, 0x01, 0x01, 0x01, 0x80],
        0xab,
        &[21],
        7,
        &[0x82, 7, 0xab, 0x01, 0x01, 0x01, 0x80],
    ),
    (
        &[0x82, 7, 0x01, 0xff, 0xff, 0xff, 0xfe],
        0x01,
        &[
            0, 1, 2, 3, 4, 5, 6, 7, 8, 9, 10, 11, 12, 13, 14, 15, 16, 17, 18, 19, 20, 21, 22, 23,
            24, 25, 26, 27,
        ],
        7,
        &[0x82, 7, 0x01, 0xff, 0xff, 0xff, 0xfe],
    ),
    (
        &[0x82, 7, 0x66, 0x01, 0x01, 0xff, 0x00, 0xff],
        0x66,
        &[14, 15, 16, 17, 18, 19, 20],
        7,
        &[0x82, 6, 0x66, 0x01, 0x01, 0xfe],
    ),
];

fn is_read_and_written(rt: &impl Abort, row: &Row) {
    let (octets, level, flags, length, written) = *row;
    let (label, read) = read_ripso(octets).expect(rt, "an option");
    let found = (label.level, read, label.cats.count() as usize);
    same(rt, octets, found, (level, length, flags.len()));
    for flag in flags {
        holds(rt, (octets, flag), label.cats.contains(*flag));
    }
    let mut out = ArrayVec::new();
    assert!(rt; ripso_can_express(&label));
    write_ripso(&label, &mut out);
    same(rt, octets, out.as_slice(), written);
}

#[test]
fn each_option_is_read_and_written_again(rt: HostRuntime) {
    for row in OPTIONS {
        is_read_and_written(&rt, row);
    }
}

// All that the lent label had goes, and after a fault all of it stays.
#[test]
fn a_lent_label_is_filled_or_kept(rt: HostRuntime) {
    let mut label = label_of(&rt, 200, 5, 300);
    let fault = read_ripso_into(&[0x82, 5, 0x5a, 0x81, 0x01], &mut label).err();
    holds(&rt, "a fault", fault.is_some());
    same(&rt, "kept", (label.level, label.cats.count()), (200, 296));
    let read = read_ripso_into(&[0x82, 4, 0x5a, 0x02], &mut label);
    same(&rt, "read", read, Ok(4));
    same(&rt, "filled", (label.level, label.cats.count()), (90, 1));
    holds(&rt, "flag 6", label.cats.contains(6));
}

fn label_of(rt: &impl Abort, level: u8, first: u16, last: u16) -> Label {
    let mut cats = CatSet::empty();
    assert!(rt; first <= last && last < 65535);
    cats.add_run(first, last).expect(rt, "room");
    Label { level, cats }
}

// Of all octets the eight classification levels, without flags.
#[test]
fn eight_octets_are_classification_levels(rt: HostRuntime) {
    for class in 0..256u16 {
        let class = class as u8;
        let is = CLASSES.contains(&class);
        let is_read = read_ripso(&[0x82, 3, class]).is_ok();
        same(&rt, ("read", class), is_read, is);
        let label = Label {
            level: class,
            cats: CatSet::empty(),
        };
        same(&rt, ("expressed", class), ripso_can_express(&label), is);
    }
}

// Flags up to 27, and one more.
const EXPRESSED: &[(u8, u16, u16, bool)] = &[
    (0x01, 0, 27, true),
    (0x3d, 27, 27, true),
    (0x5a, 0, 0, true),
    (0x96, 0, 27, true),
    (0x66, 0, 27, true),
    (0xcc, 0, 27, true),
    (0xab, 0, 27, true),
    (0xf1, 0, 27, true),
    (0xf1, 27, 28, false),
    (0x5a, 28, 28, false),
    (0x5a, 0, 65534, false),
    (0x5b, 0, 0, false),
    (0xa5, 27, 27, false),
];

#[test]
fn an_option_expresses_its_levels_and_28_flags(rt: HostRuntime) {
    for &(level, first, last, wanted) in EXPRESSED {
        let label = label_of(&rt, level, first, last);
        same(&rt, (level, first, last), ripso_can_express(&label), wanted);
    }
}
